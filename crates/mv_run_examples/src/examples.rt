//! The examples of this repository, whose files stand in `examples/`, and what was worked out by hand of each.
use crate::cases::{Form, all_end};
use std::test::Fail;

/// The network of each example, what is written of it and what is noted; then a run that it allows, what is told of that, a run that
/// differs in one value, and what is told of that.
const EXAMPLES: &str = "\
-- A grant that may be held: a default that names a column, and a net that goes.
# A priority arbiter: of three requests the first is granted. While the lock is held the last grant stays.;\
.model arbiter;.inputs a b c last lock;.outputs grant busy;.mv last, pick, grant 4 NONE A B C;\
.mv lock 2 OPEN HELD;;# whose turn it would be;.table a b c -> pick;.default NONE;1 - - A;\
0 1 - B;0 0 1 C;;# a held grant stays, and else it is the one picked;\
.table lock last pick -> grant;HELD {A-C} - =last;.default =pick;;.table grant -> busy;\
.default 1;NONE 0;;# how many ask, which nobody looks at;.mv asking 3 NOBODY ONE SEVERAL;\
.table a b c -> asking;.default SEVERAL;0 0 0 NOBODY;1 0 0 ONE;0 1 0 ONE;0 0 1 ONE;.end; | \
.model arbiter;.inputs a b c last lock;.outputs grant busy;.mv last 4 NONE A B C;\
.mv lock 2 OPEN HELD;.mv pick 4 NONE A B C;.mv grant 4 NONE A B C;.table a b c -> pick;\
.default NONE;1 - - A;0 1 - B;0 0 1 C;.table last lock -> _m1;.default 1;A HELD 0;B HELD 0;\
C HELD 0;.table last lock pick _m1 -> grant;A HELD - - A;B HELD - - B;C HELD - - C;\
- - NONE 1 NONE;- - A 1 A;- - B 1 B;- - C 1 C;.table grant -> busy;.default 1;NONE 0;.end; | \
# begin drop;remove asking;# end 27;# done 39 27; | \
1 0 1 NONE OPEN A 1;0 1 0 C HELD C 1; | \
yes;nets a b c last lock pick _m1 grant busy asking;step 0 1 0 1 0 0 1 1 1 1 2;step 1 0 1 0 3 1 2 0 3 1 1; | \
1 0 1 NONE OPEN A 1;0 1 0 C HELD B 1; | no 1;
-- Sets and ranges of named values, and a net that goes.
# A decoder of instructions: which unit does the work, and how wide its operands are.;\
.model decoder;.inputs op size;.outputs unit width;.mv op 8 NOP LOAD STORE ADD SUB AND OR JUMP;\
.mv size, width 3 BYTE HALF WORD;.mv unit 4 IDLE MEMORY ALU BRANCH;;.table op -> unit;\
.default ALU;NOP IDLE;{LOAD-STORE} MEMORY;JUMP BRANCH;;\
# memory takes the size as it is, the rest works on half a word at least, and without work any width will do;\
.table op size -> width;.default WORD;{LOAD,STORE} - =size;{ADD-OR} !WORD HALF;NOP - -;;\
# nobody asks whether it is a jump;.table unit -> jumps;- 0;BRANCH 1;.end; | \
.model decoder;.inputs op size;.outputs unit width;.mv op 8 NOP LOAD STORE ADD SUB AND OR JUMP;\
.mv size 3 BYTE HALF WORD;.mv unit 4 IDLE MEMORY ALU BRANCH;.mv width 3 BYTE HALF WORD;\
.table op -> unit;.default ALU;NOP IDLE;(LOAD,STORE) MEMORY;JUMP BRANCH;.table op size -> width;\
.default WORD;(LOAD,STORE) BYTE BYTE;(LOAD,STORE) HALF HALF;(LOAD,STORE) WORD WORD;\
(ADD,SUB,AND,OR) (BYTE,HALF) HALF;NOP - -;.end; | \
# begin drop;remove jumps;# end 12;# done 13 12; | \
LOAD HALF MEMORY HALF;ADD BYTE ALU HALF;NOP WORD IDLE BYTE; | \
yes;nets op size unit width jumps;step 0 1 1 1 1 0;step 1 3 0 2 1 0;step 2 0 2 0 0 0; | \
LOAD HALF MEMORY HALF;ADD BYTE ALU BYTE;NOP WORD IDLE BYTE; | no 1;
-- Two nets go, one behind the other, and a partial table stays.
.model spare;.inputs a b c;.outputs most;.table a b c -> most;1 1 - 1;1 - 1 1;- 1 1 1;0 0 - 0;\
0 - 0 0;- 0 0 0;.table a b c -> all;1 1 1 1;0 - - 0;- 0 - 0;- - 0 0;.table all most -> odd;\
1 0 1;0 - 0;- 1 0;.table a c -> legal;0 - 1;- 0 1;.end; | \
.model spare;.inputs a b c;.outputs most;.table a b c -> most;1 1 - 1;1 - 1 1;- 1 1 1;0 0 - 0;\
0 - 0 0;- 0 0 0;.table a c -> legal;0 - 1;- 0 1;.end; | \
# begin drop;remove odd;remove all;# end 14;# done 24 14; | \
1 1 0 1;0 1 1 1; | \
yes;nets a b c most all odd legal;step 0 1 1 0 1 0 0 1;step 1 0 1 1 1 0 0 1; | \
1 1 1 1;0 1 1 1; | no 0;
-- Two instances of one model, the second behind the first, and an output of each that nobody reads.
# A counter of two digits of three values each, which goes on wherever it is told to count.;.model counter;\
.inputs count;.outputs carry low high;.mv low, high 3;;# the second digit goes on where the first one is full;\
.subckt digit first step=count value=low carry=full;.subckt digit second step=full value=high carry=carry;.end;;\
.model digit;.inputs step;.outputs value carry zero;.mv value, next 3;;.table step value -> next;0 - =value;1 0 1;\
1 1 2;1 2 0;.latch next value;.reset -> value;0;;.table step value -> carry;.default 0;1 2 1;;\
# nobody asks either digit whether it is zero;.table value -> zero;.default 0;0 1;.end; | \
.model counter;.inputs count;.outputs carry low high;.mv low 3;.mv high 3;.mv first.next 3;.mv second.next 3;\
.latch first.next low;.latch second.next high;.table count low -> first.next;0 0 0;0 1 1;0 2 2;1 0 1;1 1 2;1 2 0;\
.reset -> low;0;.table count low -> full;.default 0;1 2 1;.table high full -> second.next;0 0 0;1 0 1;2 0 2;0 1 1;\
1 1 2;2 1 0;.reset -> high;0;.table high full -> carry;.default 0;2 1 1;.end; | \
# begin drop;remove first.zero;remove second.zero;# end 28;# done 30 28; | \
1 0 0 0 0 0;1 1 0 0 1 0;1 2 0 0 2 0;0 0 1 0 0 1; | \
yes;nets count low high first.next .low full first.zero second.next .high carry second.zero;step 0 1 0 0 1 0 0 1 0 0 0 1;\
step 1 1 1 0 2 0 0 0 0 0 0 1;step 2 1 2 0 0 0 1 0 1 0 0 1;step 3 0 0 1 0 0 0 1 1 0 0 0; | \
1 0 0 0 0 0;1 1 0 0 1 0;1 2 0 0 2 0;0 0 0 0 0 1; | no 2;
-- A table of three outputs in two instances: one choice each, and an output that nobody reads.
# Two servers are asked at once, and each may answer or put off. What it says and how much it sends belong together.;\
.model exchange;.inputs request;.outputs done size;.mv request 3 IDLE READ WRITE;.mv left, right 3 NONE READY LATER;\
.mv left_size, right_size, size 3 ZERO ONE MANY;.subckt server first asked=request answer=left amount=left_size;\
.subckt server second asked=request answer=right amount=right_size;;# it is done when both were ready;\
.table left right -> done;.default 0;READY READY 1;;# the first counts, if it was ready, and else the second;\
.table left left_size right_size -> size;READY - - =left_size;!READY - - =right_size;.end;;.model server;\
.inputs asked;.outputs answer amount;.mv asked 3 IDLE READ WRITE;.mv answer 3 NONE READY LATER;\
.mv amount 3 ZERO ONE MANY;;# one choice for three nets, the last of which nobody looks at;.table asked -> answer amount busy;\
IDLE NONE ZERO 0;READ READY (ONE,MANY) 1;WRITE READY ONE 1;!IDLE LATER ZERO 0;.end; | \
.model exchange;.inputs request;.outputs done size;.mv request 3 IDLE READ WRITE;.mv size 3 ZERO ONE MANY;.mv _m1 4;\
.mv left 3 NONE READY LATER;.mv left_size 3 ZERO ONE MANY;.mv _m2 4;.mv right 3 NONE READY LATER;\
.mv right_size 3 ZERO ONE MANY;.table left right -> done;.default 0;READY READY 1;\
.table left left_size right_size -> size;READY ZERO - ZERO;READY ONE - ONE;READY MANY - MANY;(NONE,LATER) - ZERO ZERO;\
(NONE,LATER) - ONE ONE;(NONE,LATER) - MANY MANY;.table request -> _m1;IDLE 0;READ 1;WRITE 2;(READ,WRITE) 3;\
.table _m1 -> left;0 NONE;1 READY;2 READY;3 LATER;.table _m1 -> left_size;0 ZERO;1 (ONE,MANY);2 ONE;3 ZERO;\
.table request -> _m2;IDLE 0;READ 1;WRITE 2;(READ,WRITE) 3;.table _m2 -> right;0 NONE;1 READY;2 READY;3 LATER;\
.table _m2 -> right_size;0 ZERO;1 (ONE,MANY);2 ONE;3 ZERO;.end; | \
# begin drop;remove first.busy;remove second.busy;# end 38;# done 46 38; | \
IDLE 0 ZERO;WRITE 1 ONE; | \
yes;nets request done size _m1 left left_size first.busy _m2 right right_size second.busy;step 0 0 0 0 0 0 0 0 0 0 0 0;\
step 1 2 1 1 2 1 1 1 2 1 1 1; | \
IDLE 0 ZERO;WRITE 1 MANY; | no 1;
";

/// The same of an example whose script is another one.
const SWEPT: &str = "\
-- A buffer, a constant and an inner net that go, and one that stays, since the literals would rise.
# A register on a bus, put together from modules.;.model register;.inputs cmd addr lock ready;\
.outputs load send;.mv cmd, op 3 IDLE READ WRITE;.mv addr 3 CTRL DATA NONE;;# the bus hands its command on;\
.table cmd -> op;- =cmd;;# the test mode is tied off;.table -> test;0;;\
# the register is meant and may be used;.table addr lock ready test -> hit;.default 0;DATA 0 1 - 1;- - - 1 1;;\
.table op -> writing;.default 0;WRITE 1;;.table writing hit -> load;.default 0;1 1 1;;.table op hit -> send;\
.default 0;READ 1 1;.end; | \
.model register;.inputs cmd addr lock ready;.outputs load send;.mv cmd 3 IDLE READ WRITE;\
.mv addr 3 CTRL DATA NONE;.table addr lock ready -> hit;.default 0;DATA 0 1 1;.table cmd hit -> load;\
.default 0;WRITE 1 1;.table cmd hit -> send;.default 0;READ 1 1;.end; | \
# begin sweep;wire op;remove op;collapse test;# end 8;# begin eliminate;collapse writing;# end 7;# done 12 7; | \
WRITE DATA 0 1 1 0;READ CTRL 0 1 0 0; | \
yes;nets cmd addr lock ready op test hit writing load send;step 0 2 1 0 1 2 0 1 1 1 0;step 1 1 0 0 1 1 0 0 0 0 0; | \
WRITE DATA 0 1 1 0;READ CTRL 0 1 0 1; | no 1;
-- A latch with a reset table, whose nets stay, and an inner net that goes.
# A controller of four modes: told to go it loads and runs, is done, and waits again.;.model controller;.inputs go;\
.outputs busy;.mv mode, next 4 IDLE LOAD RUN DONE;;# the mode is kept from step to step, and begins idle;\
.latch next mode;.reset mode;IDLE;;# what is seen of it from outside;.table mode -> working;.default 0;\
(LOAD,RUN) 1;.table working -> busy;- =working;;.table mode go -> next;IDLE 0 IDLE;IDLE 1 LOAD;LOAD - RUN;\
RUN - DONE;DONE - IDLE;.end; | \
.model controller;.inputs go;.outputs busy;.mv mode 4 IDLE LOAD RUN DONE;.mv next 4 IDLE LOAD RUN DONE;\
.latch next mode;.reset -> mode;IDLE;.table mode -> busy;(IDLE,DONE) 0;(LOAD,RUN) 1;.table go mode -> next;\
0 IDLE IDLE;1 IDLE LOAD;- LOAD RUN;- RUN DONE;- DONE IDLE;.end; | \
# begin sweep;# end 10;# begin eliminate;collapse working;# end 9;# done 10 9; | \
1 IDLE 0;0 LOAD 1;1 RUN 1; | \
yes;nets go mode .mode working busy next;step 0 1 0 0 0 0 1;step 1 0 1 0 1 1 2;step 2 1 2 0 1 1 3; | \
0 IDLE 0;0 LOAD 1;1 RUN 1; | no 0;
";

/// The same of one whose script looks at what readers can tell.
const SIMPLIFIED: &str = "\
-- A net that is looked at in one phase alone, and a table with a row that the rest makes shorter.
# A traffic light with a button for those who walk.;.model light;.inputs button timer;\
.outputs cars walkers;.mv phase, next 4 GREEN YELLOW RED WALK;.mv timer 2 RUNS OVER;\
.mv cars 3 GREEN YELLOW RED;.mv walkers 2 STOP GO;.latch next phase;.latch keeps asked;;\
# while cars have green somebody may ask them to stop;.table button asked phase -> request;\
.default 0;1 - GREEN 1;- 1 GREEN 1;;# that somebody asked is kept until the walk begins;\
.table button asked phase -> keeps;.default 0;1 - !WALK 1;- 1 !WALK 1;;\
# each phase lasts until its time is over, and green until somebody asks besides;\
.table request timer phase -> next;0 - GREEN GREEN;1 RUNS GREEN GREEN;1 OVER GREEN YELLOW;\
- RUNS YELLOW YELLOW;- OVER YELLOW RED;- RUNS RED RED;- OVER RED WALK;- RUNS WALK WALK;\
- OVER WALK GREEN;;.table phase -> cars;.default RED;GREEN GREEN;YELLOW YELLOW;;\
.table phase -> walkers;.default STOP;WALK GO;;.reset phase;GREEN;.reset asked;0;.end; | \
.model light;.inputs button timer;.outputs cars walkers;.mv timer 2 RUNS OVER;\
.mv phase 4 GREEN YELLOW RED WALK;.mv next 4 GREEN YELLOW RED WALK;.mv cars 3 GREEN YELLOW RED;\
.mv walkers 2 STOP GO;.latch next phase;.latch keeps asked;.table button asked -> request;\
.default 0;1 - 1;- 1 1;.table button phase asked -> keeps;.default 0;1 (GREEN,YELLOW,RED) - 1;\
- (GREEN,YELLOW,RED) 1 1;.table timer phase request -> next;- GREEN 0 GREEN;RUNS GREEN - GREEN;\
OVER GREEN 1 YELLOW;RUNS YELLOW - YELLOW;OVER YELLOW - RED;RUNS RED - RED;OVER RED - WALK;\
RUNS WALK - WALK;OVER WALK - GREEN;.table phase -> cars;.default RED;GREEN GREEN;YELLOW YELLOW;\
.table phase -> walkers;.default STOP;WALK GO;.reset -> phase;GREEN;.reset -> asked;0;.end; | \
# begin simplify 1 0;narrow request 1 0;line button 1 -> 1;line asked 1 -> 1;default 0;end;\
narrow next 1 0;line phase 0 request 0 -> 0;line timer 0 phase 0 -> 0;\
line timer 1 phase 0 request 1 -> 1;line timer 0 phase 1 -> 1;line timer 1 phase 1 -> 2;\
line timer 0 phase 2 -> 2;line timer 1 phase 2 -> 3;line timer 0 phase 3 -> 3;\
line timer 1 phase 3 -> 0;end;# end 28;# done 31 28; | \
1 OVER GREEN 0 GREEN STOP;0 RUNS YELLOW 1 YELLOW STOP;0 OVER YELLOW 1 YELLOW STOP; | \
yes;nets button timer phase asked request keeps next cars walkers .phase .asked;step 0 1 1 0 0 1 1 1 0 0 0 0;\
step 1 0 0 1 1 0 1 1 1 0 0 0;step 2 0 1 1 1 0 1 2 1 0 0 0; | \
1 OVER GREEN 0 GREEN STOP;0 OVER YELLOW 1 YELLOW STOP;0 OVER YELLOW 1 YELLOW STOP; | no 1;
";

/// The same of one whose script looks for what several tables can share.
const EXTRACTED: &str = "\
-- Two divisors, the first of three tables.
# A vending machine: coins or a card pay for crisps and soda.;.model vending;\
.inputs coins card choice crisps soda;.outputs drop_crisps drop_soda give_back;\
.mv coins 3 NONE PART FULL;.mv card 3 NONE ASKED GOOD;.mv choice 4 NOTHING CRISPS SODA BACK;\
.mv crisps, soda 2 GONE THERE;;# who has paid gets crisps, as long as there are some;\
.table coins card choice crisps -> drop_crisps;.default 0;FULL - CRISPS THERE 1;\
- GOOD CRISPS THERE 1;;# and soda;.table coins card choice soda -> drop_soda;.default 0;\
FULL - SODA THERE 1;- GOOD SODA THERE 1;;# or what was paid, and also for what is gone;\
.table coins card choice crisps soda -> give_back;.default 0;FULL - BACK - - 1;- GOOD BACK - - 1;\
FULL - CRISPS GONE - 1;- GOOD CRISPS GONE - 1;FULL - SODA - GONE 1;- GOOD SODA - GONE 1;.end; | \
.model vending;.inputs coins card choice crisps soda;.outputs drop_crisps drop_soda give_back;\
.mv coins 3 NONE PART FULL;.mv card 3 NONE ASKED GOOD;.mv choice 4 NOTHING CRISPS SODA BACK;\
.mv crisps 2 GONE THERE;.mv soda 2 GONE THERE;.table choice crisps _m1 -> drop_crisps;.default 0;\
CRISPS THERE 1 1;.table choice soda _m1 -> drop_soda;.default 0;SODA THERE 1 1;\
.table _m1 _m2 -> give_back;.default 0;1 1 1;.table coins card -> _m1;.default 0;FULL - 1;- GOOD 1;\
.table choice crisps soda -> _m2;.default 0;CRISPS GONE - 1;SODA - GONE 1;BACK - - 1;.end; | \
# begin kernel;add _m1;line coins 2 -> 1;line card 2 -> 1;default 0;end;divide drop_crisps _m1;\
line choice 1 crisps 1 _m1 1 -> 1;default 0;end;divide drop_soda _m1;\
line choice 2 soda 1 _m1 1 -> 1;default 0;end;divide give_back _m1;\
line choice 1 crisps 0 _m1 1 -> 1;line choice 2 soda 0 _m1 1 -> 1;line choice 3 _m1 1 -> 1;\
default 0;end;add _m2;line choice 1 crisps 0 -> 1;line choice 2 soda 0 -> 1;line choice 3 -> 1;\
default 0;end;divide give_back _m2;line _m1 1 _m2 1 -> 1;default 0;end;# end 15;# done 28 15; | \
FULL NONE CRISPS THERE GONE 1 0 0;NONE GOOD SODA THERE GONE 0 0 1; | \
yes;nets coins card choice crisps soda drop_crisps drop_soda give_back;step 0 2 0 1 1 0 1 0 0;step 1 0 2 2 1 0 0 0 1; | \
FULL NONE CRISPS THERE GONE 1 0 0;NONE GOOD SODA THERE THERE 0 0 1; | no 1;
";

/// The same of one whose tables leave choices, and of whose nets one has values that nobody tells apart.
const CHOSEN: &str = "\
-- The first choice of each table is made, and two kinds of traffic are left of four.
# Two caches may hold one line of a memory. Where several moves are right the tables leave the choice.;.model caches;\
.inputs ask;.outputs fetch;.mv ask 5 NOBODY A_READS A_WRITES B_READS B_WRITES;\
.mv a, next_a, b, next_b 3 OWNED SHARED GONE;.mv bus 4 QUIET LOAD STORE UPGRADE;;\
# a line may be given up while it is shared, and who reads it alone may own it at once;.table ask a b -> next_a;\
NOBODY - - =a;NOBODY SHARED - GONE;A_READS OWNED - OWNED;A_READS !OWNED !GONE SHARED;\
A_READS !OWNED GONE (OWNED,SHARED);A_WRITES - - OWNED;B_READS OWNED - SHARED;B_READS SHARED - (SHARED,GONE);\
B_READS GONE - GONE;B_WRITES - - GONE;.latch next_a a;.reset -> a;GONE;;# the same for the other one;\
.table ask a b -> next_b;NOBODY - - =b;NOBODY - SHARED GONE;B_READS - OWNED OWNED;B_READS !GONE !OWNED SHARED;\
B_READS GONE !OWNED (OWNED,SHARED);B_WRITES - - OWNED;A_READS - OWNED SHARED;A_READS - SHARED (SHARED,GONE);\
A_READS - GONE GONE;A_WRITES - - GONE;.latch next_b b;.reset -> b;GONE;;\
# what goes over the bus, of which the memory looks at the fetches alone;.table ask a b -> bus;.default QUIET;\
A_READS GONE - LOAD;A_WRITES GONE - STORE;A_WRITES SHARED - UPGRADE;B_READS - GONE LOAD;B_WRITES - GONE STORE;\
B_WRITES - SHARED UPGRADE;.table bus -> fetch;.default 0;(LOAD,STORE) 1;.end; | \
.model caches;.inputs ask;.outputs fetch;.mv ask 5 NOBODY A_READS A_WRITES B_READS B_WRITES;.mv a 3 OWNED SHARED GONE;\
.mv b 3 OWNED SHARED GONE;.mv next_a 3 OWNED SHARED GONE;.mv next_b 3 OWNED SHARED GONE;.latch next_a a;\
.latch next_b b;.table ask a b -> next_a;NOBODY OWNED - OWNED;NOBODY SHARED - SHARED;NOBODY GONE - GONE;\
A_READS OWNED - OWNED;A_READS (SHARED,GONE) (OWNED,SHARED) SHARED;A_READS (SHARED,GONE) GONE OWNED;A_WRITES - - OWNED;\
B_READS OWNED - SHARED;B_READS SHARED - SHARED;B_READS GONE - GONE;B_WRITES - - GONE;.reset -> a;GONE;\
.table ask a b -> next_b;NOBODY - OWNED OWNED;NOBODY - SHARED SHARED;NOBODY - GONE GONE;B_READS - OWNED OWNED;\
B_READS (OWNED,SHARED) (SHARED,GONE) SHARED;B_READS GONE (SHARED,GONE) OWNED;B_WRITES - - OWNED;\
A_READS - OWNED SHARED;A_READS - SHARED SHARED;A_READS - GONE GONE;A_WRITES - - GONE;.reset -> b;GONE;\
.table ask a b -> bus;.default 0;A_READS GONE - 1;A_WRITES GONE - 1;A_WRITES SHARED - 0;B_READS - GONE 1;\
B_WRITES - GONE 1;B_WRITES - SHARED 0;.table bus -> fetch;.default 0;1 1;.end; | \
# begin determinize;narrow next_a 0 0;line ask 0 a 0 -> 0;line ask 0 a 1 -> 1;line ask 0 a 2 -> 2;line ask 1 a 0 -> 0;\
line ask 1 a (1,2) b (0,1) -> 1;line ask 1 a (1,2) b 2 -> 0;line ask 2 -> 0;line ask 3 a 0 -> 1;line ask 3 a 1 -> 1;\
line ask 3 a 2 -> 2;line ask 4 -> 2;end;narrow next_b 0 0;line ask 0 b 0 -> 0;line ask 0 b 1 -> 1;line ask 0 b 2 -> 2;\
line ask 3 b 0 -> 0;line ask 3 a (0,1) b (1,2) -> 1;line ask 3 a 2 b (1,2) -> 0;line ask 4 -> 0;line ask 1 b 0 -> 1;\
line ask 1 b 1 -> 1;line ask 1 b 2 -> 2;line ask 2 -> 2;end;# end 57;# begin merge;merge bus 3 0;merge bus 2 1;\
# end 57;# done 61 57; | \
A_READS GONE GONE 1;B_WRITES OWNED GONE 1;NOBODY GONE OWNED 0; | \
yes;nets ask a b next_a .a next_b .b bus fetch;step 0 1 2 2 0 2 2 2 1 1;step 1 4 0 2 2 2 0 2 2 1;step 2 0 2 0 2 2 0 2 0 0; | \
A_READS GONE GONE 1;B_WRITES GONE GONE 1;NOBODY GONE OWNED 0; | no 0;
";

/// The same of one with an inner net of six values, for which nets of two values come.
const ENCODED: &str = "\
-- Three nets for a command, of whose codes two stand for no value.
# A controller of a memory chip: which command the chip gets in each step, and what its pins say then.;\
.model sdram;.inputs request write hit due;.outputs ras cas we done;\
.mv command 6 NOP READ WRITE REFRESH ACTIVE PRECHARGE;;\
# a refresh that is due comes first, and a row is opened before it is used and closed before another one;\
.table request write hit due open -> command;.default NOP;- - - 1 1 PRECHARGE;- - - 1 0 REFRESH;\
1 - - 0 0 ACTIVE;1 - 0 0 1 PRECHARGE;1 0 1 0 1 READ;1 1 1 0 1 WRITE;;# each pin is low in some commands;\
.table command -> ras;.default 1;(REFRESH,ACTIVE,PRECHARGE) 0;.table command -> cas;.default 1;\
(READ,WRITE,REFRESH) 0;.table command -> we;.default 1;(WRITE,PRECHARGE) 0;;# what was asked for is done;\
.table command -> done;.default 0;(READ,WRITE) 1;;# whether a row is open;.table command open -> next;\
ACTIVE - 1;PRECHARGE - 0;!(ACTIVE,PRECHARGE) - =open;.latch next open;.reset open;0;.end; | \
.model sdram;.inputs request write hit due;.outputs ras cas we done;.latch next open;\
.table _m1 _m2 _m3 -> ras;.default 1;0 1 1 0;1 - - 0;.table _m1 _m2 _m3 -> cas;.default 1;0 0 1 0;0 1 - 0;\
.table _m1 _m2 _m3 -> we;.default 1;0 1 0 0;1 0 1 0;1 1 - 0;.table _m1 _m2 _m3 -> done;.default 0;0 0 1 1;\
0 1 0 1;.table open _m1 _m2 _m3 -> next;- 1 0 0 1;- 1 0 1 0;- 1 1 - 0;0 0 - - 0;1 0 - - 1;.reset -> open;0;\
.table request write hit due open -> _m1;.default 0;- - - 1 1 1;- - - 1 0 0;1 - - 0 0 1;1 - 0 0 1 1;\
1 0 1 0 1 0;1 1 1 0 1 0;.table request write hit due open -> _m2;.default 0;- - - 1 1 0;- - - 1 0 1;\
1 - - 0 0 0;1 - 0 0 1 0;1 0 1 0 1 0;1 1 1 0 1 1;.table request write hit due open -> _m3;.default 0;\
- - - 1 1 1;- - - 1 0 1;1 - - 0 0 0;1 - 0 0 1 1;1 0 1 0 1 1;1 1 1 0 1 0;.end; | \
# begin encode;encode command 3 _m1 _m2 _m3 000 001 010 011 100 101;# end 98;# done 31 98; | \
1 0 0 0 0 0 1 1 0;1 1 1 0 1 1 0 0 1;0 0 0 1 1 0 1 0 0; | \
yes;nets request write hit due open command ras cas we done next .open;step 0 1 0 0 0 0 4 0 1 1 0 1 0;\
step 1 1 1 1 0 1 2 1 0 0 1 1 0;step 2 0 0 0 1 1 5 0 1 0 0 0 0; | \
1 0 0 0 0 0 1 1 0;1 1 1 0 1 1 0 0 1;0 0 0 1 0 0 1 0 0; | no 1;
";

#[test]
fn an_example_with_choices_is_written_as_worked_out(rt: HostRuntime) -> Result<(), Fail> {
    let script =
        b"determinize; merge # one move each time, and kinds of traffic that nobody tells apart\n";
    all_end(&rt, rt.alloc(), Form::Example(script), CHOSEN)
}

#[test]
fn an_example_with_divisors_is_written_as_worked_out(rt: HostRuntime) -> Result<(), Fail> {
    let script = b"kernel # what several tables can share\n";
    all_end(&rt, rt.alloc(), Form::Example(script), EXTRACTED)
}

#[test]
fn a_simplified_example_is_written_as_worked_out(rt: HostRuntime) -> Result<(), Fail> {
    let script = b"simplify 1 0 # as far as the readers of each net\n";
    all_end(&rt, rt.alloc(), Form::Example(script), SIMPLIFIED)
}

#[test]
fn an_encoded_example_is_written_as_worked_out(rt: HostRuntime) -> Result<(), Fail> {
    let script = b"encode # nets of two values, for tools that know no others\n";
    all_end(&rt, rt.alloc(), Form::Example(script), ENCODED)
}

#[test]
fn a_swept_example_is_written_as_worked_out(rt: HostRuntime) -> Result<(), Fail> {
    let script = b"sweep; eliminate # what modules leave between them\n";
    all_end(&rt, rt.alloc(), Form::Example(script), SWEPT)
}

#[test]
fn the_examples_are_written_as_worked_out(rt: HostRuntime) -> Result<(), Fail> {
    let script = b"drop # what nobody sees or reads\n";
    all_end(&rt, rt.alloc(), Form::Example(script), EXAMPLES)
}
