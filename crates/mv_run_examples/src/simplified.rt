//! Runs of `simplify`, and checks of what it notes.
use crate::cases::{Form, all_end, all_end_with};
use std::test::Fail;

/// A script, a network, what is written of it and what is noted, which is a certificate.
const SIMPLIFIED: &str = "\
-- Below a net at choice stands a table that isn't total, which nobody reads: there the choice may matter.
sweep simplify 1 0 | \
.model u;.inputs;.outputs z;.table -> c;-;.table c -> d;0 0;.table c -> z;- =c;.end; | \
.model u;.inputs;.outputs z;.table -> c;-;.table c -> d;0 0;.table c -> z;0 0;1 1;.end; | \
# begin sweep;# end 3;# begin simplify 1 0;# note partial c;# end 3;# done 3 3;
-- What a table says of values that its reader doesn't look at is free.
simplify 1 0 | \
.model w;.inputs a b;.outputs z;.table a b -> x;0 0 0;0 1 0;1 0 0;1 1 1;.table a x -> z;.default 0;1 1 1;.end; | \
.model w;.inputs a b;.outputs z;.table b -> x;0 0;1 1;.table a x -> z;.default 0;1 1 1;.end; | \
# begin simplify 1 0;narrow x 1 0;line b 0 -> 0;line b 1 -> 1;end;# end 4;# done 10 4;
-- A table that isn't total is made tight itself. It never sees the third value, and once it is total the net above isn't noted.
simplify 0 1 | \
.model v;.inputs a;.outputs z;.mv x 3;.table x -> z;0 1;1 0;.table a -> x;0 0;1 1;.end; | \
.model v;.inputs a;.outputs z;.mv x 3;.table x -> z;(0,2) 1;(1,2) 0;.table a -> x;0 0;1 1;.end; | \
# begin simplify 0 1;narrow z 0 1;line x (0,2) -> 1;line x (1,2) -> 0;end;# end 4;# done 4 4;
-- A window of 4,097 points is too wide, and one of 4,096 isn't.
simplify 0 0 | \
.model n;.inputs a;.outputs z;.mv a 241;.mv z 17;.table a -> z;.default 0;1 1;.end; | \
.model n;.inputs a;.outputs z;.mv a 241;.mv z 17;.table a -> z;.default 0;1 1;.end; | \
# begin simplify 0 0;# note window z;# end 1;# done 1 1;
simplify 0 0 | \
.model n;.inputs a;.outputs z;.mv a 256;.mv z 16;.table a -> z;.default 0;1 1;.end; | \
.model n;.inputs a;.outputs z;.mv a 256;.mv z 16;.table a -> z;.default 0;1 1;.end; | \
# begin simplify 0 0;# end 1;# done 1 1;
simplify 0 0 | \
.model n;.inputs a b;.outputs z;.mv a 1024;.mv b 1024;.mv z 1024;.table a b -> z;.default 0;1 1 1;.end; | \
.model n;.inputs a b;.outputs z;.mv a 1024;.mv b 1024;.mv z 1024;.table a b -> z;.default 0;1 1 1;.end; | \
# begin simplify 0 0;# note window z;# end 2;# done 2 2;
-- Without `--free` partial tables stay partial, and what stands above them is noted.
fill simplify 1 0 | \
.model p;.inputs a b;.outputs z;.table a b -> x;0 0 1;1 - 0;.table x b -> z;1 1 1;0 - 0;.end; | \
.model p;.inputs a b;.outputs z;.table a b -> x;0 0 1;1 - 0;.table b x -> z;1 1 1;- 0 0;.end; | \
# begin fill;# note strict x;# note strict z;# end 6;# begin simplify 1 0;# note partial x;# end 6;# done 6 6;
-- A controller of two models: two of its lines come together, since at rest and at the end it waits for the same.
sweep eliminate simplify 1 1 | \
# from a controller;.model main;.inputs go;.outputs busy;.mv state, state$in 4 IDLE LOAD RUN DONE;\
.subckt step s1 cur=state go=go nxt=state$in;.names state -> b<*0>;.def 0;(LOAD,RUN) 1;.names b<*0> -> busy;- =b<*0>;\
.latch state$in state;.r state;IDLE;.end;.model step;.inputs cur go;.outputs nxt;.mv cur, nxt 4 IDLE LOAD RUN DONE;\
.names cur go -> nxt;IDLE 0 IDLE;IDLE 1 LOAD;LOAD - RUN;RUN - DONE;DONE - IDLE;.end; | \
.model main;.inputs go;.outputs busy;.mv state 4 IDLE LOAD RUN DONE;.mv state$in 4 IDLE LOAD RUN DONE;.latch state$in state;\
.table state -> busy;(IDLE,DONE) 0;(LOAD,RUN) 1;.reset -> state;IDLE;.table go state -> state$in;0 (IDLE,DONE) IDLE;\
1 IDLE LOAD;- LOAD RUN;- RUN DONE;- DONE IDLE;.end; | \
# begin sweep;# end 10;# begin eliminate;collapse b<*0>;# end 9;# begin simplify 1 1;narrow state$in 1 1;\
line go 0 state (0,3) -> 0;line go 1 state 0 -> 1;line state 1 -> 2;line state 2 -> 3;line state 3 -> 0;end;# end 9;# done 10 9;
sweep eliminate better { simplify 1 1 kernel cube } | \
# from a controller;.model main;.inputs go;.outputs busy;.mv state, state$in 4 IDLE LOAD RUN DONE;\
.subckt step s1 cur=state go=go nxt=state$in;.names state -> b<*0>;.def 0;(LOAD,RUN) 1;.names b<*0> -> busy;- =b<*0>;\
.latch state$in state;.r state;IDLE;.end;.model step;.inputs cur go;.outputs nxt;.mv cur, nxt 4 IDLE LOAD RUN DONE;\
.names cur go -> nxt;IDLE 0 IDLE;IDLE 1 LOAD;LOAD - RUN;RUN - DONE;DONE - IDLE;.end; | \
.model main;.inputs go;.outputs busy;.mv state 4 IDLE LOAD RUN DONE;.mv state$in 4 IDLE LOAD RUN DONE;.latch state$in state;\
.table state -> busy;(IDLE,DONE) 0;(LOAD,RUN) 1;.reset -> state;IDLE;.table go state -> state$in;0 (IDLE,DONE) IDLE;\
1 IDLE LOAD;- LOAD RUN;- RUN DONE;- DONE IDLE;.end; | \
# begin sweep;# end 10;# begin eliminate;collapse b<*0>;# end 9;# begin simplify 1 1;narrow state$in 1 1;\
line go 0 state (0,3) -> 0;line go 1 state 0 -> 1;line state 1 -> 2;line state 2 -> 3;line state 3 -> 0;end;# end 9;\
# begin kernel;# end 9;# begin cube;# end 9;# done 10 9;
";

/// The same with `--free`.
const SIMPLIFIED_FREELY: &str = "\
-- Where tables were filled the net above them may stay 0.
fill simplify 1 0 | \
.model p;.inputs a b;.outputs z;.table a b -> x;0 0 1;1 - 0;.table x b -> z;1 1 1;0 - 0;.end; | \
.model p;.inputs a b;.outputs z;.table -> x;.default 0;.table b x -> z;.default 0;1 1 1;.end; | \
# begin fill;fill x 0;fill z 0;# end 6;# begin simplify 1 0;narrow x 1 0;default 0;end;narrow z 1 0;line b 1 x 1 -> 1;\
default 0;end;# end 2;# done 6 2;
";

#[test]
fn tables_are_made_tight(rt: HostRuntime) -> Result<(), Fail> {
    all_end(&rt, rt.alloc(), Form::Run, SIMPLIFIED)?;
    all_end_with(&rt, rt.alloc(), "--free", Form::Run, SIMPLIFIED_FREELY)
}

/// A network, a certificate that narrows a net, and the line and the cause for which it is refused.
const REFUSED: &str = "\
.model w;.inputs a b;.outputs z;.table a b -> x;0 0 0;0 1 0;1 0 0;1 1 1;.table a x -> z;.default 0;1 1 1;.end; | \
# begin simplify 1 0;narrow x 1 0;line b 0 -> 0;line b 1 -> 0;end;# end 4;# done 10 4; | 2 Outside
.model u;.inputs;.outputs z;.table -> c;-;.table c -> d;0 0;.table c -> z;- =c;.end; | narrow c 1 0;line -> 0;end; | 1 Partial
.model n;.inputs a;.outputs z;.mv a 241;.mv z 17;.table a -> z;.default 0;1 1;.end; | \
narrow z 0 0;line a 1 -> 1;default 0;end; | 1 Window
";

#[test]
fn a_narrowing_is_refused_with_line_and_cause(rt: HostRuntime) -> Result<(), Fail> {
    all_end(&rt, rt.alloc(), Form::Certificate, REFUSED)
}
