//! Runs of `encode`, and checks of what it notes.
use crate::cases::{Form, all_end};
use std::test::Fail;

/// A network, what `encode` leaves of it and what is noted, which is a certificate. Worked out by a second program.
const ENCODED: &str = "\
-- Three values have codes of two bits. The code that no value has counts as the greatest.
.model e;.inputs a b;.outputs z;.mv n 3;.table a b -> n;0 - 0;1 0 1;1 1 2;.table n -> z;0 0;(1,2) 1;.end; | \
.model e;.inputs a b;.outputs z;.table _m1 _m2 -> z;0 0 0;0 1 1;1 - 1;.table a b -> _m1;0 - 0;1 0 0;1 1 1;.table a b -> _m2;0 - 0;1 0 1;1 1 0;.end; | \
# begin encode;encode n 2 _m1 _m2 00 01 10;# end 15;# done 7 15;
-- Of a set of them two cubes come.
.model e;.inputs a;.outputs z y;.mv a, n 3;.table a -> n;- =a;.table n -> z;.default 0;(0,2) 1;.table n -> y;.default 0;(1,2) 1;.end; | \
.model e;.inputs a;.outputs z y;.mv a 3;.table _m1 _m2 -> z;.default 0;0 0 1;1 - 1;.table _m1 _m2 -> y;.default 0;0 1 1;1 - 1;.table a -> _m1;0 0;1 0;\
2 1;.table a -> _m2;0 0;1 1;2 0;.end; | \
# begin encode;encode n 2 _m1 _m2 00 01 10;# end 12;# done 5 12;
-- Of four values no code is left over, and a bit that a set doesn't ask for is left out.
.model e;.inputs a;.outputs z y x;.mv a, n 4;.table a -> n;- =a;.table n -> z;.default 0;(0,2) 1;.table n -> y;.default 0;(1,2) 1;.table n -> x;\
.default 0;(2,3) 1;.end; | \
.model e;.inputs a;.outputs z y x;.mv a 4;.table _m2 -> z;.default 0;0 1;.table _m1 _m2 -> y;.default 0;0 1 1;1 0 1;.table _m1 -> x;.default 0;1 1;\
.table a -> _m1;0 0;1 0;2 1;3 1;.table a -> _m2;0 0;1 1;2 0;3 1;.end; | \
# begin encode;encode n 2 _m1 _m2 00 01 10 11;# end 14;# done 7 14;
-- Of five values three codes are left over, and three bits are needed.
.model e;.inputs a;.outputs z y x;.mv a, n 5;.table a -> n;- =a;.table n -> z;.default 0;4 1;.table n -> y;.default 0;(0,4) 1;.table n -> x;\
.default 0;(1,3) 1;.end; | \
.model e;.inputs a;.outputs z y x;.mv a 5;.table _m1 -> z;.default 0;1 1;.table _m1 _m2 _m3 -> y;.default 0;0 0 0 1;1 - - 1;.table _m1 _m3 -> x;\
.default 0;0 1 1;.table a -> _m1;0 0;1 0;2 0;3 0;4 1;.table a -> _m2;0 0;1 0;2 1;3 1;4 0;.table a -> _m3;0 0;1 1;2 0;3 1;4 0;.end; | \
# begin encode;encode n 3 _m1 _m2 _m3 000 001 010 011 100;# end 22;# done 8 22;
-- Rows that overlap with one value stay as they are.
.model e;.inputs a b;.outputs z;.mv n 3;.table a b -> n;1 - 2;- 1 2;0 0 0;.table n -> z;.default 0;2 1;.end; | \
.model e;.inputs a b;.outputs z;.table _m1 -> z;.default 0;1 1;.table a b -> _m1;1 - 1;- 1 1;0 0 0;.table a b -> _m2;1 - 0;- 1 0;0 0 0;.end; | \
# begin encode;encode n 2 _m1 _m2 00 01 10;# end 9;# done 5 9;
-- What is seen stays, also the input and the output of a latch; its tables read bits.
.model e;.inputs a;.outputs p;.mv a, n, d, s, p 3;.latch d s;.table a s -> n;0 - 0;1 - 1;2 !0 2;2 0 1;.table n -> d;- =n;.table n s -> p;0 - 0;!0 0 1;\
!0 !0 2;.reset -> s;1;.end; | \
.model e;.inputs a;.outputs p;.mv a 3;.mv s 3;.mv d 3;.mv p 3;.latch d s;.table _m1 _m2 -> d;0 0 0;0 1 1;1 - 2;.table s _m1 _m2 -> p;- 0 0 0;0 0 1 1;\
0 1 - 1;(1,2) 0 1 2;(1,2) 1 - 2;.reset -> s;1;.table a s -> _m1;0 - 0;1 - 0;2 (1,2) 1;2 0 0;.table a s -> _m2;0 - 0;1 - 1;2 (1,2) 0;2 0 1;.end; | \
# begin encode;encode n 2 _m1 _m2 00 01 10;# end 29;# done 14 29;
-- A reset table is a reader.
.model e;.inputs a;.outputs;.mv a, n, d, s 3;.latch d s;.table a -> n;0 1;1 2;2 0;.table n -> d;.default 2;(0,1) 0;.reset n -> s;0 2;(1,2) 0;.end; | \
.model e;.inputs a;.outputs;.mv a 3;.mv s 3;.mv d 3;.latch d s;.table _m1 -> d;.default 2;0 0;.reset _m1 _m2 -> s;0 0 2;0 1 0;1 - 0;.table a -> _m1;\
0 0;1 1;2 0;.table a -> _m2;0 1;1 0;2 0;.end; | \
# begin encode;encode n 2 _m1 _m2 00 01 10;# end 12;# done 6 12;
-- Two nets, of which one reads the other: the names go on.
.model e;.inputs a;.outputs z;.mv a, m, n 3;.table a -> m;0 2;1 0;2 1;.table m a -> n;.default 1;0 - 2;(1,2) 0 0;.table m n -> z;.default 0;2 (0,2) 1;\
.end; | \
.model e;.inputs a;.outputs z;.mv a 3;.table _m1 _m3 _m4 -> z;.default 0;1 0 0 1;1 1 - 1;.table a -> _m1;0 1;1 0;2 0;.table a -> _m2;0 0;1 0;2 1;\
.table a _m1 _m2 -> _m3;.default 0;- 0 0 1;0 0 1 0;0 1 - 0;.table a _m1 _m2 -> _m4;.default 1;- 0 0 0;0 0 1 0;0 1 - 0;.end; | \
# begin encode;encode m 2 _m1 _m2 00 01 10;encode n 2 _m3 _m4 00 01 10;# end 25;# done 8 25;
-- A name is free again behind the net that had it.
.model e;.inputs a;.outputs z;.mv a, _m1, n 3;.table a -> _m1;- =a;.table _m1 -> n;0 2;(1,2) 0;.table n -> z;.default 0;2 1;.end; | \
.model e;.inputs a;.outputs z;.mv a 3;.table _m1 -> z;.default 0;1 1;.table a -> _m2;0 0;1 0;2 1;.table a -> _m3;0 0;1 1;2 0;.table _m2 _m3 -> _m1;\
0 0 1;0 1 0;1 - 0;.table _m2 _m3 -> _m4;0 0 0;0 1 0;1 - 0;.end; | \
# begin encode;encode _m1 2 _m2 _m3 00 01 10;encode n 2 _m1 _m4 00 01 10;# end 17;# done 6 17;
-- The nets that come of a table of two outputs.
.model e;.inputs a;.outputs z;.mv a, p, q 3;.table a -> p q;0 0 0;1 1 0;2 2 2;.table p q -> z;.default 0;1 0 1;2 2 1;.end; | \
.model e;.inputs a;.outputs z;.mv a 3;.table _m1 _m4 _m5 _m6 -> z;.default 0;0 1 0 0 1;1 - 1 - 1;.table a -> _m2;0 0;1 0;2 1;.table a -> _m3;0 0;1 1;\
2 0;.table _m2 _m3 -> _m1;0 0 0;0 1 0;1 - 1;.table _m2 _m3 -> _m4;0 0 0;0 1 1;1 - 0;.table _m2 _m3 -> _m5;0 0 0;0 1 0;1 - 1;.table _m2 _m3 -> _m6;\
0 0 0;0 1 0;1 - 0;.end; | \
# begin encode;encode _m1 2 _m2 _m3 00 01 10;encode p 2 _m1 _m4 00 01 10;encode q 2 _m5 _m6 00 01 10;# end 32;# done 13 32;
-- A table that allows nothing.
.model e;.inputs a;.outputs z;.mv n 3;.table a -> n;.table n -> z;.default 0;2 1;.end; | \
.model e;.inputs a;.outputs z;.table _m1 -> z;.default 0;1 1;.table -> _m1;.table -> _m2;.end; | \
# begin encode;encode n 2 _m1 _m2 00 01 10;# end 1;# done 1 1;
-- Values that are never given, and a code that no value has in a set that has the greatest.
.model e;.inputs a;.outputs z;.mv n 6;.table a -> n;0 1;1 3;.table n -> z;.default 1;(0,5) 0;.end; | \
.model e;.inputs a;.outputs z;.table _m1 _m2 _m3 -> z;.default 1;0 0 0 0;1 0 1 0;1 1 - 0;.table a -> _m1;0 0;1 0;.table a -> _m2;0 0;1 1;\
.table a -> _m3;0 1;1 1;.end; | \
# begin encode;encode n 3 _m1 _m2 _m3 000 001 010 011 100 101;# end 14;# done 3 14;
-- A reader's rows are absorbed, also those without the net.
.model e;.inputs a b;.outputs z;.mv a, n 3;.table a -> n;- =a;.table b n -> z;1 - (0,1);1 1 0;0 (1,2) 1;0 2 1;0 0 0;.end; | \
.model e;.inputs a b;.outputs z;.mv a 3;.table b _m1 _m2 -> z;1 - - -;0 0 1 1;0 1 - 1;0 0 0 0;.table a -> _m1;0 0;1 0;2 1;.table a -> _m2;0 0;1 1;2 0;\
.end; | \
# begin encode;encode n 2 _m1 _m2 00 01 10;# end 15;# done 12 15;
-- A reader of 4,096 rows, eight for each of 512, is no row too long.
~.model e;.inputs a x;.outputs z;.mv n 16;.mv x 1024;.table a -> n;.default 0;1 15;.table x n -> z;.default 0;~512*@ (1,2,4,7,8,11,13,14) 1;~.end; | \
~.model e;.inputs a x;.outputs z;.mv x 1024;.table x _m1 _m2 _m3 _m4 -> z;.default 0;~512*@ 0 0 0 1 1;@ 0 0 1 0 1;@ 0 1 0 0 1;@ 0 1 1 1 1;\
@ 1 0 0 0 1;@ 1 0 1 1 1;@ 1 1 0 1 1;@ 1 1 1 0 1;~.table a -> _m1;.default 0;1 1;.table a -> _m2;.default 0;1 1;.table a -> _m3;.default 0;1 1;\
.table a -> _m4;.default 0;1 1;.end; | \
# begin encode;encode n 4 _m1 _m2 _m3 _m4 0000 0001 0010 0011 0100 0101 0110 0111 1000 1001 1010 1011 1100 1101 1110 1111;# end 20484;# done 1025 20484;
-- Codes of ten bits, of which none is left over.
.model e;.inputs a b;.outputs z y;.mv n 1024;.table a b -> n;.default 0;1 0 1022;1 1 1023;.table n -> z;.default 0;1023 1;.table n -> y;.default 0;\
(1022,1023) 1;.end; | \
.model e;.inputs a b;.outputs z y;.table _m1 _m2 _m3 _m4 _m5 _m6 _m7 _m8 _m9 _m10 -> z;.default 0;1 1 1 1 1 1 1 1 1 1 1;\
.table _m1 _m2 _m3 _m4 _m5 _m6 _m7 _m8 _m9 -> y;.default 0;1 1 1 1 1 1 1 1 1 1;.table a b -> _m1;.default 0;1 0 1;1 1 1;.table a b -> _m2;.default 0;\
1 0 1;1 1 1;.table a b -> _m3;.default 0;1 0 1;1 1 1;.table a b -> _m4;.default 0;1 0 1;1 1 1;.table a b -> _m5;.default 0;1 0 1;1 1 1;\
.table a b -> _m6;.default 0;1 0 1;1 1 1;.table a b -> _m7;.default 0;1 0 1;1 1 1;.table a b -> _m8;.default 0;1 0 1;1 1 1;.table a b -> _m9;\
.default 0;1 0 1;1 1 1;.table a b -> _m10;.default 0;1 0 0;1 1 1;.end; | \
~# begin encode;encode n 10 _m1 _m2 _m3 _m4 _m5 _m6 _m7 _m8 _m9 _m10~1024* ^~;# end 59;# done 6 59;
-- And one is.
.model e;.inputs a b;.outputs z y;.mv n 1023;.table a b -> n;.default 0;1 0 1021;1 1 1022;.table n -> z;.default 0;1022 1;.table n -> y;.default 0;\
1021 1;.end; | \
.model e;.inputs a b;.outputs z y;.table _m1 _m2 _m3 _m4 _m5 _m6 _m7 _m8 _m9 -> z;.default 0;1 1 1 1 1 1 1 1 1 1;\
.table _m1 _m2 _m3 _m4 _m5 _m6 _m7 _m8 _m9 _m10 -> y;.default 0;1 1 1 1 1 1 1 1 0 1 1;.table a b -> _m1;.default 0;1 0 1;1 1 1;.table a b -> _m2;\
.default 0;1 0 1;1 1 1;.table a b -> _m3;.default 0;1 0 1;1 1 1;.table a b -> _m4;.default 0;1 0 1;1 1 1;.table a b -> _m5;.default 0;1 0 1;1 1 1;\
.table a b -> _m6;.default 0;1 0 1;1 1 1;.table a b -> _m7;.default 0;1 0 1;1 1 1;.table a b -> _m8;.default 0;1 0 1;1 1 1;.table a b -> _m9;\
.default 0;1 0 0;1 1 1;.table a b -> _m10;.default 0;1 0 1;1 1 0;.end; | \
~# begin encode;encode n 10 _m1 _m2 _m3 _m4 _m5 _m6 _m7 _m8 _m9 _m10~1023* ^~;# end 59;# done 6 59;
";

/// Networks that stay, and what is noted of them.
const NOTED: &str = "\
-- A table that allows two values at a point.
.model e;.inputs a;.outputs z;.mv n 3;.table a -> n;0 (0,1);1 2;.table n -> z;.default 0;2 1;.end; | \
# begin encode;# note varied n;# end 3;# done 3 3;
-- Rows that overlap with two.
.model e;.inputs a b;.outputs z;.mv n 3;.table a b -> n;1 - 1;- 1 2;0 0 0;.table n -> z;.default 0;2 1;.end; | \
# begin encode;# note varied n;# end 5;# done 5 5;
-- A default of two.
.model e;.inputs a;.outputs z;.mv n 3;.table a -> n;.default (1,2);0 0;.table n -> z;.default 0;2 1;.end; | \
# begin encode;# note varied n;# end 2;# done 2 2;
-- A reader of 4,104 rows would be too long.
~.model e;.inputs a x;.outputs z;.mv x 1024;.mv n 16;.table a -> n;.default 0;1 15;.table x n -> z;.default 0;~513*@ (1,2,4,7,8,11,13,14) 1;~.end; | \
# begin encode;# note lines n;# end 1027;# done 1027 1027;
-- A reader of 250 nets that would get ten bits for one of them is too wide.
~.model e;.inputs~249* i@~;.outputs z;.mv n 1024;.table i0 -> n;.default 0;1 1023;.table~249* i@~ n -> z;.default 0;~249*1 ~1023 1;.end; | \
# begin encode;# note lines n;# end 251;# done 251 251;
-- Inputs, outputs and latches of many values stay, and nothing is noted of them.
.model e;.inputs a;.outputs z;.mv a 4;.mv s 4;.mv d 4;.mv z 4;.latch d s;.table a -> d;0 0;1 1;2 2;3 3;.table s -> z;0 0;1 1;2 2;3 3;.end; | \
# begin encode;# end 8;# done 8 8;
";

/// A net of 1,024 values with a row for each, and what is noted, which is a certificate.
const LARGE: &str = "\
~.model e;.inputs a;.outputs z;.mv a, n 1024;.table a -> n;~1024*@ @;~.table n -> z;.default 0;1023 1;.end; | \
~# begin encode;encode n 10 _m1 _m2 _m3 _m4 _m5 _m6 _m7 _m8 _m9 _m10~1024* ^~;# end 10250;# done 1025 10250;
";

#[test]
fn bits_take_the_place_of_values(rt: HostRuntime) -> Result<(), Fail> {
    all_end(&rt, rt.alloc(), Form::Written(b"encode"), ENCODED)
}

#[test]
fn nets_without_codes_are_noted(rt: HostRuntime) -> Result<(), Fail> {
    all_end(&rt, rt.alloc(), Form::Kept(b"encode"), NOTED)
}

#[test]
fn a_net_of_the_most_values_is_encoded(rt: HostRuntime) -> Result<(), Fail> {
    all_end(&rt, rt.alloc(), Form::Noted(b"encode"), LARGE)
}
