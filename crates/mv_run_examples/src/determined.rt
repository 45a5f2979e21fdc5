//! Runs of `determinize`, and checks of what it notes.
use crate::cases::{Form, all_end};
use std::test::Fail;

/// A network, what `determinize` leaves of it and what is noted, which is a certificate.
const DETERMINED: &str = "\
-- Each row stands where none before it does, with its least value.
.model d;.inputs a b;.outputs z;.table a b -> z;1 - (0,1);- 1 1;0 0 0;.end; | \
.model d;.inputs a b;.outputs z;.table a b -> z;1 - 0;0 1 1;0 0 0;.end; | \
# begin determinize;narrow z 0 0;line a 1 -> 0;line a 0 b 1 -> 1;line a 0 b 0 -> 0;end;# end 5;# done 4 5;
-- A default of two values, a row that is cut and one of which nothing is left.
.model t;.inputs a b;.outputs z;.mv a 3;.mv z 3;.table a b -> z;.default (1,2);(0,1) 0 0;1 - 2;1 0 1;.end; | \
.model t;.inputs a b;.outputs z;.mv a 3;.mv z 3;.table a b -> z;.default 1;(0,1) 0 0;1 1 2;.end; | \
# begin determinize;narrow z 0 0;line a (0,1) b 0 -> 0;line a 1 b 1 -> 2;default 1;end;# end 4;# done 5 4;
-- A cube less another of two literals is two cubes, the second with the other's values at the first net.
.model q;.inputs a b;.outputs z;.mv a 3;.mv b 3;.table a b -> z;(0,1) (1,2) 1;- - 0;.end; | \
.model q;.inputs a b;.outputs z;.mv a 3;.mv b 3;.table a b -> z;(0,1) (1,2) 1;2 - 0;(0,1) 0 0;.end; | \
# begin determinize;narrow z 0 0;line a (0,1) b (1,2) -> 1;line a 2 -> 0;line a (0,1) b 0 -> 0;end;# end 5;# done 2 5;
-- Rows that overlap and give the same are plainly deterministic. A choice that a table makes by itself becomes its least value.
.model s;.inputs a b;.outputs z;.table a b -> z;.default 0;1 - 1;- 1 1;.table -> c;-;.table a c -> y;0 - 0;1 0 0;1 1 1;.end; | \
.model s;.inputs a b;.outputs z;.table a b -> z;.default 0;1 - 1;- 1 1;.table -> c;0;.table a c -> y;0 - 0;1 0 0;1 1 1;.end; | \
# begin determinize;narrow c 0 0;line -> 0;end;# end 7;# done 7 7;
-- The tables below a table have to be total, and its own need not be.
.model p;.inputs a;.outputs z;.table a -> y;0 -;1 1;.table y -> w;0 0;.table a -> v;0 -;.table a -> z;0 -;1 0;.end; | \
.model p;.inputs a;.outputs z;.table a -> y;0 -;1 1;.table y -> w;0 0;.table a -> v;0 0;.table a -> z;0 0;1 0;.end; | \
# begin determinize;# note partial y;narrow v 0 0;line a 0 -> 0;end;narrow z 0 0;line a 0 -> 0;line a 1 -> 0;end;# end 6;# done 6 6;
";

/// Networks that stay, and what is noted of them.
const NOTED: &str = "\
-- Thirteen rows of two literals leave of the last one 8,192 cubes, which are too many.
.model w;.inputs a0 a1 a2 a3 a4 a5 a6 a7 a8 a9 a10 a11 a12 b0 b1 b2 b3 b4 b5 b6 b7 b8 b9 b10 b11 b12;.outputs z;\
.table a0 a1 a2 a3 a4 a5 a6 a7 a8 a9 a10 a11 a12 b0 b1 b2 b3 b4 b5 b6 b7 b8 b9 b10 b11 b12 -> z;\
1 - - - - - - - - - - - - 1 - - - - - - - - - - - - 1;- 1 - - - - - - - - - - - - 1 - - - - - - - - - - - 1;\
- - 1 - - - - - - - - - - - - 1 - - - - - - - - - - 1;- - - 1 - - - - - - - - - - - - 1 - - - - - - - - - 1;\
- - - - 1 - - - - - - - - - - - - 1 - - - - - - - - 1;- - - - - 1 - - - - - - - - - - - - 1 - - - - - - - 1;\
- - - - - - 1 - - - - - - - - - - - - 1 - - - - - - 1;- - - - - - - 1 - - - - - - - - - - - - 1 - - - - - 1;\
- - - - - - - - 1 - - - - - - - - - - - - 1 - - - - 1;- - - - - - - - - 1 - - - - - - - - - - - - 1 - - - 1;\
- - - - - - - - - - 1 - - - - - - - - - - - - 1 - - 1;- - - - - - - - - - - 1 - - - - - - - - - - - - 1 - 1;\
- - - - - - - - - - - - 1 - - - - - - - - - - - - 1 1;- - - - - - - - - - - - - - - - - - - - - - - - - - 0;.end; | \
# begin determinize;# note lines z;# end 26;# done 26 26;
-- Twelve leave 4,096 of each. Sixteen such rows are too many with the twelve, and fifteen aren't, but the window is too wide.
.model m;.inputs a0 a1 a2 a3 a4 a5 a6 a7 a8 a9 a10 a11 b0 b1 b2 b3 b4 b5 b6 b7 b8 b9 b10 b11 c;.outputs z;.mv c 32;\
.table a0 a1 a2 a3 a4 a5 a6 a7 a8 a9 a10 a11 b0 b1 b2 b3 b4 b5 b6 b7 b8 b9 b10 b11 c -> z;\
1 - - - - - - - - - - - 1 - - - - - - - - - - - - 1;- 1 - - - - - - - - - - - 1 - - - - - - - - - - - 1;\
- - 1 - - - - - - - - - - - 1 - - - - - - - - - - 1;- - - 1 - - - - - - - - - - - 1 - - - - - - - - - 1;\
- - - - 1 - - - - - - - - - - - 1 - - - - - - - - 1;- - - - - 1 - - - - - - - - - - - 1 - - - - - - - 1;\
- - - - - - 1 - - - - - - - - - - - 1 - - - - - - 1;- - - - - - - 1 - - - - - - - - - - - 1 - - - - - 1;\
- - - - - - - - 1 - - - - - - - - - - - 1 - - - - 1;- - - - - - - - - 1 - - - - - - - - - - - 1 - - - 1;\
- - - - - - - - - - 1 - - - - - - - - - - - 1 - - 1;- - - - - - - - - - - 1 - - - - - - - - - - - 1 - 1;\
- - - - - - - - - - - - - - - - - - - - - - - - 0 0;- - - - - - - - - - - - - - - - - - - - - - - - 1 0;\
- - - - - - - - - - - - - - - - - - - - - - - - 2 0;- - - - - - - - - - - - - - - - - - - - - - - - 3 0;\
- - - - - - - - - - - - - - - - - - - - - - - - 4 0;- - - - - - - - - - - - - - - - - - - - - - - - 5 0;\
- - - - - - - - - - - - - - - - - - - - - - - - 6 0;- - - - - - - - - - - - - - - - - - - - - - - - 7 0;\
- - - - - - - - - - - - - - - - - - - - - - - - 8 0;- - - - - - - - - - - - - - - - - - - - - - - - 9 0;\
- - - - - - - - - - - - - - - - - - - - - - - - 10 0;- - - - - - - - - - - - - - - - - - - - - - - - 11 0;\
- - - - - - - - - - - - - - - - - - - - - - - - 12 0;- - - - - - - - - - - - - - - - - - - - - - - - 13 0;\
- - - - - - - - - - - - - - - - - - - - - - - - 14 0;- - - - - - - - - - - - - - - - - - - - - - - - 15 0;.end; | \
# begin determinize;# note lines z;# end 40;# done 40 40;
.model m;.inputs a0 a1 a2 a3 a4 a5 a6 a7 a8 a9 a10 a11 b0 b1 b2 b3 b4 b5 b6 b7 b8 b9 b10 b11 c;.outputs z;.mv c 32;\
.table a0 a1 a2 a3 a4 a5 a6 a7 a8 a9 a10 a11 b0 b1 b2 b3 b4 b5 b6 b7 b8 b9 b10 b11 c -> z;\
1 - - - - - - - - - - - 1 - - - - - - - - - - - - 1;- 1 - - - - - - - - - - - 1 - - - - - - - - - - - 1;\
- - 1 - - - - - - - - - - - 1 - - - - - - - - - - 1;- - - 1 - - - - - - - - - - - 1 - - - - - - - - - 1;\
- - - - 1 - - - - - - - - - - - 1 - - - - - - - - 1;- - - - - 1 - - - - - - - - - - - 1 - - - - - - - 1;\
- - - - - - 1 - - - - - - - - - - - 1 - - - - - - 1;- - - - - - - 1 - - - - - - - - - - - 1 - - - - - 1;\
- - - - - - - - 1 - - - - - - - - - - - 1 - - - - 1;- - - - - - - - - 1 - - - - - - - - - - - 1 - - - 1;\
- - - - - - - - - - 1 - - - - - - - - - - - 1 - - 1;- - - - - - - - - - - 1 - - - - - - - - - - - 1 - 1;\
- - - - - - - - - - - - - - - - - - - - - - - - 0 0;- - - - - - - - - - - - - - - - - - - - - - - - 1 0;\
- - - - - - - - - - - - - - - - - - - - - - - - 2 0;- - - - - - - - - - - - - - - - - - - - - - - - 3 0;\
- - - - - - - - - - - - - - - - - - - - - - - - 4 0;- - - - - - - - - - - - - - - - - - - - - - - - 5 0;\
- - - - - - - - - - - - - - - - - - - - - - - - 6 0;- - - - - - - - - - - - - - - - - - - - - - - - 7 0;\
- - - - - - - - - - - - - - - - - - - - - - - - 8 0;- - - - - - - - - - - - - - - - - - - - - - - - 9 0;\
- - - - - - - - - - - - - - - - - - - - - - - - 10 0;- - - - - - - - - - - - - - - - - - - - - - - - 11 0;\
- - - - - - - - - - - - - - - - - - - - - - - - 12 0;- - - - - - - - - - - - - - - - - - - - - - - - 13 0;\
- - - - - - - - - - - - - - - - - - - - - - - - 14 0;.end; | \
# begin determinize;# note window z;# end 39;# done 39 39;
-- A window of 8,192 points.
.model n;.inputs a b c;.outputs z;.mv z 1024;.table a b c -> z;0 - - -;1 0 - 1;1 1 0 2;1 1 1 3;.end; | \
# begin determinize;# note window z;# end 9;# done 9 9;
";

#[test]
fn each_point_gets_one_value(rt: HostRuntime) -> Result<(), Fail> {
    all_end(&rt, rt.alloc(), Form::Written(b"determinize"), DETERMINED)?;
    all_end(&rt, rt.alloc(), Form::Kept(b"determinize"), NOTED)
}
