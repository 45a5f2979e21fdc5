//! Runs of `merge`, and checks of what it notes.
use crate::cases::{Form, all_end};
use std::test::Fail;

/// A network, what `merge` leaves of it and what is noted, which is a certificate.
const MERGED: &str = "\
-- Two values that no literal tells apart, of which the greater goes into the lesser.
.model e;.inputs a b;.outputs z;.mv n 3;.table a b -> n;0 - 0;1 0 1;1 1 2;.table n -> z;0 0;(1,2) 1;.end; | \
.model e;.inputs a b;.outputs z;.table a b -> n;0 - 0;1 0 1;1 1 1;.table n -> z;0 0;1 1;.end; | \
# begin merge;merge n 2 1;# end 7;# done 7 7;
-- Values that are never given, the least first; greater ones move down, and names of values go.
.model g;.inputs a b;.outputs z;.mv n 4 LOW MID ODD TOP;.table a -> n;0 LOW;1 TOP;.table n b -> z;(LOW,MID) - 0;TOP 0 1;(ODD,TOP) 1 0;.end; | \
.model g;.inputs a b;.outputs z;.table a -> n;0 0;1 1;.table b n -> z;- 0 0;0 1 1;1 1 0;.end; | \
# begin merge;merge n 1;merge n 1;# end 7;# done 7 7;
-- A literal that has all values goes, and with it the default; a row goes whose literal has none. Then nobody tells the others apart.
.model f;.inputs a;.outputs z;.mv n 3;.table a -> n;0 0;1 1;.table a n -> z;.default 0;- (0,1) 1;1 2 0;.end; | \
.model f;.inputs a;.outputs z;.mv n 1;.table a -> n;0 -;1 -;.table -> z;1;.end; | \
# begin merge;merge n 2;merge n 1 0;# end 2;# done 5 2;
-- Of two pairs the one with the lesser first value is merged first.
.model p;.inputs a b;.outputs z;.mv n 4;.table a b -> n;0 0 0;0 1 1;1 0 2;1 1 3;.table n -> z;.default 0;(0,3) 1;.end; | \
.model p;.inputs a b;.outputs z;.table a b -> n;0 0 0;0 1 1;1 0 1;1 1 0;.table n -> z;.default 0;0 1;.end; | \
# begin merge;merge n 3 0;merge n 2 1;# end 9;# done 9 9;
-- The merge of y leaves a row of its table in another one, and no literal on x is left.
.model k;.inputs a b;.outputs z;.mv y 3;.table a -> x;0 0;1 1;.table b x -> y;.default 0;1 1 2;1 - 1;.table y -> z;.default 0;(1,2) 1;.end; | \
.model k;.inputs a b;.outputs z;.mv x 1;.table a -> x;0 -;1 -;.table b -> y;.default 0;1 1;.table y -> z;.default 0;1 1;.end; | \
# begin merge;merge y 2 1;merge x 1 0;# end 4;# done 6 4;
-- Of 256 values all but the last one are merged, one by one.
~.model b;.inputs a;.outputs z;.mv a 256;.mv n 256;.table a -> n;~256*@ @;~.table n -> z;.default 0;255 1;.end; | \
~.model b;.inputs a;.outputs z;.mv a 256;.table a -> n;~255*@ 0;~255 1;.table n -> z;.default 0;1 1;.end; | \
~# begin merge;~254*merge n 1 0;~# end 257;# done 257 257;
-- A value of the default is given.
.model d;.inputs a;.outputs z;.mv n 3;.table a -> n;.default 2;0 0;.table n -> z;0 0;1 1;2 -;.end; | \
.model d;.inputs a;.outputs z;.table a -> n;.default 1;0 0;.table n -> z;0 0;1 -;.end; | \
# begin merge;merge n 1;# end 3;# done 4 3;
-- Outputs and inputs of latches are seen, and stay; so do inputs, and nets of one value.
.model s;.inputs a;.outputs z;.mv a 3;.mv n 3;.mv t 3;.mv z 3;.mv o 1;.table a -> n;0 0;1 1;2 1;.latch n t;.reset -> t;0;\
.table t -> z;(0,1) 0;2 1;.table -> o;-;.end; | \
.model s;.inputs a;.outputs z;.mv a 3;.mv t 3;.mv n 3;.mv z 3;.mv o 1;.latch n t;.table a -> n;0 0;1 1;2 1;.reset -> t;0;\
.table t -> z;(0,1) 0;2 1;.table -> o;-;.end; | \
# begin merge;# end 5;# done 5 5;
";

#[test]
fn values_that_nobody_tells_apart_are_merged(rt: HostRuntime) -> Result<(), Fail> {
    all_end(&rt, rt.alloc(), Form::Written(b"merge"), MERGED)
}
