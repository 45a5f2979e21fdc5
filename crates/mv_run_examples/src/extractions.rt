//! What `kernel` and `cube` take out of networks, and what they note.
use crate::cases::{Form, all_end};
use std::test::Fail;

/// A script, a network file, what is written, and what the notes say.
const EXTRACTIONS: &str = "\
-- A kernel of three cubes comes as a net.
kernel | \
.model f;.inputs a b c d;.outputs f;.table a b c d -> f;.default 0;1 1 - - 1;1 - 1 - 1;1 - - 1 1;.end; | \
.model f;.inputs a b c d;.outputs f;.table a _m1 -> f;.default 0;1 1 1;.table b c d -> _m1;.default 0;1 - - 1;- 1 - 1;- - 1 1;.end; | \
# begin kernel;add _m1;line b 1 -> 1;line c 1 -> 1;line d 1 -> 1;default 0;end;divide f _m1;line a 1 _m1 1 -> 1;default 0;end;\
# end 5;# done 6 5;
-- One of two cubes would save nothing.
kernel | \
.model f;.inputs a b c d;.outputs f;.table a b c -> f;.default 0;1 1 - 1;1 - 1 1;.end; | \
.model f;.inputs a b c d;.outputs f;.table a b c -> f;.default 0;1 1 - 1;1 - 1 1;.end; | \
# begin kernel;# end 4;# done 4 4;
-- A total table without a default stays total.
kernel | \
.model t;.inputs a b c d;.outputs f;.table a b c d -> f;1 1 - - 1;1 - 1 - 1;1 - - 1 1;0 - - - 0;1 0 0 0 0;.end; | \
.model t;.inputs a b c d;.outputs f;.table a b c d _m1 -> f;.default 0;0 - - - - 0;1 0 0 0 - 0;1 - - - 1 1;\
.table b c d -> _m1;.default 0;1 - - 1;- 1 - 1;- - 1 1;.end; | \
# begin kernel;add _m1;line b 1 -> 1;line c 1 -> 1;line d 1 -> 1;default 0;end;\
divide f _m1;line a 0 -> 0;line a 1 b 0 c 0 d 0 -> 0;line a 1 _m1 1 -> 1;end;# end 10;# done 11 10;
-- A divisor that is the whole of one cover, and that another table has with another output.
kernel | \
.model w;.inputs a b c;.outputs z y;.mv y 3;.table a b -> z;.default 0;1 - 1;- 1 1;.table a b c -> y;.default 0;1 - 1 2;- 1 1 2;.end; | \
.model w;.inputs a b c;.outputs z y;.mv y 3;.table _m1 -> z;.default 0;1 1;.table c _m1 -> y;.default 0;1 1 2;\
.table a b -> _m1;.default 0;1 - 1;- 1 1;.end; | \
# begin kernel;add _m1;line a 1 -> 1;line b 1 -> 1;default 0;end;divide z _m1;line _m1 1 -> 1;default 0;end;\
divide y _m1;line c 1 _m1 1 -> 2;default 0;end;# end 5;# done 6 5;
-- Of two kernels that save as much the least comes first, whichever table it is of.
kernel | \
.model o;.inputs a b c d e;.outputs g f;.table a c d e -> g;.default 0;1 1 - - 1;1 - 1 - 1;1 - - 1 1;\
.table a b c d -> f;.default 0;1 1 - - 1;1 - 1 - 1;1 - - 1 1;.end; | \
.model o;.inputs a b c d e;.outputs g f;.table a _m2 -> g;.default 0;1 1 1;.table a _m1 -> f;.default 0;1 1 1;\
.table b c d -> _m1;.default 0;1 - - 1;- 1 - 1;- - 1 1;.table c d e -> _m2;.default 0;1 - - 1;- 1 - 1;- - 1 1;.end; | \
# begin kernel;add _m1;line b 1 -> 1;line c 1 -> 1;line d 1 -> 1;default 0;end;divide f _m1;line a 1 _m1 1 -> 1;default 0;end;\
add _m2;line c 1 -> 1;line d 1 -> 1;line e 1 -> 1;default 0;end;divide g _m2;line a 1 _m2 1 -> 1;default 0;end;# end 10;# done 12 10;
-- Of a cover's three kernels two save as much; the one of single symbols comes first, and the third is then none that saves.
kernel | \
.model k;.inputs a b c d e g;.outputs f;.table a b c d e g -> f;.default 0;\
1 - 1 - 1 - 1;- 1 1 - 1 - 1;- - - 1 1 - 1;- - - - - 1 1;.end; | \
.model k;.inputs a b c d e g;.outputs f;.table c d e g _m1 -> f;.default 0;- 1 1 - - 1;- - - 1 - 1;1 - 1 - 1 1;\
.table a b -> _m1;.default 0;1 - 1;- 1 1;.end; | \
# begin kernel;add _m1;line a 1 -> 1;line b 1 -> 1;default 0;end;\
divide f _m1;line d 1 e 1 -> 1;line g 1 -> 1;line c 1 e 1 _m1 1 -> 1;default 0;end;# end 8;# done 9 8;
-- A reset table gives a kernel, and is divided.
kernel | \
.model r;.inputs a b c d;.outputs s;.latch a s;.reset a b c d -> s;.default 0;1 1 - - 1;1 - 1 - 1;1 - - 1 1;.end; | \
.model r;.inputs a b c d;.outputs s;.latch a s;.reset a _m1 -> s;.default 0;1 1 1;\
.table b c d -> _m1;.default 0;1 - - 1;- 1 - 1;- - 1 1;.end; | \
# begin kernel;add _m1;line b 1 -> 1;line c 1 -> 1;line d 1 -> 1;default 0;end;divide .s _m1;line a 1 _m1 1 -> 1;default 0;end;\
# end 5;# done 6 5;
-- A cube that three rows have in common.
cube | \
.model q;.inputs a b c d e;.outputs z;.table a b c d e -> z;.default 0;1 1 1 - - 1;1 1 - 1 - 1;1 1 - - 1 1;.end; | \
.model q;.inputs a b c d e;.outputs z;.table c d e _m1 -> z;.default 0;1 - - 1 1;- 1 - 1 1;- - 1 1 1;\
.table a b -> _m1;.default 0;1 1 1;.end; | \
# begin cube;add _m1;line a 1 b 1 -> 1;default 0;end;divide z _m1;line c 1 _m1 1 -> 1;line d 1 _m1 1 -> 1;line e 1 _m1 1 -> 1;default 0;end;\
# end 8;# done 9 8;
-- One that two have would save nothing.
cube | \
.model q;.inputs a b c d e;.outputs z;.table a b c d -> z;.default 0;1 1 1 - 1;1 1 - 1 1;.end; | \
.model q;.inputs a b c d e;.outputs z;.table a b c d -> z;.default 0;1 1 1 - 1;1 1 - 1 1;.end; | \
# begin cube;# end 6;# done 6 6;
-- No two rows have just c and d in common, until rows that have a, b, c and d are divided by a and b.
cube | \
.model n;.inputs a b c d p q r s t u v;.outputs z;.table a b c d p q r s t u v -> z;.default 0;\
1 1 1 1 1 - - - - - - 1;1 1 1 1 - 1 - - - - - 1;1 - 1 1 - - 1 - - - - 1;1 1 - - - - - 1 - - - 1;\
1 1 - - - - - - 1 - - 1;1 1 - - - - - - - 1 - 1;1 1 - - - - - - - - 1 1;.end; | \
.model n;.inputs a b c d p q r s t u v;.outputs z;.table a p q r s t u v _m1 _m2 -> z;.default 0;\
- - - - 1 - - - 1 - 1;- - - - - 1 - - 1 - 1;- - - - - - 1 - 1 - 1;- - - - - - - 1 1 - 1;\
1 - - 1 - - - - - 1 1;- 1 - - - - - - 1 1 1;- - 1 - - - - - 1 1 1;\
.table a b -> _m1;.default 0;1 1 1;.table c d -> _m2;.default 0;1 1 1;.end; | \
# begin cube;add _m1;line a 1 b 1 -> 1;default 0;end;divide z _m1;line a 1 c 1 d 1 r 1 -> 1;line c 1 d 1 p 1 _m1 1 -> 1;\
line c 1 d 1 q 1 _m1 1 -> 1;line s 1 _m1 1 -> 1;line t 1 _m1 1 -> 1;line u 1 _m1 1 -> 1;line v 1 _m1 1 -> 1;default 0;end;\
add _m2;line c 1 d 1 -> 1;default 0;end;divide z _m2;line s 1 _m1 1 -> 1;line t 1 _m1 1 -> 1;line u 1 _m1 1 -> 1;\
line v 1 _m1 1 -> 1;line a 1 r 1 _m2 1 -> 1;line p 1 _m1 1 _m2 1 -> 1;line q 1 _m1 1 _m2 1 -> 1;default 0;end;# end 21;# done 26 21;
-- Of two cubes that save as much that with the set of less comes first, as a number: 70 alone before 0 and 70.
cube | \
.model s;.inputs a b c d e f g h;.outputs z;.mv a 71;.table a b c d e f g h -> z;.default 0;\
(0,70) 1 1 - - - - - 1;(0,70) 1 - 1 - - - - 1;(0,70) 1 - - 1 - - - 1;70 1 - - - 1 - - 1;70 1 - - - - 1 - 1;70 1 - - - - - 1 1;.end; | \
.model s;.inputs a b c d e f g h;.outputs z;.mv a 71;.table c d e f g h _m1 _m2 -> z;.default 0;\
- - - 1 - - 1 - 1;- - - - 1 - 1 - 1;- - - - - 1 1 - 1;1 - - - - - - 1 1;- 1 - - - - - 1 1;- - 1 - - - - 1 1;\
.table a b -> _m1;.default 0;70 1 1;.table a b -> _m2;.default 0;(0,70) 1 1;.end; | \
# begin cube;add _m1;line a 70 b 1 -> 1;default 0;end;divide z _m1;line a (0,70) b 1 c 1 -> 1;line a (0,70) b 1 d 1 -> 1;\
line a (0,70) b 1 e 1 -> 1;line f 1 _m1 1 -> 1;line g 1 _m1 1 -> 1;line h 1 _m1 1 -> 1;default 0;end;\
add _m2;line a (0,70) b 1 -> 1;default 0;end;divide z _m2;line f 1 _m1 1 -> 1;line g 1 _m1 1 -> 1;line h 1 _m1 1 -> 1;\
line c 1 _m2 1 -> 1;line d 1 _m2 1 -> 1;line e 1 _m2 1 -> 1;default 0;end;# end 16;# done 18 16;
-- And 2 before 64.
cube | \
.model s;.inputs a b c d e f g h;.outputs z;.mv a 65;.table a b c d e f g h -> z;.default 0;\
64 1 1 - - - - - 1;64 1 - 1 - - - - 1;64 1 - - 1 - - - 1;2 1 - - - 1 - - 1;2 1 - - - - 1 - 1;2 1 - - - - - 1 1;.end; | \
.model s;.inputs a b c d e f g h;.outputs z;.mv a 65;.table c d e f g h _m1 _m2 -> z;.default 0;\
- - - 1 - - 1 - 1;- - - - 1 - 1 - 1;- - - - - 1 1 - 1;1 - - - - - - 1 1;- 1 - - - - - 1 1;- - 1 - - - - 1 1;\
.table a b -> _m1;.default 0;2 1 1;.table a b -> _m2;.default 0;64 1 1;.end; | \
# begin cube;add _m1;line a 2 b 1 -> 1;default 0;end;divide z _m1;line a 64 b 1 c 1 -> 1;line a 64 b 1 d 1 -> 1;\
line a 64 b 1 e 1 -> 1;line f 1 _m1 1 -> 1;line g 1 _m1 1 -> 1;line h 1 _m1 1 -> 1;default 0;end;\
add _m2;line a 64 b 1 -> 1;default 0;end;divide z _m2;line f 1 _m1 1 -> 1;line g 1 _m1 1 -> 1;line h 1 _m1 1 -> 1;\
line c 1 _m2 1 -> 1;line d 1 _m2 1 -> 1;line e 1 _m2 1 -> 1;default 0;end;# end 16;# done 18 16;
";

#[test]
fn common_divisors_are_taken_out(rt: HostRuntime) -> Result<(), Fail> {
    all_end(&rt, rt.alloc(), Form::Run, EXTRACTIONS)
}
