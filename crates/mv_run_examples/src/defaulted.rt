//! Runs of `default`, and checks of what it notes.
use crate::cases::{Form, all_end};
use std::test::Fail;

/// A script, a network, what is written of it and what is noted, which is a certificate.
const DEFAULTED: &str = "\
-- Both values have a literal, and the default is the lesser. A table that has a default is let be.
default | \
.model w;.inputs a b;.outputs z;.table b -> x;0 0;1 1;.table a x -> z;.default 0;1 1 1;.end; | \
.model w;.inputs a b;.outputs z;.table b -> x;.default 0;1 1;.table a x -> z;.default 0;1 1 1;.end; | \
# begin default;narrow x 0 0;line b 1 -> 1;default 0;end;# end 3;# done 4 3;
-- The value whose rows have the most literals is the default, and not the one with the most rows.
default | \
.model m;.inputs a b;.outputs z;.mv a 3;.table a b -> z;0 - 0;2 - 0;1 0 1;1 1 1;.end; | \
.model m;.inputs a b;.outputs z;.mv a 3;.table a -> z;.default 1;0 0;2 0;.end; | \
# begin default;narrow z 0 0;line a 0 -> 0;line a 2 -> 0;default 1;end;# end 2;# done 6 2;
-- Of three values two have two literals each.
default | \
.model t;.inputs a b;.outputs z;.mv z 3;.table a b -> z;0 - 2;1 0 1;1 1 0;.end; | \
.model t;.inputs a b;.outputs z;.mv z 3;.table a b -> z;.default 0;0 - 2;1 0 1;.end; | \
# begin default;narrow z 0 0;line a 0 -> 2;line a 1 b 0 -> 1;default 0;end;# end 3;# done 5 3;
-- All rows give one value, and none is left.
default | \
.model o;.inputs a;.outputs z;.table a -> z;0 1;1 1;.end; | \
.model o;.inputs a;.outputs z;.table -> z;.default 1;.end; | \
# begin default;narrow z 0 0;default 1;end;# end 0;# done 2 0;
-- Where no row has a literal nothing comes.
default | \
.model c;.inputs;.outputs z;.table -> z;1;.end; | \
.model c;.inputs;.outputs z;.table -> z;1;.end; | \
# begin default;# end 0;# done 0 0;
-- The first of the reasons is noted: p varies and isn't total, q isn't total, r has no literal, s stands above q and in a window of
-- 8,192 points, as t does; u stands in one of 4,096.
default | \
.model n;.inputs a b c;.outputs p q t u;.mv s 1024;.mv t 1024;.mv u 1024;.table a -> p;0 0;0 1;.table r s -> q;0 0 0;.table -> r;1;\
.table a b c -> s;0 - - 0;1 0 - 0;1 1 0 0;1 1 1 1;.table a b c -> t;0 - - 0;1 0 - 0;1 1 0 0;1 1 1 1;\
.table a b -> u;0 - 0;1 0 0;1 1 1;.table a -> v;.default 0;1 1;.end; | \
.model n;.inputs a b c;.outputs p q t u;.mv s 1024;.mv t 1024;.mv u 1024;.table a -> p;0 0;0 1;.table r s -> q;0 0 0;.table -> r;1;\
.table a b c -> s;0 - - 0;1 0 - 0;1 1 0 0;1 1 1 1;.table a b c -> t;0 - - 0;1 0 - 0;1 1 0 0;1 1 1 1;\
.table a b -> u;.default 0;1 1 1;.table a -> v;.default 0;1 1;.end; | \
# begin default;# note varied p;# note partial q;# note partial s;# note window t;narrow u 0 0;line a 1 b 1 -> 1;default 0;end;\
# end 25;# done 28 25;
-- A second `default` finds nothing to do.
default default | \
.model d;.inputs a;.outputs z;.table a -> x;0 1;1 0;.table x -> z;0 1;1 0;.end; | \
.model d;.inputs a;.outputs z;.table a -> x;.default 0;0 1;.table x -> z;.default 0;0 1;.end; | \
# begin default;narrow x 0 0;line a 0 -> 1;default 0;end;narrow z 0 0;line x 0 -> 1;default 0;end;# end 2;\
# begin default;# end 2;# done 4 2;
";

#[test]
fn the_costliest_value_is_the_default(rt: HostRuntime) -> Result<(), Fail> {
    all_end(&rt, rt.alloc(), Form::Run, DEFAULTED)
}
