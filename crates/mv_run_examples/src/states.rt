//! What is written of networks with latches and reset tables, and what the commands make of them.
use crate::cases::{Form, all_end};
use std::test::Fail;

/// Networks with latches, what is written of them, and what is noted.
const WRITTEN: &str = "\
-- Latches stand before the tables, and a latch may have no reset table.
.model l;.inputs init d;.outputs s;.latch d s;.r init -> s;- =init;.latch s t;.end; | \
.model l;.inputs init d;.outputs s;.latch d s;.latch s t;.reset init -> s;0 0;1 1;.end; | \
# done 2 2;
-- The nets of tables and reset tables stand in the order of lines, those of latches before them.
.model m;.inputs a;.outputs z;.table s -> z;- =s;.r a -> s;0 1;.latch z s;.table a -> q;0 1;.end; | \
.model m;.inputs a;.outputs z;.latch z s;.table s -> z;0 0;1 1;.reset a -> s;0 1;.table a -> q;0 1;.end; | \
# done 4 4;
-- The default of a reset table that names a column needs a mark, which stands before the reset net.
.model m;.inputs i d;.outputs s;.latch d s;.reset i -> s;1 1;.default =i;.end; | \
.model m;.inputs i d;.outputs s;.latch d s;.table i -> _m1;.default 1;1 0;.reset i _m1 -> s;1 - 1;0 1 0;1 1 1;.end; | \
# done 6 6;
-- A reset value is one of its latch's values, by their names.
.model m;.inputs go d;.outputs s;.mv d, s 3 lo mid hi;.latch d s;.r go -> s;0 lo;1 (mid,hi);.end; | \
.model m;.inputs go d;.outputs s;.mv d 3 lo mid hi;.mv s 3 lo mid hi;.latch d s;.reset go -> s;0 lo;1 (mid,hi);.end; | \
# done 2 2;
-- The values of a latch's input may have other names than those of its output.
.model m;.inputs d;.outputs;.mv d 3 lo mid hi;.mv s 3;.latch d s;.r s;2;.def (0,1);.end; | \
.model m;.inputs d;.outputs;.mv d 3 lo mid hi;.mv s 3;.latch d s;.reset -> s;2;.end; | \
# done 0 0;
-- A latch may read an output, another latch or itself; a cycle through a latch is none.
.model m;.inputs i;.outputs d s;.latch d s;.latch s t;.latch u u;.table i s -> d;.default 0;1 1 1;.end; | \
.model m;.inputs i;.outputs d s;.latch d s;.latch s t;.latch u u;.table i s -> d;.default 0;1 1 1;.end; | \
# done 2 2;
-- A reset table may allow nothing, and a file's net may have the name of a made one.
.model m;.inputs _m1;.outputs;.latch _m1 s;.reset _m1 -> s;1 !-;.default 1;.latch s t;.reset -> t;.end; | \
.model m;.inputs _m1;.outputs;.latch _m1 s;.latch s t;.table _m1 -> _m2;.default 1;1 0;.reset _m2 -> s;1 1;.reset -> t;.end; | \
# done 2 2;
";

#[test]
fn latches_and_reset_tables_are_written(rt: HostRuntime) -> Result<(), Fail> {
    all_end(&rt, rt.alloc(), Form::Written(b""), WRITTEN)
}

/// Networks with latches, and what `sweep` leaves and notes of each.
const SWEPT: &str = "\
-- A latch sees its input and its reset value, which stay; what they read may go.
.model c;.inputs a;.outputs z;.table a -> p;0 0;1 1;.table p -> z;- =p;.latch z s;.r p -> s;- =p;.table s -> d;- =s;.end; | \
.model c;.inputs a;.outputs z;.latch z s;.table a -> z;0 0;1 1;.reset a -> s;0 0;1 1;.end; | \
# begin sweep;wire p;remove p;remove d;# end 4;# done 8 4;
.model c;.inputs a;.outputs;.table a -> d;0 0;1 1;.latch d s;.end; | \
.model c;.inputs a;.outputs;.latch d s;.table a -> d;0 0;1 1;.end; | \
# begin sweep;# end 2;# done 2 2;
";

#[test]
fn sweep_keeps_what_latches_see(rt: HostRuntime) -> Result<(), Fail> {
    all_end(&rt, rt.alloc(), Form::Written(b"sweep"), SWEPT)
}

/// A network with a reset table, a certificate that takes its reset net away, and why that is refused.
const SEEN: &str = ".model m;.inputs d;.outputs;.latch d s;.r s;0;.end; | remove .s; | 1 Visible";

#[test]
fn a_reset_net_is_seen(rt: HostRuntime) -> Result<(), Fail> {
    all_end(&rt, rt.alloc(), Form::Certificate, SEEN)
}
