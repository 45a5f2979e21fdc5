//! Tables of several outputs, as a choice net and a table on it for each output, and what is wrong with them.
use crate::cases::{Form, all_end};
use std::test::Fail;

/// Networks with tables of several outputs, and what is written of each.
const WRITTEN: &str = "\
-- Two rows: the choice net has a value for each, and no mixture of them is allowed.
.model j;.inputs;.outputs p q;.table -> p q;0 1;1 0;.end; | \
.model j;.inputs;.outputs p q;.table -> _m1;0;1;.table _m1 -> p;0 0;1 1;.table _m1 -> q;0 1;1 0;.end; | # done 4 4;
-- One row: the choice net has one value, and no output reads it.
.model j;.inputs;.outputs p q;.table -> p q;0 1;.end; | \
.model j;.inputs;.outputs p q;.mv _m1 1;.table -> _m1;-;.table -> p;0;.table -> q;1;.end; | # done 0 0;
-- No row and no default.
.model j;.inputs a;.outputs p q;.table a -> p q;.end; | \
.model j;.inputs a;.outputs p q;.mv _m1 1;.table -> _m1;.table -> p;.table -> q;.end; | # done 0 0;
-- Equal rows of outputs under different cubes are one value.
.model j;.inputs a;.outputs p q;.mv a 3;.table a -> p q;0 0 1;1 1 0;2 0 1;.end; | \
.model j;.inputs a;.outputs p q;.mv a 3;.table a -> _m1;0 0;1 1;2 0;.table _m1 -> p;0 0;1 1;.table _m1 -> q;0 1;1 0;.end; | # done 7 7;
-- The default's row is a value of its own, the last one.
.model j;.inputs a;.outputs p q;.table a -> p q;.default 1 1;0 0 1;.end; | \
.model j;.inputs a;.outputs p q;.table a -> _m1;.default 1;0 0;.table _m1 -> p;0 0;1 1;.table _m1 -> q;0 1;1 1;.end; | # done 5 5;
-- Unless a row has these outputs too.
.model j;.inputs a b;.outputs p q;.table a b -> p q;.default 0 1;1 - 1 0;0 0 0 1;.end; | \
.model j;.inputs a b;.outputs p q;.table a b -> _m1;.default 1;1 - 0;0 0 1;.table _m1 -> p;0 1;1 0;.table _m1 -> q;0 0;1 1;.end; | # done 7 7;
-- A row that names columns is one for each choice of their values, the first named column's slowest.
.model j;.inputs a b;.outputs p q;.table a b -> p q;- - =a =b;.end; | \
.model j;.inputs a b;.outputs p q;.mv _m1 4;.table a b -> _m1;0 0 0;0 1 1;1 0 2;1 1 3;\
.table _m1 -> p;0 0;1 0;2 1;3 1;.table _m1 -> q;0 0;1 1;2 0;3 1;.end; | # done 16 16;
-- Two outputs that name one column are split once.
.model j;.inputs a;.outputs p q;.table a -> p q;- =a =a;.end; | \
.model j;.inputs a;.outputs p q;.table a -> _m1;0 0;1 1;.table _m1 -> p;0 0;1 1;.table _m1 -> q;0 0;1 1;.end; | # done 6 6;
-- A default that names a column beside rows: a mark says where it is due.
.model j;.inputs a b;.outputs p q;.table a b -> p q;.default =b 1;1 - 0 0;.end; | \
.model j;.inputs a b;.outputs p q;.mv _m2 3;.table a -> _m1;.default 1;1 0;.table a b _m1 -> _m2;1 - - 0;- 0 1 1;- 1 1 2;\
.table _m2 -> p;0 0;1 0;2 1;.table _m2 -> q;0 0;1 1;2 1;.end; | # done 12 12;
-- A row that says no value of one output takes the default away and has no line: one mark and one choice net.
.model j;.inputs a;.outputs p q;.table a -> p q;.default =a 1;0 !- 0;1 0 0;.end; | \
.model j;.inputs a;.outputs p q;.mv _m2 3;.table a -> _m1;.default 1;0 0;1 0;.table a _m1 -> _m2;1 - 0;0 1 1;1 1 2;\
.table _m2 -> p;0 0;1 0;2 1;.table _m2 -> q;0 0;1 1;2 1;.end; | # done 13 13;
-- A default with an entry of no value is none.
.model j;.inputs a;.outputs p q;.table a -> p q;.default 1 !-;0 0 1;1 1 0;.end; | \
.model j;.inputs a;.outputs p q;.table a -> _m1;0 0;1 1;.table _m1 -> p;0 0;1 1;.table _m1 -> q;0 1;1 0;.end; | # done 6 6;
-- Nobody reads one of the outputs.
.model j;.inputs;.outputs p;.table -> p q;0 1;1 0;.end; | \
.model j;.inputs;.outputs p;.table -> _m1;0;1;.table _m1 -> p;0 0;1 1;.table _m1 -> q;0 1;1 0;.end; | # done 4 4;
-- A table in an instance, whose outputs are bound to two nets round it.
.model j;.inputs a;.outputs x y;.subckt A u i=a p=x q=y;.end;.model A;.inputs i;.outputs p q;.table i -> p q;- 0 1;- 1 0;.end; | \
.model j;.inputs a;.outputs x y;.table -> _m1;0;1;.table _m1 -> x;0 0;1 1;.table _m1 -> y;0 1;1 0;.end; | # done 4 4;
-- Names that the file has are passed over, and other tables' marks count with the choice nets.
.model j;.inputs a _m1;.outputs p q z;.table a -> z;.default =a;1 1;.table _m1 -> p q;0 0 1;1 1 0;.end; | \
.model j;.inputs a _m1;.outputs p q z;.table a -> _m2;.default 1;1 0;.table a _m2 -> z;1 - 1;0 1 0;1 1 1;\
.table _m1 -> _m3;0 0;1 1;.table _m3 -> p;0 0;1 1;.table _m3 -> q;0 1;1 0;.end; | # done 12 12;
";

#[test]
fn outputs_that_belong_together_are_chosen_together(rt: HostRuntime) -> Result<(), Fail> {
    all_end(&rt, rt.alloc(), Form::Written(b""), WRITTEN)
}

/// Networks with such tables that are refused, with their faults.
const REFUSED: &str = "\
-- An output that stands twice; an input may, and may be an output too.
.model m;.table a -> z z; | 19 Repeated line 2 z
.model m;.table a a -> z y z x x; | 19 Repeated line 2 z
.model m;.table a -> z z .b; | 19 Repeated line 2 z
.model m;.table a -> z .b z; | 36 BadName line 2 .b
.model m;.table z -> z y;- 0 0;.end; | 30 Cycle z
-- Columns of rows, and entries of defaults.
.model m;.table a -> p q;0 1; | 13 Columns line 3 3 2
.model m;.table a -> p q;.default 0; | 8 Missing line 3 .default
.model m;.table a -> p q;.default 0 1 0; | 9 Extra line 3 .default
.model m;.inputs a;.mv q 3;.table a -> p q;- =a =a;.end; | 15 BadEqual line 5 a
.model m;.inputs a;.table a -> p q;- 0 2;.end; | 14 UnknownValue line 4 2
-- An output of such a table that something else drives too, and one that an instance binds to the net of another.
.model m;.table -> p q;0 1;.table -> q;1;.end; | 28 DrivenTwice q
.model m;.subckt A u p=x q=x;.end;.model A;.outputs p q;.table -> p q;0 1;.end; | 28 DrivenTwice x
-- More rows of outputs than there may be.
.model m;.inputs a b;.mv a, b, p, q 128;.table a b -> p q;- - =a =b;.end; | 34 JointWide 1025
.model m;.inputs a b;.mv a, b, p, q 128;.table a b -> p q;.default =a =b;.end; | 34 JointWide 1025
.model m;.inputs a b c d;.mv a, b, c, d, p, q, r, s 128;.table a b c d -> p q r s;- - - - =a =b =c =d;.end; | 34 JointWide 1025
";

#[test]
fn tables_of_several_outputs_are_refused_with_their_first_fault(
    rt: HostRuntime,
) -> Result<(), Fail> {
    all_end(&rt, rt.alloc(), Form::Network, REFUSED)
}
