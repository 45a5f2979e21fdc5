//! Runs with `--free` and without on networks that allow nothing somewhere.
use crate::cases::{Form, all_end, all_end_with};
use std::test::Fail;

/// A script, a network with a table that allows nothing somewhere, what is written of it with `--free`, and what is noted, which is a
/// certificate with `--free`.
const FREELY: &str = "\
-- A table that allows nothing somewhere gets a default.
fill | \
.model x;.inputs a;.outputs z;.table a -> x;0 1;.table x -> z;.default 1;0 0;.end; | \
.model x;.inputs a;.outputs z;.table a -> x;.default 0;0 1;.table x -> z;.default 1;0 0;.end; | \
# begin fill;fill x 0;# end 2;# done 2 2;
-- So does each of two, one above the other.
fill | \
.model y;.inputs a;.outputs z;.table a -> x;0 1;.table x -> z;1 0;.end; | \
.model y;.inputs a;.outputs z;.table a -> x;.default 0;0 1;.table x -> z;.default 0;1 0;.end; | \
# begin fill;fill x 0;fill z 0;# end 2;# done 2 2;
-- But not below one that gives two values at choice: there the default might be used where the network allows some choice.
fill | \
.model v;.inputs a;.outputs z;.table -> c;-;.table c -> d;0 0;.table a -> e;1 1;.table d e -> z;.default 1;0 1 0;.end; | \
.model v;.inputs a;.outputs z;.table -> c;-;.table c -> d;0 0;.table a -> e;.default 0;1 1;.table d e -> z;.default 1;0 1 0;.end; | \
# begin fill;# note varied d;fill e 0;# end 4;# done 4 4;
-- A latch stands between what it reads and what reads it.
fill | \
.model l;.inputs;.outputs z;.latch n q;.reset -> q;0;.table -> n;-;.table q -> z;0 1;.end; | \
.model l;.inputs;.outputs z;.latch n q;.reset -> q;0;.table -> n;-;.table q -> z;.default 0;0 1;.end; | \
# begin fill;fill z 0;# end 1;# done 1 1;
-- A table without rows allows nothing anywhere.
fill | \
.model n;.inputs;.outputs c;.table -> c;.end; | \
.model n;.inputs;.outputs c;.table -> c;.default 0;.end; | \
# begin fill;fill c 0;# end 0;# done 0 0;
-- Where each table is total there is nothing to do.
fill | \
.model t;.inputs a;.outputs z;.table a -> z;0 1;1 0;.end; | \
.model t;.inputs a;.outputs z;.table a -> z;0 1;1 0;.end; | \
# begin fill;# end 2;# done 2 2;
-- A net that nobody reads can go once its table is total.
fill drop | \
.model d;.inputs a;.outputs z;.table a -> z;0 1;1 0;.table a -> d;0 0;.end; | \
.model d;.inputs a;.outputs z;.table a -> z;0 1;1 0;.end; | \
# begin fill;fill d 0;# end 3;# begin drop;remove d;# end 2;# done 3 2;
-- The other commands do what they do without the option.
drop | \
.model d;.inputs a;.outputs z;.table a -> z;0 1;1 0;.table a -> d;0 0;.table a -> e;0 0;1 -;.end; | \
.model d;.inputs a;.outputs z;.table a -> z;0 1;1 0;.table a -> d;0 0;.end; | \
# begin drop;remove e;# end 3;# done 5 3;
";

/// Networks that stay as they stand under `fill` without `--free`, and what is noted.
const STRICTLY: &str = "\
.model x;.inputs a;.outputs z;.table a -> x;0 1;.table x -> z;.default 1;0 0;.end; | # begin fill;# note strict x;# end 2;# done 2 2;
.model y;.inputs a;.outputs z;.table a -> x;0 1;.table x -> z;1 0;.end; | # begin fill;# note strict x;# note strict z;# end 2;# done 2 2;
.model v;.inputs a;.outputs z;.table -> c;-;.table c -> d;0 0;.table a d -> z;.default 1;0 1 0;.end; | # begin fill;# note strict d;# end 3;# done 3 3;
.model t;.inputs a;.outputs z;.table a -> z;0 1;1 0;.end; | # begin fill;# end 2;# done 2 2;
";

#[test]
fn fill_makes_tables_total_where_that_is_free(rt: HostRuntime) -> Result<(), Fail> {
    all_end_with(&rt, rt.alloc(), "--free", Form::Run, FREELY)?;
    all_end(&rt, rt.alloc(), Form::Kept(b"fill"), STRICTLY)
}

/// A network, a certificate, what is written with `--free`, and the line of the notes.
const REPLAYED: &str = "\
.model x;.inputs a;.outputs z;.table a -> x;0 1;.table x -> z;.default 1;0 0;.end; | fill x 0; | \
.model x;.inputs a;.outputs z;.table a -> x;.default 0;0 1;.table x -> z;.default 1;0 0;.end; | # done 2 2;
.model s;.inputs a;.outputs x;.mv x 3;.table a -> x;0 1;.end; | fill x (2,0); | \
.model s;.inputs a;.outputs x;.mv x 3;.table a -> x;.default (0,2);0 1;.end; | # done 1 1;
.model d;.inputs a;.outputs z;.table a -> z;0 1;1 0;.table a -> d;0 0;.end; | fill d 1;remove d; | \
.model d;.inputs a;.outputs z;.table a -> z;0 1;1 0;.end; | # done 3 2;
.model w;.inputs a;.outputs z;.table a -> b;0 0;1 1;.table b -> z;0 1;1 0;.end; | wire b;remove b; | \
.model w;.inputs a;.outputs z;.table a -> z;0 1;1 0;.end; | # done 4 2;
";

/// A net of two values at choice, a partial table that reads it, and a total one and a partial one that don't.
const MIXED: &[u8] =
    b".model h\n.inputs a\n.outputs z\n.table -> c\n-\n.table c -> d\n0 0\n.table a -> e\n0 0\n1 1\n.table a -> f\n0 0\n.table d e f -> z\n.default 0\n1 1 1 1\n.end\n";

/// Certificates that are refused on that network with `--free`, and the line and the cause.
const REFUSED_FREELY: &str = "\
fill q 0; | 1 NoNet
fill a 0; | 1 NoNet
fill d 2; | 1 Form
fill e 2; | 1 Form
fill e 0; | 1 Total
fill d 0; | 1 Varied
fill f 0;fill f 0; | 2 Total
fill f; | 1 Syntax
fill f 0 0; | 1 Syntax
fill f (); | 1 Syntax
";

/// The same without the option.
const REFUSED_STRICTLY: &str = "\
fill q 0; | 1 NoNet
fill f 0; | 1 Strict
fill f 2; | 1 Strict
fill e 0; | 1 Strict
fill d 0; | 1 Strict
remove q; | 1 NoNet
";

#[test]
fn a_certificate_may_fill_where_that_is_free(rt: HostRuntime) -> Result<(), Fail> {
    let refused = Form::CertificateOn(MIXED);
    all_end_with(&rt, rt.alloc(), "--free", Form::Replayed, REPLAYED)?;
    all_end_with(&rt, rt.alloc(), "--free", refused, REFUSED_FREELY)?;
    all_end(&rt, rt.alloc(), refused, REFUSED_STRICTLY)
}
