//! Certificates that are replayed, and those that are refused.
use crate::cases::{Form, all_end};
use crate::networks::{INVERTER, WIDE};
use crate::runs::{checked, ends, refused, written};
use std::test::Fail;

/// A network, a certificate, what is written, and the line of the notes.
const REPLAYED: &str = "\
-- A net goes into its reader.
.model s;.inputs;.outputs p;.table -> c;-;.table c -> p;- =c;.end; | \
# begin collapse c;collapse c;# end 0;# done 2 0; | \
.model s;.inputs;.outputs p;.table -> p;0;1;.end; | # done 2 0;
-- A net comes, and a table is divided by it.
.model f;.inputs a b c d;.outputs f;.table a b c d -> f;.default 0;1 1 - - 1;1 - 1 - 1;1 - - 1 1;.end; | \
# begin kernel;add _m1;line b 1 -> 1;line c 1 -> 1;line d 1 -> 1;default 0;end;\
divide f _m1;line a 1 _m1 1 -> 1;default 0;end;# end 5;# done 6 5; | \
.model f;.inputs a b c d;.outputs f;.table a _m1 -> f;.default 0;1 1 1;\
.table b c d -> _m1;.default 0;1 - - 1;- 1 - 1;- - 1 1;.end; | # done 6 5;
-- The readers of a buffer read its fanin, and then it goes.
.model w;.inputs a;.outputs z;.table a -> b;0 0;1 1;.table b -> z;0 1;1 0;.end; | \
wire b;remove b;# whoever reads this; | \
.model w;.inputs a;.outputs z;.table a -> z;0 1;1 0;.end; | # done 4 2;
-- Numbers may begin with zeros, and values stand in any order and several times.
.model v;.inputs a;.outputs z;.mv a 3;.table a -> z;.default 0;1 1;2 1;.end; | \
add k;line a (2,00001,2) -> 001;default (0);end; | \
.model v;.inputs a;.outputs z;.mv a 3;.table a -> z;.default 0;1 1;2 1;\
.table a -> k;.default 0;(1,2) 1;.end; | # done 2 3;
-- A value goes into one that no literal tells from it.
.model h;.inputs a b;.outputs z y;.mv n 3;.table a b -> n;0 - 0;1 0 1;1 1 2;.table n -> z;0 0;(1,2) 1;\
.table n -> y;0 1;(1,2) 0;.end; | merge n 2 1; | \
.model h;.inputs a b;.outputs z y;.table a b -> n;0 - 0;1 0 1;1 1 1;.table n -> z;0 0;1 1;\
.table n -> y;0 1;1 0;.end; | # done 9 9;
-- Nets for the bits of codes come in place of a net of three values; the code 11 counts as that of the value 2.
.model h;.inputs a b;.outputs z y;.mv n 3;.table a b -> n;0 - 0;1 0 1;1 1 2;.table n -> z;0 0;(1,2) 1;\
.table n -> y;(0,1) 1;2 0;.end; | encode n 2 r s 00 01 10; | \
.model h;.inputs a b;.outputs z y;.table r s -> z;0 0 0;0 1 1;1 - 1;.table r -> y;0 1;1 0;\
.table a b -> r;0 - 0;1 0 0;1 1 1;.table a b -> s;0 - 0;1 0 1;1 1 0;.end; | # done 9 17;
-- What is read by none goes; what varies goes into its reader; a table gives way to a smaller one in a window of one step.
.model h;.inputs a b;.outputs z y;.mv n 3;.table a b -> n;0 - 0;1 0 1;1 1 2;.table n -> z;0 0;(1,2) 1;\
.table n -> y;0 1;(1,2) 0;.table -> c;-;.table c -> d;0 0;.table a -> e;0 0;1 1;.end; | remove e; | \
.model h;.inputs a b;.outputs z y;.mv n 3;.table a b -> n;0 - 0;1 0 1;1 1 2;.table n -> z;0 0;(1,2) 1;\
.table n -> y;0 1;(1,2) 0;.table -> c;-;.table c -> d;0 0;.end; | # done 12 10;
.model h;.inputs a b;.outputs z y;.mv n 3;.table a b -> n;0 - 0;1 0 1;1 1 2;.table n -> z;0 0;(1,2) 1;\
.table n -> y;0 1;(1,2) 0;.table -> c;-;.table c -> d;0 0;.table a -> e;0 0;1 1;.end; | collapse c; | \
.model h;.inputs a b;.outputs z y;.mv n 3;.table a b -> n;0 - 0;1 0 1;1 1 2;.table n -> z;0 0;(1,2) 1;\
.table n -> y;0 1;(1,2) 0;.table -> d;0;.table a -> e;0 0;1 1;.end; | # done 12 11;
.model h;.inputs a b;.outputs z y;.mv n 3;.table a b -> n;0 - 0;1 0 1;1 1 2;.table n -> z;0 0;(1,2) 1;\
.table n -> y;0 1;(1,2) 0;.table -> c;-;.table c -> d;0 0;.table a -> e;0 0;1 1;.end; | \
narrow n 1 0;line a 0 -> 0;line a 1 -> 1;end; | \
.model h;.inputs a b;.outputs z y;.mv n 3;.table a -> n;0 0;1 1;.table n -> z;0 0;(1,2) 1;\
.table n -> y;0 1;(1,2) 0;.table -> c;-;.table c -> d;0 0;.table a -> e;0 0;1 1;.end; | # done 12 9;
";

#[test]
fn certificates_are_replayed(rt: HostRuntime) -> Result<(), Fail> {
    all_end(&rt, rt.alloc(), Form::Replayed, REPLAYED)?;
    ends(
        &rt,
        rt.alloc(),
        checked(INVERTER, b""),
        written(INVERTER, b"# done 2 2\n"),
    )
}

/// A network with a net of three values, one of two at choice, a partial one and one that nobody reads.
const MIXED: &[u8] =
    b".model h\n.inputs a b\n.outputs z y\n.mv n 3\n.table a b -> n\n0 - 0\n1 0 1\n1 1 2\n.table n -> z\n0 0\n(1,2) 1\n.table n -> y\n0 1\n(1,2) 0\n.table -> c\n-\n.table c -> d\n0 0\n.table a -> e\n0 0\n1 1\n.end\n";

/// Certificates, and the line and the cause for which they are refused on that network.
const MIXED_REFUSED: &str = "\
remove q; | 1 NoNet
collapse a; | 1 NoNet
remove z; | 1 Visible
remove n; | 1 Read
remove d; | 1 Partial
add a;line b 1 -> 1;default 0;end; | 1 NotFresh
add k;line b 1 -> 0;default 0;end; | 1 Form
divide z e;line n 0 -> 0;line n (1,2) -> 1;end; | 1 NotSame
add k;line z 1 -> 1;default 0;end;divide z k;line n 0 -> 0;line n (1,2) -> 1;end; | 5 Loop
add k;default 0;end;divide n k;line a 0 -> 0;line a 1 b 0 -> 1;line a 1 b 1 -> 2;line z 1 k 1 -> 0;end; | 4 Loop
wire n; | 1 NotSame
wire e; | 1 Unread
collapse e; | 1 Unread
narrow n 9 0;line a 0 -> 0;end; | 1 Form
narrow n 0 0;line z 0 -> 0;end; | 1 Outside
narrow c 0 0;line -> 0;end; | 1 Partial
narrow n 0 0;line a 0 -> 0;line a 1 -> 1;end; | 1 Outside
narrow n 0 0;line a 0 -> 0;end; | 1 Lost
narrow n 0 0;line a 0 -> 0; | 1 Syntax
merge z 0 1; | 1 Visible
merge n 3 0; | 1 Form
merge n 0 1; | 1 NotSame
merge n 2; | 1 NotSame
encode a 1 k 0 1; | 1 NoNet
encode z 1 k 0 1; | 1 Visible
encode c 1 k 0 1; | 1 Varied
encode n 1 k 0 1; | 1 Form
encode n 2 k k 00 01 10; | 1 NotFresh
encode n 2 k l 00 01 01; | 1 Form
encode n 2 k z 00 01 10; | 1 NotFresh
remove; | 1 Syntax
line a 0 -> 0; | 1 Syntax
add k;line b 2000 -> 1;default 0;end; | 2 Syntax
remove e;\u{80} | 2 Lex 1
";

/// The same of an inverter.
const INVERTER_REFUSED: &str = "\
remove (a); | 1 NoNet
# a line more;;remove z; | 3 Visible
add k;line a 1 -> 1;end; | 1 Form
add (a);default 0;end; | 1 NotFresh
add k;line -> 0 -> 1;default 0;end; | 1 NoNet
# begin simplify 1 0;narrow z 1 0;end; | 2 Lost
merge z 1; | 1 Visible
encode z 1 k 0 1; | 1 Visible
encode | 1 Syntax
add k;line a 1 -> 1; | 1 Syntax
;add k;default 0;line a 1 -> 1; | 4 Syntax
add k;default 128;end; | 1 Form
add k;default 1024;end; | 2 Syntax
add k;default 000000;end; | 2 Syntax
add k;default ();end; | 2 Syntax
add k;line a -> 1;end; | 2 Syntax
end; | 1 Syntax
remove z z; | 1 Syntax
.model inv;.inputs a;.outputs z;.table a -> z;0 1;1 0;.end; | 1 Syntax
remove z;add (k; | 2 Lex 3
";

/// A network before each: with a net of several values and two readers, which are seen, with a table that can be divided, and none.
const REFUSED: &str = "\
.model s;.inputs;.outputs p q;.table -> c;-;.table c -> p;- =c;.table c -> q;- =c;.end; | collapse c; | 1 Shared
.model s;.inputs;.outputs p q;.table -> c;-;.table c -> p;- =c;.table c -> q;- =c;.end; | wire c; | 1 NotSame
.model f;.inputs a b c d;.outputs f;.table a b c d -> f;.default 0;1 1 - - 1;1 - 1 - 1;1 - - 1 1;.end; | # begin kernel;add _m1;line b 1 -> 1;line c 1 -> 0;line d 1 -> 1;default 0;end; | 2 Form
.model l;.inputs a d;.outputs z;.latch d s;.table s -> z;- =s;.reset a -> s;- =a;.end; | add k;line a 1 s 1 -> 1;default 0;end;\
divide .s k;line a 0 -> 0;line a 1 -> 1;line a 0 k 1 -> 0;end; | 5 Loop
 | divide a; | 1 Syntax
";

#[test]
fn certificates_are_refused_with_line_and_cause(rt: HostRuntime) -> Result<(), Fail> {
    all_end(&rt, rt.alloc(), Form::CertificateOn(MIXED), MIXED_REFUSED)?;
    all_end(
        &rt,
        rt.alloc(),
        Form::CertificateOn(INVERTER),
        INVERTER_REFUSED,
    )?;
    all_end(&rt, rt.alloc(), Form::Certificate, REFUSED)?;
    all_end(
        &rt,
        rt.alloc(),
        Form::CertificateOn(WIDE),
        "collapse wide; | 1 Wide\n",
    )?;
    let end = refused(2, b"# fault network 20 NoModel line 1\n");
    ends(&rt, rt.alloc(), checked(b"", b"remove z\n"), end)
}
