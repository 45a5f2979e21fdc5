//! What the commands make of networks, and what they note.
use crate::cases::{Form, all_end};
use crate::networks::{KEPT, UNREAD, WIDE};
use crate::runs::{ends, opt, written};
use std::test::Fail;

/// A script, a network file, what is written, and what the notes say.
const COMMANDS: &str = "\
-- A net that may have one of two values isn't put into two readers, each of which would choose for itself.
collapse c | \
.model s;.inputs;.outputs p q;.table -> c;-;.table c -> p;- =c;.table c -> q;- =c;.end; | \
.model s;.inputs;.outputs p q;.table -> c;-;.table c -> p;0 0;1 1;.table c -> q;0 0;1 1;.end; | \
# begin collapse c;# note shared c;# end 4;# done 4 4;
-- It goes into one reader.
collapse c | \
.model s;.inputs;.outputs p;.table -> c;-;.table c -> p;- =c;.end; | \
.model s;.inputs;.outputs p;.table -> p;0;1;.end; | \
# begin collapse c;collapse c;# end 0;# done 2 0;
-- A reader's default is spelled out where the net is partial.
collapse x | \
.model x;.inputs a;.outputs z;.table a -> x;0 1;.table x -> z;.default 1;0 0;.end; | \
.model x;.inputs a;.outputs z;.table a -> z;0 1;.end; | \
# begin collapse x;collapse x;# end 1;# done 2 1;
-- A partial net stays, though nobody reads it.
sweep | \
.model u;.inputs;.outputs z;.table -> c;-;.table c -> d;0 0;.table c -> z;- =c;.end; | \
.model u;.inputs;.outputs z;.table -> c;-;.table c -> d;0 0;.table c -> z;0 0;1 1;.end; | \
# begin sweep;# end 3;# done 3 3;
-- No net has the name, or one without a table, or a net that is seen, or one that nobody reads.
collapse q;collapse a;collapse z;collapse # a comment ends with its line;d | \
.model d;.inputs a;.outputs z;.table a -> z;0 1;1 0;.table a -> d;0 0;.end; | \
.model d;.inputs a;.outputs z;.table a -> z;0 1;1 0;.table a -> d;0 0;.end; | \
# begin collapse q;# note absent q;# end 3;# begin collapse a;# note absent a;# end 3;# begin collapse z;# note seen z;# end 3;# begin collapse d;\
# note unread d;# end 3;# done 3 3;
-- A net whose composite has more literals stays: by collapse with a note, by eliminate without.
collapse c;eliminate | \
.model l;.inputs a b x y;.outputs z;.table a b -> c;.default 0;0 1 1;1 0 1;.table c x y -> z;.default 0;1 1 - 1;1 - 1 1;.end; | \
.model l;.inputs a b x y;.outputs z;.table a b -> c;.default 0;0 1 1;1 0 1;.table x y c -> z;.default 0;1 - 1 1;- 1 1 1;.end; | \
# begin collapse c;# note literals 8 12 c;# end 8;# begin eliminate;# end 8;# done 8 8;
-- Buffers between outputs: those that are seen stay.
sweep | \
.model b;.inputs a;.outputs y z;.table a -> p;0 0;1 1;.table p -> z;0 0;1 1;.table z -> q;0 0;1 1;.table q -> y;0 0;1 1;.end; | \
.model b;.inputs a;.outputs y z;.table a -> z;0 0;1 1;.table z -> y;0 0;1 1;.end; | \
# begin sweep;wire p;remove p;wire q;remove q;# end 4;# done 8 4;
-- A constant puts a line into force, or takes it away; one by its only line, one by its default.
sweep | \
.model k;.inputs a;.outputs z y;.table -> on;1;.table -> off;.default 0;.table on off a -> z;.default 0;1 - 1 1;- 1 0 1;.table off -> y;.default 0;\
1 1;.end; | \
.model k;.inputs a;.outputs z y;.table a -> z;.default 0;1 1;.table -> y;.default 0;.end; | \
# begin sweep;collapse on;collapse off;# end 1;# done 5 1;
-- A buffer of three values, two literals of whose reader meet on its fanin, and a line that vanishes.
sweep | \
.model t;.inputs a;.outputs z;.mv a, c, z 3;.table a -> c;0 0;1 1;2 2;.table a c -> z;.default 0;(0,1) (1,2) 1;0 2 2;.end; | \
.model t;.inputs a;.outputs z;.mv a 3;.mv z 3;.table a -> z;.default 0;1 1;.end; | \
# begin sweep;wire c;remove c;# end 1;# done 7 1;
-- The least net goes first: what it sets free comes before the nets behind it.
drop sweep | \
.model o;.inputs a;.outputs z;.table r -> q;0 0;1 1;.table a -> r;0 1;1 0;.table q -> p;0 1;1 0;.table a -> z;1 1;0 0;.end; | \
.model o;.inputs a;.outputs z;.table a -> z;1 1;0 0;.end; | \
# begin drop;remove p;remove q;remove r;# end 2;# begin sweep;# end 2;# done 8 2;
-- Inverters go into one another, the least first.
eliminate | \
.model i;.inputs a;.outputs z;.table a -> p;0 1;1 0;.table p -> q;0 1;1 0;.table q -> z;0 1;1 0;.end; | \
.model i;.inputs a;.outputs z;.table a -> z;0 1;1 0;.end; | \
# begin eliminate;collapse p;collapse q;# end 2;# done 6 2;
-- What is eliminated may leave nets that nobody reads, which sweep takes away.
eliminate sweep;;eliminate; | \
.model e;.inputs a b;.outputs z;.table a -> p;0 1;1 0;.table p b -> q;.default 0;1 1 1;0 1 1;.table q p -> z;.default 0;1 - 1;.table p b -> r;1 - 1;\
0 - 0;.end; | \
.model e;.inputs a b;.outputs z;.table a b -> z;.default 0;0 1 1;1 1 1;.end; | \
# begin eliminate;collapse p;collapse q;# end 6;# begin sweep;remove r;# end 4;# begin eliminate;# end 4;# done 9 4;
";

#[test]
fn commands_change_networks_and_note_how(rt: HostRuntime) -> Result<(), Fail> {
    all_end(&rt, rt.alloc(), Form::Run, COMMANDS)
}

/// A net whose lines have a complement of 8,192 cubes, of which its reader makes use, stays.
#[test]
fn a_complement_may_be_too_wide(rt: HostRuntime) -> Result<(), Fail> {
    let notes =
        b"# begin eliminate\n# note lines wide\n# end 28\n# begin collapse wide\n# note lines wide\n# end 28\n# done 28 28\n";
    ends(
        &rt,
        rt.alloc(),
        opt(WIDE, b"eliminate; collapse wide"),
        written(WIDE, notes),
    )
}

/// Networks, and what `drop` leaves and notes of each.
const DROPPED: &str = "\
-- A net that nobody reads goes.
.model d;.inputs a;.outputs z;.table a -> z;0 1;1 0;.table a -> d;0 0;1 -;.end; | \
.model d;.inputs a;.outputs z;.table a -> z;0 1;1 0;.end; | \
# begin drop;remove d;# end 2;# done 4 2;
-- A partial table stays: where it allows nothing the network allows nothing.
.model d;.inputs a;.outputs z;.table a -> z;0 1;1 0;.table a -> d;0 0;.end; | \
.model d;.inputs a;.outputs z;.table a -> z;0 1;1 0;.table a -> d;0 0;.end; | \
# begin drop;# end 3;# done 3 3;
-- A net that a partial table reads stays with it.
.model d;.inputs a;.outputs;.table a -> c;0 1;1 0;.table c -> d;0 0;.end; | \
.model d;.inputs a;.outputs;.table a -> c;0 1;1 0;.table c -> d;0 0;.end; | \
# begin drop;# end 3;# done 3 3;
-- The least goes first, and behind it what it alone read, also where that stands before it.
.model d;.inputs a;.outputs z;.table a -> z;0 1;1 0;.table a -> c;0 1;1 0;.table c -> d;0 1;1 0;.table -> e;-;.end; | \
.model d;.inputs a;.outputs z;.table a -> z;0 1;1 0;.end; | \
# begin drop;remove d;remove c;remove e;# end 2;# done 6 2;
-- What it read may stand behind it too.
.model d;.inputs a;.outputs z;.table a -> z;0 1;1 0;.table c -> d;0 1;1 0;.table -> e;-;.table a -> c;0 1;1 0;.end; | \
.model d;.inputs a;.outputs z;.table a -> z;0 1;1 0;.end; | \
# begin drop;remove d;remove e;remove c;# end 2;# done 6 2;
-- A column that holds only `-` isn't read.
.model d;.inputs a;.outputs z;.table c a -> z;- 0 1;- 1 0;.table -> c;1;.end; | \
.model d;.inputs a;.outputs z;.table a -> z;0 1;1 0;.end; | \
# begin drop;remove c;# end 2;# done 2 2;
-- Outputs are seen, and inputs have no table.
.model d;.inputs a b;.outputs z b;.table a -> z;0 1;1 0;.end; | .model d;.inputs a b;.outputs z b;.table a -> z;0 1;1 0;.end; | # begin drop;# end 2;# done 2 2;
-- A table without rows allows nothing.
.model d;.inputs;.outputs;.table -> c;.end; | .model d;.inputs;.outputs;.table -> c;.end; | # begin drop;# end 0;# done 0 0;
";

#[test]
fn drop_removes_what_nobody_sees_or_reads(rt: HostRuntime) -> Result<(), Fail> {
    all_end(&rt, rt.alloc(), Form::Written(b"drop"), DROPPED)
}

/// Scripts of two commands, the second of which finds nothing to do.
const TWICE: &[&str] = &["drop;drop", "drop drop", ";drop # d\n;;drop;"];

#[test]
fn each_command_notes_its_part(rt: HostRuntime) -> Result<(), Fail> {
    let noted = b"# begin drop\nremove d\n# end 2\n# begin drop\n# end 2\n# done 4 2\n";
    for script in TWICE {
        let given = opt(UNREAD, script.as_bytes());
        ends(&rt, rt.alloc(), given, written(KEPT, noted))?;
    }
    Ok(())
}
