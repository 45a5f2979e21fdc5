//! Networks that several tests use.

/// The text of an inverter, as it is written.
pub const INVERTER: &[u8] = b".model inv\n.inputs a\n.outputs z\n.table a -> z\n0 1\n1 0\n.end\n";

/// An inverter beside a net that nobody reads, whose table gives a value for each of the input's.
pub const UNREAD: &[u8] =
    b".model d\n.inputs a\n.outputs z\n.table a -> z\n0 1\n1 0\n.table a -> d\n0 0\n1 -\n.end\n";

/// The inverter of that network alone.
pub const KEPT: &[u8] = b".model d\n.inputs a\n.outputs z\n.table a -> z\n0 1\n1 0\n.end\n";

/// What a script of one `drop` notes of it.
pub const NOTED: &[u8] = b"# begin drop\nremove d\n# end 2\n# done 4 2\n";

/// A net whose lines have a complement of 8,192 cubes, of which its reader makes use.
pub const WIDE: &[u8] = b"\
.model w\n.inputs a b c d e f g h i j k l m n o p q r s t u v w x y z\n.outputs out\n\
.table a b c d e f g h i j k l m n o p q r s t u v w x y z -> wide\n.default 0\n\
1 - - - - - - - - - - - - 1 - - - - - - - - - - - - 1\n- 1 - - - - - - - - - - - - 1 - - - - - - - - - - - 1\n\
- - 1 - - - - - - - - - - - - 1 - - - - - - - - - - 1\n- - - 1 - - - - - - - - - - - - 1 - - - - - - - - - 1\n\
- - - - 1 - - - - - - - - - - - - 1 - - - - - - - - 1\n- - - - - 1 - - - - - - - - - - - - 1 - - - - - - - 1\n\
- - - - - - 1 - - - - - - - - - - - - 1 - - - - - - 1\n- - - - - - - 1 - - - - - - - - - - - - 1 - - - - - 1\n\
- - - - - - - - 1 - - - - - - - - - - - - 1 - - - - 1\n- - - - - - - - - 1 - - - - - - - - - - - - 1 - - - 1\n\
- - - - - - - - - - 1 - - - - - - - - - - - - 1 - - 1\n- - - - - - - - - - - 1 - - - - - - - - - - - - 1 - 1\n\
- - - - - - - - - - - - 1 - - - - - - - - - - - - 1 1\n.table wide -> out\n0 1\n1 0\n.end\n";
