//! What is at a limit, and what is past one. The texts are made of pieces.
use crate::cases::{Form, all_end};
use std::test::Fail;

/// Files whose words are as long as they may be, or longer, and the line of the fault that each has.
const WORDS: &str = "\
~.model m;~1024*a | 37 NoTable line 2
~.model m;~1024*a~\\; | 37 NoTable line 2
~.model m;~1025*a | 2 LongWord line 2
~;;(~1099999* a | 3 OpenBracket line 3
~;;(~1100000* a | 2 LongWord line 3
~1024*! | 6 OutsideModel line 1
~1025*!~  | 2 LongWord line 1
-- A backslash is neither a bang nor a bracket, so that it settles what the run is.
~1025*!~\\\u{80} | 2 LongWord line 1
~1025*!~\\; | 2 LongWord line 1
~1024*!~\\; | 6 OutsideModel line 1
~2000*!~( | 3 OpenBracket line 1
";

#[test]
fn words_have_a_limit(rt: HostRuntime) -> Result<(), Fail> {
    all_end(&rt, rt.alloc(), Form::Network, WORDS)
}

/// Networks at the limit of a name's bytes and of a table's columns.
const KEPT: &str = "\
~.model m;.inputs ~1000*a~;.outputs z;.table ~1000*a~ -> z;1 1;.end; | # done 1 1;
~.model m;.inputs~255* i@~;.outputs z;.table~255* i@~ -> z;~255*1 ~1;.end; | # done 255 255;
";

/// Files past these limits, and past that of a table's lines.
const PAST: &str = "\
~.model m;.inputs ~1001*a~;.outputs z;.table ~1001*a~ -> z;1 1;.end; | 35 Limit NetName 1001
~.model m;.inputs ~1025*a~;.outputs z;.table ~1025*a~ -> z;1 1;.end; | 2 LongWord line 2
~.model m;.inputs~256* i@~;.outputs z;.table~256* i@~ -> z;~256*1 ~1;.end; | 21 Limit line 4 Columns 257
~.model m;.inputs a;.outputs z;.table a -> z;~65537*1 1;~.end; | 21 Limit line 65541 TableLines 65537
";

#[test]
fn networks_have_limits(rt: HostRuntime) -> Result<(), Fail> {
    all_end(&rt, rt.alloc(), Form::Kept(b""), KEPT)?;
    all_end(&rt, rt.alloc(), Form::Network, PAST)
}

/// As many models as there may be, and instances as deep.
const DEEP: &str = "\
~4096*.model m@;.end; | .model m0;.inputs;.outputs;.end; | # done 0 0;
~.model m00;~64*.subckt m$& u;.end;.model m$&;~.end; | .model m00;.inputs;.outputs;.end; | # done 0 0;
";

/// More of them, and more instances than there may be in all.
const DEEPER: &str = "\
~4097*.model m@;.end; | 21 Limit line 8193 Models 4097
~.model m00;~65*.subckt m$& u;.end;.model m$&;~.end; | 35 Limit Depth 65
~.model m00;~16*.subckt m$& u;.subckt m$& v;.end;.model m$&;~.end; | 35 Limit Instances 100001
";

#[test]
fn models_and_instances_have_limits(rt: HostRuntime) -> Result<(), Fail> {
    all_end(&rt, rt.alloc(), Form::Written(b""), DEEP)?;
    all_end(&rt, rt.alloc(), Form::Network, DEEPER)
}

/// Networks of too many nets.
const NETS: &str = "\
~.model m;.inputs~200001* @~;.end; | 35 Limit Nets 200001
-- A mark and a reset net count, behind as many nets of the file as there may be.
~.model m;.inputs~199999* @~;.table 0 -> z;0 1;.default =0;.end; | 35 Limit Nets 200001
~.model m;.inputs~199999* @~;.latch 0 s;.reset 0 -> s;1 1;.end; | 35 Limit Nets 200001
-- So do choice nets, and their marks.
~.model m;.inputs~199998* @~;.table 0 -> p q;0 0 1;.end; | 35 Limit Nets 200001
~.model m;.inputs~199997* @~;.table 0 -> p q;.default =0 1;.end; | 35 Limit Nets 200001
";

#[test]
fn a_network_has_a_limit_of_nets(rt: HostRuntime) -> Result<(), Fail> {
    all_end(&rt, rt.alloc(), Form::Network, NETS)
}

/// Networks of too many lines, or literals. Each of their rows, which are all different, becomes 128 lines, and each of these has a
/// literal for each input.
const LINES: &str = "\
~.model m;.inputs x a b;.mv x, z 128;.mv a, b 100;.table x a b -> z;~7813*- % / =x;~.end; | 35 Limit FlatLines 1000001
~.model m;.inputs x a b~97* i@~;.mv x, z 128;.mv a, b 100;.table x a b~97* i@~ -> z;~626*- % / \
1 1 1 1 1 1 1 1 1 1 1 1 1 1 1 1 1 1 1 1 1 1 1 1 1 1 1 1 1 1 1 1 1 1 1 1 1 1 1 1 1 1 1 1 1 1 1 1 1 1 1 1 1 1 1 1 1 1 1 1 1 1 1 1 1 1 1 1 1 1 1 1 1 1 1 1 1 1 1 1 1 1 1 1 1 1 1 1 1 1 1 1 1 1 1 1 1 =x;~.end; | 35 Limit FlatEntries 8000001
";

#[test]
fn a_network_has_limits_of_lines_and_literals(rt: HostRuntime) -> Result<(), Fail> {
    all_end(&rt, rt.alloc(), Form::Network, LINES)
}

/// Tables of several outputs beside too many lines: rows of outputs are counted before lines, table by table.
const TABLES: &str = "\
~.model m;.inputs x a b;.mv x, z, p 128;.mv a, b, y, q 100;.table x a b -> z;~7813*- % / =x;\
~.table x a -> p q;- - =x =a;.end; | 35 Limit FlatLines 1000001
~.model m;.inputs x a b;.mv x, z, p 128;.mv a, b, y, q 100;.table x a -> p q;- - =x =a;.table x a b -> z;\
~7813*- % / =x;~.end; | 34 JointWide 1025
~.model m;.inputs x a b;.mv x, z, p 128;.mv a, b, y, q 100;.table x a b -> z y;~7813*- % / =x =a;~.end; | 34 JointWide 1025
~.model m;.inputs a b c d;.mv a, b, c, d, p, q, r, s 128;.table a b c d -> p q r s t;.default 0 0 0 0 0;- - - - =a =b =c =d !-;.end; | \
35 Limit FlatLines 1000001
";

#[test]
fn rows_of_outputs_are_counted_before_lines_table_by_table(rt: HostRuntime) -> Result<(), Fail> {
    all_end(&rt, rt.alloc(), Form::Network, TABLES)
}

/// Tables of two outputs with as many different rows as a net may have values, in the second of which one stands twice.
const CHOSEN: &str = "\
~.model m;.inputs;.outputs p q;.mv p 1024;.table -> p q;~1024*@ 0;~.end; | \
~.model m;.inputs;.outputs p q;.mv _m1 1024;.mv p 1024;.table -> _m1;~1024*@;~.table _m1 -> p;~1024*@ @;~.table _m1 -> q;~1024*@ 0;~.end; | # done 2048 2048;
~.model m;.inputs;.outputs p q;.mv p 1024;.table -> p q;~1024*@ 0;~0 0;.end; | \
~.model m;.inputs;.outputs p q;.mv _m1 1024;.mv p 1024;.table -> _m1;~1024*@;~.table _m1 -> p;~1024*@ @;~.table _m1 -> q;~1024*@ 0;~.end; | # done 2048 2048;
";

/// One with a row more.
const TOO_WIDE: &str = "\
~.model m;.inputs;.outputs p q;.mv p 1024;.table -> p q;~1024*@ 0;~0 1;.end; | 34 JointWide 1025
";

#[test]
fn a_choice_net_has_as_many_values_as_a_net_may_have(rt: HostRuntime) -> Result<(), Fail> {
    all_end(&rt, rt.alloc(), Form::Written(b""), CHOSEN)?;
    all_end(&rt, rt.alloc(), Form::Network, TOO_WIDE)
}

/// Scripts as long and as deep as they may be, which do nothing.
const IDLE: &str = "\
~65536*  | .model inv;.inputs a;.outputs z;.table a -> z;0 1;1 0;.end; | .model inv;.inputs a;.outputs z;.table a -> z;0 1;1 0;.end; | # done 2 2;
~32*repeat 1000{~32*} | .model inv;.inputs a;.outputs z;.table a -> z;0 1;1 0;.end; | .model inv;.inputs a;.outputs z;.table a -> z;0 1;1 0;.end; | # done 2 2;
";

/// Scripts past a limit.
const LONG: &str = "\
~65537*x | 5 TooLong 65536
~10001*drop? | 6 TooMany 50000
~33*better{ | 7 TooDeep 230
~32*repeat 1000{~drop~32*} | 6 TooMany 0
";

#[test]
fn a_script_has_limits(rt: HostRuntime) -> Result<(), Fail> {
    all_end(&rt, rt.alloc(), Form::Run, IDLE)?;
    all_end(&rt, rt.alloc(), Form::Script, LONG)
}
