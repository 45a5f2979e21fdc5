//! Each row of the table of lines, wrong in turn.
use crate::said::said_of_line;
use mv_base::MemorySink;
use std::alloc::Global;
use std::test::Fail;

/// Lines of a file, each line's end a `;`, and what is told of them.
const FAULTS: &str = "\
|20 NoModel line 1
.inputs a|6 OutsideModel line 1
1 1|6 OutsideModel line 1
.end|6 OutsideModel line 1
.exdc|5 UnknownCommand line 1 .exdc
.model|8 Missing line 1 .model
.model .a|36 BadName line 1 .a
.model a=b|36 BadName line 1 a=b
.model a b|9 Extra line 1 .model
.model a;.model (b) c|36 BadName line 2 (b)
.model a;.model b c|40 SecondModel line 2 b
.model a;.end;.model a|40 SecondModel line 3 a
.model a;.end;.inputs a|6 OutsideModel line 3
.model a;.end;1 1|6 OutsideModel line 3
.model a;.end;.subckt a|5 UnknownCommand line 3 .subckt
.model a;.end b|9 Extra line 2 .end
.model a;.inputs a b,c a|36 BadName line 2 b,c
.model a;.inputs a b;.inputs c b|19 Repeated line 3 b
.model a;.outputs a;.inputs a;.outputs a|19 Repeated line 4 a
.model a;.gate and a b|5 UnknownCommand line 2 .gate
.model a;.clock c|5 UnknownCommand line 2 .clock
.model a;.search f|5 UnknownCommand line 2 .search
.model a;.mlatch x|5 UnknownCommand line 2 .mlatch
.model a;.table x|5 UnknownCommand line 2 .table
.model a;.names|8 Missing line 2 .names
.model a;.names a -> z|36 BadName line 2 ->
.model a;.names (a) z|36 BadName line 2 (a)
.model a;1 1|37 NoTable line 2
.model a;.names x z;.inputs b;1 1|37 NoTable line 4
.model a;.names x z;1|13 Columns line 3 2 1
.model a;.names x z;1 1 1|13 Columns line 3 2 3
.model a;.names x;1 1|13 Columns line 3 1 2
.model a;.names x y z;1 1|13 Columns line 3 2 1
.model a;.names x y z;111 1|13 Columns line 3 2 3
.model a;.names x y z;12 2|14 UnknownValue line 3 12
.model a;.names x y z;1- 2|14 UnknownValue line 3 2
.model a;.names x y z;1- -|14 UnknownValue line 3 -
.model a;.names z;-|14 UnknownValue line 3 -
.model a;.names x z;1 1;0 0|41 MixedRows line 4
.model a;.names x z;1 1;x 0|14 UnknownValue line 4 x
.model a;.names x z;1 1;0 1;- 1;0 0|41 MixedRows line 6
.model a;.latch|8 Missing line 2 .latch
.model a;.latch a,b|36 BadName line 2 a,b
.model a;.latch d|8 Missing line 2 .latch
.model a;.latch d -> 0|36 BadName line 2 ->
.model a;.latch d q 4|42 BadLatch line 2 4
.model a;.latch d q re|42 BadLatch line 2 re
.model a;.inputs c;.latch d q xx c|42 BadLatch line 3 xx
.model a;.latch d q re c|42 BadLatch line 2 c
.model a;.inputs c;.latch d q re c 4|42 BadLatch line 3 4
.model a;.inputs c;.latch d q RE c 4|42 BadLatch line 3 RE
.model a;.inputs c;.latch d q re c 0 x|9 Extra line 3 .latch
.model a;.inputs c;.latch d q re c 7 x|42 BadLatch line 3 7
.model a;.latch d q re c;.latch d p fe b;.names d;1 1|13 Columns line 5 1 2
.model a;.inputs b;.latch d q re c;.latch d p fe x;.end e|9 Extra line 5 .end
.model a;.inputs b;.latch d q re b;.latch d p fe x;.latch d r fe y;.end|42 BadLatch line 4 x
.model a;.inputs b;.latch d q re x;.end;.model b|42 BadLatch line 3 x
.model a;.latch d q re c;.names c;1;.outputs c;.inputs e|42 BadLatch line 2 c
";

#[test]
fn the_first_fault_of_lines_is_told(rt: HostRuntime) -> Result<(), Fail> {
    for case in FAULTS.lines() {
        let (lines, told) = case.split_once('|').ok_or("a case of one part")?;
        let said = said_of_line(rt.alloc(), lines)?;
        let expected = format!(in rt.alloc(); "# fault network {told}\n")?;
        assert_eq!(rt; said.bytes(), expected.as_bytes());
    }
    Ok(())
}

/// What is said of these lines, so many like this one behind them, and this one behind those.
fn said_of_many(
    alloc: Global,
    lines: &str,
    like: &str,
    count: u32,
    last: &str,
) -> Result<MemorySink, Fail> {
    let mut text = String::new(alloc);
    text.push_str(lines)?;
    for _ in 0..count {
        text.push_str(like)?;
    }
    text.push_str(last)?;
    said_of_line(alloc, text.as_str())
}

#[test]
fn one_column_too_many_is_told(rt: HostRuntime) -> Result<(), Fail> {
    let alloc = rt.alloc();
    let told = said_of_many(alloc, ".model a;.names", " x", 257, ";.latch")?;
    assert_eq!(rt;
        told.bytes(),
        "# fault network 21 Limit line 2 Columns 257\n".as_bytes()
    );
    let read = said_of_many(alloc, ".model a;.names", " x", 256, ";.latch")?;
    assert_eq!(rt;
        read.bytes(),
        "# fault network 8 Missing line 3 .latch\n".as_bytes()
    );
    Ok(())
}

#[test]
fn one_row_too_many_is_told(rt: HostRuntime) -> Result<(), Fail> {
    let alloc = rt.alloc();
    let told = said_of_many(alloc, ".model a;.names x", ";1", 65_537, ";.latch")?;
    assert_eq!(rt;
        told.bytes(),
        "# fault network 21 Limit line 65539 TableLines 65537\n".as_bytes()
    );
    let read = said_of_many(alloc, ".model a;.names x", ";1", 65_536, ";.latch")?;
    assert_eq!(rt;
        read.bytes(),
        "# fault network 8 Missing line 65539 .latch\n".as_bytes()
    );
    Ok(())
}
