//! The texts of small networks, which were drawn by a program in another language, and a summary.
use mv_base::MemorySink;
use mv_work::{Summary, put_summary, work_text};
use std::alloc::Global;
use std::test::Fail;

/// Two tables: of three values and of two, with a fanin that was drawn again, and outputs of which a second value was
/// drawn, once another one and once the same.
const TWO_TABLES: &[u8] = b".model work
.inputs i0 i1 i2 i3 i4 i5 i6 i7 i8 i9 i10 i11 i12 i13 i14 i15
.outputs g0 g1
.mv g0 3
.table i2 i8 i12 -> g0
.default 1
1 1 - 0
- - - (1,2)
.table g0 i7 -> g1
.default 1
- 0 0
- 0 0
2 - 1
.end
";

/// How each network with one table begins.
const ONE_TABLE: &[u8] = b".model work
.inputs i0 i1 i2 i3 i4 i5 i6 i7 i8 i9 i10 i11 i12 i13 i14 i15
.outputs g0
";

/// How each network with twelve tables begins.
const TWELVE_TABLES: &[u8] = b".model work
.inputs i0 i1 i2 i3 i4 i5 i6 i7 i8 i9 i10 i11 i12 i13 i14 i15
.outputs g4 g5 g6 g7 g8 g9 g10 g11
";

#[test]
fn a_text_is_drawn(rt: HostRuntime) -> Result<(), Fail> {
    let text = work_text(rt.alloc(), 2, 55173)?;
    assert_eq!(rt; text.as_slice(), TWO_TABLES);
    Ok(())
}

#[test]
fn the_last_nets_are_outputs(rt: HostRuntime) -> Result<(), Fail> {
    let one = work_text(rt.alloc(), 1, 7)?;
    assert!(rt; one.starts_with(ONE_TABLE));
    let twelve = work_text(rt.alloc(), 12, 7)?;
    assert!(rt; twelve.starts_with(TWELVE_TABLES));
    Ok(())
}

/// A sink with room for a summary.
fn sink(alloc: Global) -> Result<MemorySink, Fail> {
    Ok(MemorySink::new(alloc, 100, Vec::new(alloc))?)
}

#[test]
fn a_summary_is_put(rt: HostRuntime) -> Result<(), Fail> {
    let summary = Summary {
        nets: 316,
        literals_before: 2415,
        literals_after: 1980,
        commands: 5,
        rules: 123,
        dropped: 0,
    };
    let mut out = sink(rt.alloc())?;
    assert_eq!(rt; put_summary(&summary, &mut out), Ok(()));
    assert_eq!(rt;
        out.bytes(),
        b"nets 316\nliterals 2415 1980\ncommands 5\nrules 123\ndropped 0\n".as_slice()
    );
    Ok(())
}
