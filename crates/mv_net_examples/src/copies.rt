//! Copies of lines and of designs.
use mv_lex::Lines;
use mv_parse::parse;
use mv_sample::lines;
use std::alloc::Global;
use std::test::Fail;

/// Copied lines of one model.
fn copied_lines(alloc: Global) -> Result<Lines, Fail> {
    let lines = lines(
        alloc,
        ".model m;.inputs a;.mv a z 3;.table a -> z;1 =a;.default -;.end",
    )?;
    Ok(lines.copy()?)
}

/// How many models the copy of the design of copied lines has.
fn copied_models(alloc: Global) -> Result<usize, Fail> {
    let lines = copied_lines(alloc)?;
    let design = parse(alloc, &lines)?;
    let copied = design.copy()?;
    Ok(copied.models.len())
}

#[test]
fn lines_and_a_design_are_copied(rt: HostRuntime) -> Result<(), Fail> {
    assert_eq!(rt; copied_lines(rt.alloc())?.as_slice().len(), 7);
    assert_eq!(rt; copied_models(rt.alloc())?, 1);
    Ok(())
}
