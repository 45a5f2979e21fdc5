//! The widest composite.
use crate::outcome::answered;
use std::alloc::Global;
use std::test::Fail;

/// Puts so many names of a letter and a number.
fn put_names(text: &mut String, letter: &str, count: u32) -> Result<(), Fail> {
    for number in 0..count {
        write!(text, " {letter}{number}")?;
    }
    Ok(())
}

/// Puts a row of so many columns, each of which is 1.
fn put_ones(text: &mut String, columns: u32) -> Result<(), Fail> {
    for _column in 0..columns {
        text.push_str("1 ")?;
    }
    Ok(text.push_str("1;")?)
}

/// Puts a net `n` that reads so many inputs.
fn put_wide_net(text: &mut String, inputs: u32) -> Result<(), Fail> {
    text.push_str(".table")?;
    put_names(text, "a", inputs)?;
    text.push_str(" -> n;.default 0;")?;
    put_ones(text, inputs)
}

/// Puts a net `z` that reads `n` and 128 inputs.
fn put_reader(text: &mut String) -> Result<(), Fail> {
    text.push_str(".table")?;
    put_names(text, "b", 128)?;
    text.push_str(" n -> z;.default 0;")?;
    put_ones(text, 129)
}

/// The text of a network in which `n` reads so many inputs, and `z` reads `n` and 128 others.
fn wide_text(alloc: Global, inputs: u32) -> Result<String, Fail> {
    let mut text = String::new(alloc);
    text.push_str(".model w;.inputs")?;
    put_names(&mut text, "a", inputs)?;
    put_names(&mut text, "b", 128)?;
    text.push_str(";.outputs z;")?;
    put_wide_net(&mut text, inputs)?;
    put_reader(&mut text)?;
    text.push_str(".end")?;
    Ok(text)
}

/// What is answered where a net that reads so many inputs goes into a reader of 128 others.
fn collapsed(alloc: Global, inputs: u32) -> Result<String, Fail> {
    let text = wide_text(alloc, inputs)?;
    answered(alloc, text.as_str(), "collapse n")
}

/// Inputs, and what is answered.
const WIDTHS: &[(u32, &str)] = &[(127, "255=255"), (128, "Wide=Wide")];

#[test]
fn a_composite_has_at_most_255_fanins(rt: HostRuntime) -> Result<(), Fail> {
    for (inputs, wanted) in WIDTHS {
        assert_eq!(rt; collapsed(rt.alloc(), *inputs)?.as_str(), *wanted);
    }
    Ok(())
}
