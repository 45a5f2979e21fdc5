ghost use Rattle.std.specs.Prelude.{◌≡◌, ◌<◌, ◌++◌, OnOk, All, flat_map};
ghost use Rattle.mv_work.specs.Drawing.{each, several};
ghost use Rattle.mv_work.specs.Work.{entry_drawn, second_drawn, row_drawn, entry_text, output_text, row_text};

use crate::drawing::draw;
use crate::texts::add_number;
use mv_base::Memory;
use rand_pcg::Pcg32;

/// Draws an entry for a fanin of so many values, and adds it with a blank.
#[tactic(auto, unfolding(crate::specs::Work::entry_drawn, crate::specs::Work::entry_text))]
fn add_entry(values: u32, random: &mut Pcg32, text: &mut Vec<u8>) -> Result<(), Memory>
    requires { 0 < values }
    ensures text { OnOk result
        (text.new.items ≡ text.old.items ++ entry_text (entry_drawn values random.old).value) }
    ensures rest { OnOk result (random.new ≡ (entry_drawn values random.old).rest) }
{
    if draw(random, 2) != 0 {
        text.extend_from_slice(b"- ")?;
        return Ok(());
    }
    add_number(draw(random, values), text)?;
    text.extend_from_slice(b" ")?;
    Ok(())
}

/// Draws an entry for each fanin, of which these are the numbers of values, and adds them.
fn add_entries(counts: &[u32], random: &mut Pcg32, text: &mut Vec<u8>) -> Result<(), Memory>
    requires { All (λ n. 0 < n) counts.now }
    ensures text { OnOk result
        (text.new.items
        ≡ text.old.items ++ flat_map entry_text (each entry_drawn counts.now random.old).value) }
    ensures rest { OnOk result (random.new ≡ (each entry_drawn counts.now random.old).rest) }
{
    for values in counts {
        add_entry(*values, random, text)?;
    }
    Ok(())
}

/// Draws a second value of an output behind its first one, or none.
#[tactic(auto, unfolding(crate::specs::Work::second_drawn))]
fn draw_second(values: u32, first: u32, random: &mut Pcg32) -> Option<u32>
    requires { 0 < values }
    ensures value { result ≡ (second_drawn values first random.old).value }
    ensures rest { random.new ≡ (second_drawn values first random.old).rest }
{
    if draw(random, 16) != 0 {
        return None;
    }
    let second = draw(random, values);
    if second == first {
        return None;
    }
    Some(second)
}

/// Adds the output of a row.
#[tactic(auto, unfolding(crate::specs::Work::output_text))]
fn add_output(first: u32, second: Option<u32>, text: &mut Vec<u8>) -> Result<(), Memory>
    ensures { OnOk result (text.new.items ≡ text.old.items ++ output_text first second) }
{
    let Some(second) = second else {
        return add_number(first, text);
    };
    text.extend_from_slice(b"(")?;
    add_number(first, text)?;
    text.extend_from_slice(b",")?;
    add_number(second, text)?;
    text.extend_from_slice(b")")?;
    Ok(())
}

/// Draws a row of a table with so many values, whose fanins have these numbers of values, and adds its line.
#[tactic(auto, unfolding(crate::specs::Work::row_drawn, crate::specs::Work::row_text))]
fn add_row(
    counts: &[u32],
    values: u32,
    random: &mut Pcg32,
    text: &mut Vec<u8>,
) -> Result<(), Memory>
    requires counts { All (λ n. 0 < n) counts.now }
    requires values { 0 < values }
    ensures text { OnOk result
        (text.new.items
        ≡ text.old.items ++ row_text (row_drawn counts.now values random.old).value) }
    ensures rest { OnOk result (random.new ≡ (row_drawn counts.now values random.old).rest) }
{
    add_entries(counts, random, text)?;
    let first = draw(random, values);
    let second = draw_second(values, first, random);
    add_output(first, second, text)?;
    text.extend_from_slice(b"\n")?;
    Ok(())
}

/// Draws so many rows, and adds their lines.
pub fn add_rows(
    size: u32,
    counts: &[u32],
    values: u32,
    random: &mut Pcg32,
    text: &mut Vec<u8>,
) -> Result<(), Memory>
    requires counts { All (λ n. 0 < n) counts.now }
    requires values { 0 < values }
    ensures text { OnOk result (text.new.items ≡ text.old.items
        ++ flat_map row_text (several (row_drawn counts.now values) size random.old).value) }
    ensures rest { OnOk result
        (random.new ≡ (several (row_drawn counts.now values) size random.old).rest) }
{
    'rows: for _ in 0..size {
        add_row(counts, values, random, text)?;
    }
    Ok(())
}
