ghost use Rattle.std.specs.Prelude.{◌≡◌, ◌+◌, ◌≤◌, ◌++◌, OnOk, IfOk, flat_map};
ghost use Rattle.mv_work.specs.Work.{table_text, tables_drawn, head_text, work_text};

use crate::drawing::generator;
use crate::tables::add_table;
use crate::texts::{INPUTS, add_range};
use mv_base::Memory;
use rand_pcg::Pcg32;
use std::alloc::Global;

/// The fewest tables of a work network.
pub const MIN_WORK_TABLES: u32 = 1;
/// The most tables of a work network.
pub const MAX_WORK_TABLES: u32 = 20_000;

/// How many outputs a work network has, if it has as many tables: the nets of the last ones.
const OUTPUTS: u32 = 8;

/// Adds the first lines of a network of so many tables.
#[tactic(auto, unfolding(crate::specs::Work::head_text))]
fn add_head(size: u32, text: &mut Vec<u8>) -> Result<(), Memory>
    requires { size ≤ MAX_WORK_TABLES }
    ensures { OnOk result (text.new.items ≡ text.old.items ++ head_text size) }
{
    text.extend_from_slice(b".model work\n.inputs")?;
    add_range(0, INPUTS, text)?;
    text.extend_from_slice(b"\n.outputs")?;
    add_range(
        INPUTS + size.saturating_sub(OUTPUTS),
        size.min(OUTPUTS),
        text,
    )?;
    text.extend_from_slice(b"\n")?;
    Ok(())
}

/// Draws so many tables, and adds their lines.
fn add_tables(
    alloc: Global,
    size: u32,
    random: &mut Pcg32,
    text: &mut Vec<u8>,
) -> Result<(), Memory>
    requires { size ≤ MAX_WORK_TABLES }
    ensures { OnOk result
        (text.new.items
        ≡ text.old.items ++ flat_map table_text (tables_drawn size random.old).value) }
{
    let mut counts = Vec::from_slice(alloc, &[2_u32; INPUTS as usize])?;
    'tables: for _ in 0..size {
        let values = add_table(alloc, &counts, random, text)?;
        counts.push(values)?;
    }
    Ok(())
}

/// The text of the work network of `size` tables that is drawn from `seed`.
#[tactic(auto, unfolding(crate::specs::Work::work_text))]
pub fn work_text(alloc: Global, size: u32, seed: u64) -> Result<Vec<u8>, Memory>
    requires some { MIN_WORK_TABLES ≤ size }
    requires few { size ≤ MAX_WORK_TABLES }
    ensures { IfOk result (λ text. text.items ≡ work_text size seed) }
{
    let mut random = generator(seed);
    let mut text = Vec::new(alloc);
    add_head(size, &mut text)?;
    add_tables(alloc, size, &mut random, &mut text)?;
    text.extend_from_slice(b".end\n")?;
    Ok(text)
}
