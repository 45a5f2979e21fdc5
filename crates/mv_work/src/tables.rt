ghost use Rattle.std.specs.Prelude.{◌≡◌, ◌+◌, ◌<◌, ◌≤◌, ◌^◌, ◌∷◌, ◌++◌, [], length, map, slice_index, OnOk, IfOk, All};
ghost use Rattle.mv_work.specs.Work.{fanin_drawn, fanins_drawn, table_drawn, count_text, columns_text, default_text, table_text};

use crate::drawing::draw;
use crate::rows::add_rows;
use crate::texts::{add_name, add_names, add_number};
use mv_base::Memory;
use rand_pcg::Pcg32;
use std::alloc::Global;

/// Of how many nets, the last ones, a fanin is drawn.
const NEAR: u32 = 32;
/// How many fanins are drawn for a table.
const FANINS: u32 = 3;

/// Draws a fanin from so many nets: its place.
#[tactic(auto, unfolding(crate::specs::Work::fanin_drawn))]
fn draw_fanin(nets: u32, random: &mut Pcg32) -> u32
    requires { 0 < nets }
    ensures below { result < nets }
    ensures value { result ≡ (fanin_drawn nets random.old).value }
    ensures rest { random.new ≡ (fanin_drawn nets random.old).rest }
{
    nets - 1 - draw(random, nets.min(NEAR))
}

/// Draws the fanins of a table from so many nets: their places.
#[tactic(auto, unfolding(crate::specs::Work::fanins_drawn))]
fn draw_fanins(alloc: Global, nets: u32, random: &mut Pcg32) -> Result<Vec<u32>, Memory>
    requires { 0 < nets }
    ensures below { IfOk result (λ fanins. All (λ p. p < nets) fanins.items) }
    ensures value { IfOk result (λ fanins. fanins.items ≡ (fanins_drawn nets random.old).value) }
    ensures rest { OnOk result (random.new ≡ (fanins_drawn nets random.old).rest) }
{
    let mut fanins = Vec::new(alloc);
    'fanins: for _ in 0..FANINS {
        let place = draw_fanin(nets, random);
        if fanins.contains(&place) {
            continue;
        }
        fanins.push(place)?;
    }
    Ok(fanins)
}

/// How many values each of these nets has.
fn counts_at(alloc: Global, counts: &[u32], places: &[u32]) -> Result<Vec<u32>, Memory>
    requires places { All (λ p. p < length counts.now) places.now }
    requires counts { All (λ n. 0 < n) counts.now }
    ensures positive { IfOk result (λ found. All (λ n. 0 < n) found.items) }
    ensures value { IfOk result (λ found. found.items ≡ map (slice_index counts.now) places.now) }
{
    let mut found = Vec::new(alloc);
    for place in places {
        found.push(counts[*place as usize])?;
    }
    Ok(found)
}

/// Adds the line that says how many values a net has, if they aren't two.
#[tactic(auto, unfolding(crate::specs::Work::count_text))]
fn add_count(place: u32, values: u32, text: &mut Vec<u8>) -> Result<(), Memory>
    ensures { OnOk result (text.new.items ≡ text.old.items ++ count_text place values) }
{
    if values == 2 {
        return Ok(());
    }
    text.extend_from_slice(b".mv ")?;
    add_name(place, text)?;
    text.extend_from_slice(b" ")?;
    add_number(values, text)?;
    text.extend_from_slice(b"\n")?;
    Ok(())
}

/// Adds the line of a table's columns.
#[tactic(auto, unfolding(crate::specs::Work::columns_text))]
fn add_columns(place: u32, fanins: &[u32], text: &mut Vec<u8>) -> Result<(), Memory>
    ensures { OnOk result (text.new.items ≡ text.old.items ++ columns_text place fanins.now) }
{
    text.extend_from_slice(b".table")?;
    add_names(fanins, text)?;
    text.extend_from_slice(b" -> ")?;
    add_name(place, text)?;
    text.extend_from_slice(b"\n")?;
    Ok(())
}

/// Adds the line of a table's default.
#[tactic(auto, unfolding(crate::specs::Work::default_text))]
fn add_default(value: u32, text: &mut Vec<u8>) -> Result<(), Memory>
    ensures { OnOk result (text.new.items ≡ text.old.items ++ default_text value) }
{
    text.extend_from_slice(b".default ")?;
    add_number(value, text)?;
    text.extend_from_slice(b"\n")?;
    Ok(())
}

/// Draws a table behind nets that have these numbers of values, adds its lines, and answers how many values its net has.
#[tactic(auto, unfolding(crate::specs::Work::table_drawn, crate::specs::Work::table_text))]
pub fn add_table(
    alloc: Global,
    counts: &[u32],
    random: &mut Pcg32,
    text: &mut Vec<u8>,
) -> Result<u32, Memory>
    requires some { 0 < length counts.now }
    requires few { length counts.now < 2 ^ 32 }
    requires counts { All (λ n. 0 < n) counts.now }
    ensures positive { IfOk result (λ values. 0 < values) }
    ensures values { IfOk result
        (λ values. values ≡ (table_drawn counts.now random.old).value.values) }
    ensures text { OnOk result
        (text.new.items ≡ text.old.items ++ table_text (table_drawn counts.now random.old).value) }
    ensures rest { OnOk result (random.new ≡ (table_drawn counts.now random.old).rest) }
{
    let place = counts.len() as u32;
    let values = 2 + draw(random, 3);
    let fanins = draw_fanins(alloc, place, random)?;
    let default = draw(random, values);
    let size = 2 + draw(random, 3);
    add_count(place, values, text)?;
    add_columns(place, &fanins, text)?;
    add_default(default, text)?;
    let of_fanins = counts_at(alloc, counts, &fanins)?;
    add_rows(size, &of_fanins, values, random, text)?;
    Ok(values)
}
