ghost use Rattle.std.specs.Prelude.{◌≡◌, ◌+◌, ◌*◌, ◌≤◌, min, IfOk};
ghost use Rattle.mv_base.specs.declared.limits.TheConstants.{MAX_SCRIPT_COMMANDS as most_commands};
ghost use Rattle.mv_script.specs.Scripts.{items_of, commands_in, item_counts, passing};
ghost use Rattle.mv_script.specs.Private.{all_capped};

use crate::Script;
use mv_base::{Items, MAX_SCRIPT_COMMANDS, Memory};
use std::alloc::Global;

/// A number, or one more than the most commands that a script may have, where it is larger.
fn capped(count: u64) -> u64
    ensures { result ≡ min count (most_commands + 1) }
{
    count.min(MAX_SCRIPT_COMMANDS + 1)
}

/// How many commands the script has, unfolded; one more than a script may have stands for all larger numbers.
fn commands(script: &Script) -> u64
    ensures { result ≡ min (commands_in (items_of script.now)) (most_commands + 1) }
{
    let mut count = 0;
    let mut items = script;
    loop {
        match items {
            Script::End => return count,
            Script::Do(_, rest) => {
                count = capped(count + 1);
                items = rest;
            }
            Script::Repeat(times, inside, rest) => {
                count = capped(count + *times as u64 * commands(inside));
                items = rest;
            }
            Script::Better(inside, rest) => {
                count = capped(count + commands(inside));
                items = rest;
            }
        }
    }
}

/// How many commands each item has that stands in no braces, unfolded; one more than a script may have stands for all larger
/// numbers.
#[tactic(auto, using(crate::proofs::Counts::times_capped))]
fn item_counts(alloc: Global, script: &Script) -> Result<Items<u64>, Memory>
    ensures { IfOk result (λ counts. counts ≡ all_capped (item_counts (items_of script.now))) }
{
    let mut counts = Items::new(alloc);
    let mut items = script;
    loop {
        match items {
            Script::End => return Ok(counts),
            Script::Do(_, rest) => {
                counts.push(1)?;
                items = rest;
            }
            Script::Repeat(times, inside, rest) => {
                counts.push(capped(*times as u64 * commands(inside)))?;
                items = rest;
            }
            Script::Better(inside, rest) => {
                counts.push(commands(inside))?;
                items = rest;
            }
        }
    }
}

/// The place that stands beside the number with which these first pass the limit together, if they do.
#[tactic(auto, using(crate::proofs::Counts::passes))]
fn passing(counts: &[u64], places: &[u64]) -> Option<u64>
    ensures { result ≡ passing 0 counts.now places.now }
{
    let mut count = 0_u64;
    for (at, place) in places.iter().enumerate() {
        let Some(more) = counts.get(at) else {
            return None;
        };
        count = count.saturating_add(*more);
        if count > MAX_SCRIPT_COMMANDS {
            return Some(*place);
        }
    }
    None
}

/// Where the script first has too many commands: the place of the first item that stands in no braces with which they pass the
/// limit. The places are those of these items.
#[tactic(auto, using(crate::proofs::Counts::passing_capped))]
pub fn too_many(alloc: Global, script: &Script, places: &[u64]) -> Result<Option<u64>, Memory>
    ensures { IfOk result
        (λ place. place ≡ passing 0 (item_counts (items_of script.now)) places.now) }
{
    let counts = item_counts(alloc, script)?;
    Ok(passing(counts.as_slice(), places))
}
