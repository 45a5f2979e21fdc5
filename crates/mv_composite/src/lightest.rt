ghost use Rattle.std.specs.Prelude.{◌≡◌, ◌∷◌, [], None, OnOk, MatchBool};
ghost use Rattle.mv_composite.specs.Takers.{least_of, IsHeavy, IsLight, KeepsLightest, PutsLight};

use crate::taker::Taker;
use crate::weight::weight_of;
use mv_base::{MAX_COMPOSED_LINES, Memory};
use mv_cover::{Absorber, Line};
use std::alloc::Global;
use std::mem;

/// The lines that are left of those taken, or the lightest of them, where they come to be far more than a composite may have:
/// from then on a line that isn't lighter than the cap is let go. No line lies in a heavier one, so that those which are kept
/// are left whatever is let go.
#[derive(Drop)]
pub struct Lightest {
    alloc: Global,
    pub left: Absorber,
    pub cap: Option<u64>,
    limit: u64,
}

impl Lightest {
    /// Begins with these lines, and without a cap.
    pub fn new(alloc: Global, left: Absorber) -> Lightest
        ensures left { result.left ≡ left }
        ensures cap { result.cap ≡ None }
    {
        Lightest {
            alloc,
            left,
            cap: None,
            limit: 2 * MAX_COMPOSED_LINES,
        }
    }

    /// Lowers the cap to a weight in the middle, and lets go of the lines that are heavier.
    fn lower(&mut self) -> Result<(), Memory>
        ensures { OnOk result
            (KeepsLightest self.old.left self.new.left self.old.cap self.new.cap []) }
    {
        let left = mem::replace(&mut self.left, Absorber::new(self.alloc)).finish(None);
        let middle = middle_weight(self.alloc, left.lines.as_slice())?;
        let cap = lesser(self.cap, middle);
        put_light(&mut self.left, left.lines.as_slice(), cap)?;
        self.cap = Some(cap);
        self.limit = MAX_COMPOSED_LINES.saturating_add(self.left.len() as u64);
        Ok(())
    }
}

impl Taker for Lightest {
    ghost use Rattle.mv_composite.specs.Takers.{KeepsLightest};
    ghost use Rattle.mv_composite.specs.TakerLaws.{keeps_none, keeps_more};

    ghost takes = { λ a b more. KeepsLightest a.left b.left a.cap b.cap more };

    ghost takes_none = { λ a. keeps_none a.left a.cap };

    ghost takes_more = { λ a b c xs ys p q. keeps_more a.left b.left c.left a.cap b.cap c.cap xs ys p q };

    fn take(&mut self, line: Line) -> Result<(), Memory> {
        if is_heavy(self.cap, &line) {
            return Ok(());
        }
        self.left.put(line)?;
        if self.left.len() as u64 <= self.limit {
            return Ok(());
        }
        self.lower()?;
        Ok(())
    }
}

/// Whether the line is no lighter than the cap, if there is one.
fn is_heavy(cap: Option<u64>, line: &Line) -> bool
    ensures { MatchBool result (IsHeavy cap line.now) (IsLight cap line.now) }
{
    match cap {
        None => false,
        Some(cap) => weight_of(line) >= cap,
    }
}

/// A weight than which no more lines are lighter than a composite may have, and one more isn't heavier. Another would do, but
/// for the time.
fn middle_weight(alloc: Global, lines: &[Line]) -> Result<u64, Memory> {
    let mut weights = Vec::new(alloc);
    for line in lines {
        weights.push(weight_of(line))?;
    }
    weights.sort()?;
    Ok(
        weights
            .get(MAX_COMPOSED_LINES as usize)
            .copied()
            .unwrap_or(0),
    )
}

/// Puts the lines that are no heavier than the cap.
fn put_light(left: &mut Absorber, lines: &[Line], cap: u64) -> Result<(), Memory>
    ensures { OnOk result (PutsLight cap left.old left.new lines.now) }
{
    for line in lines {
        put_if_light(left, line, cap)?;
    }
    Ok(())
}

/// Puts the line if it is no heavier than the cap.
fn put_if_light(left: &mut Absorber, line: &Line, cap: u64) -> Result<(), Memory>
    ensures { OnOk result (PutsLight cap left.old left.new (line.now ∷ [])) }
{
    if weight_of(line) > cap {
        return Ok(());
    }
    left.put(line.copy()?)?;
    Ok(())
}

/// The lesser of both, or the second where there is no first.
fn lesser(first: Option<u64>, second: u64) -> u64
    ensures { result ≡ least_of first second }
{
    match first {
        Some(first) if first < second => first,
        _ => second,
    }
}
