//! Which lines of a cover are left when each goes that the others can do without.
ghost use Rattle.std.specs.Prelude.{◌≡◌, ◌++◌, nat_lt, ℕ, true, if◌then◌else◌, [], ◌∷◌, Some, All, IfOk, IfErr, OnOk, length};
ghost use Rattle.std.specs.List.{list_all};
ghost use Rattle.mv_cover.specs.Covers.{cover_reads};
ghost use Rattle.mv_cover.specs.declared.cover.Cover.{Cover};
ghost use Rattle.mv_net.specs.Nets.{slot, table_in};
ghost use Rattle.mv_net.specs.declared.parts.NetParts.{NetParts};
ghost use Rattle.mv_net.specs.declared.window.Window.{Window};
ghost use Rattle.mv_flex.specs.Flex.{IsOverFanins, IsLaterStop};
ghost use Rattle.mv_flex.specs.Flexibilities.{IsFlex};
ghost use Rattle.mv_flex.specs.Left.{AreLeft, IsLineInside, LeavesLawful};
ghost use Rattle.mv_flex.specs.Places.{space_for, place, needs_at, needs, ArePlaces, are_matched, times_matched, all_times, one_less, less_by};
ghost use Rattle.mv_flex.specs.Spaces.{value_at};

use crate::allow::{all_hold, chooses, default_chooses, default_gives};
use crate::space::{Space, value_at};
use crate::{FlexStop, Flexibility};
use mv_base::{Items, Memory, NetId, PackedSet, Value};
use mv_cover::{Cover, Line};
use std::alloc::Global;

impl Flexibility {
    /// The lines of the cover that are left when they are taken in order, and each goes whose absence leaves the rest, with the
    /// default, lawful.
    pub fn lines_left(&self, cover: &Cover) -> Result<Items<Line>, FlexStop>
        ensures ok { IfOk result (λ left. (net : NetParts) (w : Window) (n budget : ℕ)
            → IsFlex net w n budget self.now → IsOverFanins net.nets n (cover_reads cover.now)
            → All (IsLineInside net.nets w n) cover.now.lines → (old : Cover)
            → table_in (slot net.nets n) ≡ Some old
            → LeavesLawful net.nets w n old cover.now left) }
        ensures err { IfErr result (λ stop. (net : NetParts) (w : Window) (n budget : ℕ)
            → IsFlex net w n budget self.now → IsLaterStop net w budget stop) }
    {
        let places = self.places(&cover.default)?;
        let nets = self.space_for(&cover.default).nets();
        let alloc = self.outside.allocator();
        Ok(lines_matching(alloc, nets, places.as_slice(), cover.lines.as_slice())?)
    }

    /// The values of the places at which some line has to match beside this default.
    fn places(&self, default: &Option<PackedSet>) -> Result<Items<Items<u16>>, Memory>
        ensures { IfOk result (λ places.
            ArePlaces self.now default.now (space_for self.now default.now).size places) }
    {
        let mut places = Items::new(self.outside.allocator());
        for number in 0..self.space_for(default).size() {
            self.put_place(default, number, &mut places)?;
        }
        Ok(places)
    }

    /// What the places are numbered by.
    fn space_for(&self, default: &Option<PackedSet>) -> &Space
        ensures { result.now ≡ space_for self.now default.now }
    {
        if default_chooses(default) {
            &self.pairs
        } else {
            &self.fanins
        }
    }

    /// Puts the values of the place with this number behind the others, if some line has to match there.
    fn put_place(
        &self,
        default: &Option<PackedSet>,
        number: u64,
        places: &mut Items<Items<u16>>,
    ) -> Result<(), Memory>
        ensures { OnOk result (places.new ≡ places.old
            ++ (if needs self.now default.now number
            then place self.now default.now number ∷ [] else [])) }
    {
        let mut values = Vec::new(self.outside.allocator());
        self.space_for(default).put(number, &mut values)?;
        if self.needs_at(default, number, values.as_slice()) {
            places.push(Items::of(values))?;
        }
        Ok(())
    }

    /// Whether some line has to match at the place with this number, where its nets have these values.
    fn needs_at(&self, default: &Option<PackedSet>, number: u64, values: &[u16]) -> bool
        ensures { result ≡ needs_at self.now default.now number
            (value_at (space_for self.now default.now).nets values.now) }
    {
        if default_chooses(default) {
            let value = value_at(self.pairs.nets(), values, self.net);
            return self.is_outside(number) && default_gives(default, Value(value));
        }
        chooses(self.fanins.nets(), values, &self.old)
    }
}

/// The lines that are left when they are taken in order, and each goes without which some line matches at each of the places.
fn lines_matching(
    alloc: Global,
    nets: &[NetId],
    places: &[Items<u16>],
    lines: &[Line],
) -> Result<Items<Line>, Memory>
    ensures { IfOk result (λ left.
        AreLeft (λ some. are_matched nets.now places.now some ≡ true) [] lines.now left) }
{
    let mut counts = all_times(alloc, nets, places, lines)?;
    let mut left = Items::new(alloc);
    for line in lines {
        let rest = less_by(alloc, nets, line, places, counts.as_slice())?;
        if all_some(rest.as_slice()) {
            counts = rest;
        } else {
            left.push(line.copy()?)?;
        }
    }
    Ok(left)
}

/// How many of the lines match, at each of the places.
fn all_times(
    alloc: Global,
    nets: &[NetId],
    places: &[Items<u16>],
    lines: &[Line],
) -> Result<Vec<usize>, Memory>
    ensures { IfOk result (λ counts. counts.items ≡ all_times nets.now lines.now places.now) }
{
    let mut counts = Vec::with_capacity(alloc, places.len())?;
    for values in places {
        counts.push(times_matched(nets, values.as_slice(), lines))?;
    }
    Ok(counts)
}

/// How many of the lines match where these nets have these values.
fn times_matched(nets: &[NetId], values: &[u16], lines: &[Line]) -> usize
    ensures { result ≡ times_matched nets.now lines.now values.now }
{
    lines
        .iter()
        .filter(|line| all_hold(nets, values, line.cube.lits()))
        .count()
}

/// These counts of the places, each less by one where the line matches.
fn less_by(
    alloc: Global,
    nets: &[NetId],
    line: &Line,
    places: &[Items<u16>],
    counts: &[usize],
) -> Result<Vec<usize>, Memory>
    requires { length counts.now ≡ length places.now }
    ensures { IfOk result (λ rest. rest.items ≡ less_by nets.now line.now places.now counts.now) }
{
    let mut rest = Vec::with_capacity(alloc, places.len())?;
    for (place, values) in places.iter().enumerate() {
        rest.push(one_less(nets, line, values.as_slice(), counts[place]))?;
    }
    Ok(rest)
}

/// The count, less by one where the line matches.
fn one_less(nets: &[NetId], line: &Line, values: &[u16], count: usize) -> usize
    ensures { result ≡ one_less nets.now line.now values.now count }
{
    if all_hold(nets, values, line.cube.lits()) {
        return count.saturating_sub(1);
    }
    count
}

/// Whether no count is zero.
fn all_some(counts: &[usize]) -> bool
    ensures { result ≡ list_all (nat_lt 0) counts.now }
{
    counts.iter().all(|count| *count > 0)
}
