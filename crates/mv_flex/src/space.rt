ghost use Rattle.std.specs.Prelude.{◌≡◌, ℕ, ◌+◌, ◌<◌, ◌^◌, ◌++◌, List, All, OnOk, IfOk, length, take, drop, slice_index_or};
ghost use Rattle.mv_net.specs.Searching.{AreHeld};
ghost use Rattle.mv_flex.specs.Spaces.{value_at, placed, ways, digits, next, code, AreBelow, IsCounted};
ghost use Rattle.mv_flex.specs.Plans.{counts_of, values_of, IsSpace};

use mv_base::{Items, Memory, NetId};
use mv_net::Network;
use std::alloc::Global;
use std::marker::Model;

/// Nets with their numbers of values, and in how many ways they can have values. Lists of their values are numbered.
#[derive(Debug, Drop)]
pub struct Space {
    nets: Items<NetId>,
    counts: Items<u16>,
    size: u64,
}

impl Model for Space {
    ghost use Rattle.mv_flex.specs.Spaces.{NetSpace, IsCounted};

    ghost Value = { NetSpace };

    ghost view = { λ s. record { nets = s.nets; counts = s.counts; size = s.size } };

    ghost invariant = { λ s. IsCounted s.counts s.size };
}

impl Space {
    /// The space of these held nets.
    pub fn of(net: &Network, nets: Items<NetId>) -> Result<Space, Memory>
        requires held { AreHeld net.now.nets nets }
        requires few { ways (counts_of net.now.nets nets) < 2 ^ 64 }
        ensures { IfOk result (λ s. IsSpace net.now.nets nets s) }
    {
        let counts = counts_of(net, nets.as_slice())?;
        net.well_formed();
        let size = ways(counts.as_slice());
        Ok(Space { nets, counts, size })
    }

    /// The nets.
    pub fn nets(&self) -> &[NetId]
        ensures { result.now ≡ self.now.nets }
    {
        self.nets.as_slice()
    }

    /// In how many ways they can have values.
    pub fn size(&self) -> u64
        ensures { result ≡ self.now.size }
    {
        self.size
    }

    /// The numbers of values are those that nets may have.
    pub fn counted(&self)
        ensures { IsCounted self.now.counts self.now.size }
    {
        let _size = self.size;
    }

    /// Puts the values with this number behind the others.
    pub fn put(&self, number: u64, values: &mut Vec<u16>) -> Result<(), Memory>
        ensures { OnOk result
            (values.new.items ≡ values.old.items ++ digits self.now.counts number) }
    {
        put_digits(self.counts.as_slice(), number, values)
    }

    /// Gives the values behind the first ones their next number.
    pub fn step(&self, from: usize, values: &mut Vec<u16>)
        requires { length values.old.items ≡ from + length self.now.counts }
        ensures { values.new.items
            ≡ take from values.old.items ++ next self.now.counts (drop from values.old.items) }
    {
        step(self.counts.as_slice(), from, values);
    }

    /// The number of the values at these places.
    pub fn number(&self, places: &[usize], values: &[u16]) -> u64
        requires { AreBelow self.now.counts (placed places.now values.now) }
        ensures value { result ≡ code self.now.counts (placed places.now values.now) }
        ensures low { result < self.now.size }
    {
        let _size = self.size;
        number(self.counts.as_slice(), places, values)
    }
}

/// The numbers of values of these nets.
fn counts_of(net: &Network, nets: &[NetId]) -> Result<Items<u16>, Memory>
    requires { AreHeld net.now.nets nets.now }
    ensures { IfOk result (λ counts. counts ≡ counts_of net.now.nets nets.now) }
{
    let mut counts = Items::new(net.parts().nets.allocator());
    for held in nets {
        counts.push(net.values(*held))?;
    }
    Ok(counts)
}

/// In how many ways nets of these numbers of values can have values.
fn ways(counts: &[u16]) -> u64
    requires some { All (λ c. 0 < c) counts.now }
    requires few { ways counts.now < 2 ^ 64 }
    ensures { result ≡ ways counts.now }
{
    let mut product: u64 = 1;
    for count in counts {
        product *= *count as u64;
    }
    product
}

/// The value of a net where these nets have these values; 0 for a net that isn't one of them.
#[tactic(auto, using(crate::proofs::Numbering::value_at_looking))]
pub fn value_at(nets: &[NetId], values: &[u16], net: NetId) -> u16
    ensures { result ≡ value_at nets.now values.now net.0 }
{
    for (place, held) in nets.iter().enumerate() {
        if *held == net {
            return value_in(values, place);
        }
    }
    0
}

/// The value at a place, and 0 past the last.
fn value_in(values: &[u16], place: usize) -> u16
    ensures { result ≡ slice_index_or values.now place 0 }
{
    match values.get(place) {
        Some(value) => *value,
        None => 0,
    }
}

/// Puts the values with this number behind the others.
#[tactic(auto, using(crate::proofs::Numbering::digits_more))]
fn put_digits(counts: &[u16], number: u64, values: &mut Vec<u16>) -> Result<(), Memory>
    requires { All (λ c. 0 < c) counts.now }
    ensures { OnOk result (values.new.items ≡ values.old.items ++ digits counts.now number) }
{
    let mut rest = number;
    for count in counts {
        let ways = *count as u64;
        values.push((rest % ways) as u16)?;
        rest /= ways;
    }
    Ok(())
}

/// Gives the values behind the first ones their next number.
fn step(counts: &[u16], from: usize, values: &mut Vec<u16>)
    requires { length values.old.items ≡ from + length counts.now }
    ensures { values.new.items
        ≡ take from values.old.items ++ next counts.now (drop from values.old.items) }
{
    for (place, count) in counts.iter().enumerate() {
        let more = values[from + place] as u32 + 1;
        if more < *count as u32 {
            values[from + place] = more as u16;
            return;
        }
        values[from + place] = 0;
    }
}

/// The number of the values at these places.
fn number(counts: &[u16], places: &[usize], values: &[u16]) -> u64
    requires below { AreBelow counts.now (placed places.now values.now) }
    requires some { All (λ c. 0 < c) counts.now }
    requires few { ways counts.now < 2 ^ 64 }
    ensures { result ≡ code counts.now (placed places.now values.now) }
{
    let mut number: u64 = 0;
    let mut weight: u64 = 1;
    for (place, count) in counts.iter().enumerate() {
        let value = value_in(values, places[place]);
        number += value as u64 * weight;
        weight *= *count as u64;
    }
    number
}

/// Where a net's value stands in lists of values of these nets; past the last for a net that isn't one of them.
#[tactic(auto, using(crate::proofs::Numbering::value_at_looking))]
fn place_of(nets: &[NetId], net: NetId) -> usize
    ensures { (vs : List ℕ) → length vs ≡ length nets.now
        → slice_index_or vs result 0 ≡ value_at nets.now vs net.0 }
{
    for (place, held) in nets.iter().enumerate() {
        if *held == net {
            return place;
        }
    }
    nets.len()
}

/// Where the values of some nets stand in lists of values of these.
pub fn places_of(nets: &[NetId], some: &[NetId], alloc: Global) -> Result<Items<usize>, Memory>
    ensures { IfOk result (λ places. (vs : List ℕ) → length vs ≡ length nets.now
        → placed places vs ≡ values_of (value_at nets.now vs) some.now) }
{
    let mut places = Items::new(alloc);
    for net in some {
        places.push(place_of(nets, *net))?;
    }
    Ok(places)
}
