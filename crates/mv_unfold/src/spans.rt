//! Which nets of an instance's model are its own: those that aren't bound formals.
ghost use Rattle.std.specs.Prelude.{◌≡◌, ◌<◌, ◌++◌, All, length, IfOk, OnOk};
ghost use Rattle.std.specs.List.{flat_map};
ghost use Rattle.std.specs.List.Sorted.{IsNonDecreasing};
ghost use Rattle.mv_unfold.specs.Locals.{AreBetween, AreOwn, span_between, stop_of};

use mv_base::{Items, Memory, NameSet};
use mv_design::Bind;
use std::alloc::Global;

/// The numbers from a start up to an end: one of them at least.
#[derive(Clone, Copy, Debug, PartialEq, Eq)]
pub struct Span {
    pub start: usize,
    pub end: usize,
}

/// The nets of an instance's model that aren't bound, by number. The time grows with the bindings, and not with the nets.
#[tactic(auto, using(crate::proofs::Owned::owned))]
pub fn own_spans(alloc: Global, nets: &NameSet, binds: &[Bind]) -> Result<Items<Span>, Memory>
    ensures { IfOk result (λ spans. AreOwn nets.now binds.now spans) }
{
    nets.distinct();
    let mut stops = stops(alloc, nets, binds)?;
    stops.sort_unstable();
    spans_between(alloc, stops.as_slice(), nets.len())
}

/// The numbers of the formals that are bound.
fn stops(alloc: Global, nets: &NameSet, binds: &[Bind]) -> Result<Vec<usize>, Memory>
    ensures { IfOk result (λ stops. stops.items ≡ flat_map (stop_of nets.now) binds.now) }
{
    let mut stops = Vec::with_capacity(alloc, binds.len())?;
    for bind in binds {
        if let Some(place) = nets.place(&bind.formal) {
            stops.push(place)?;
        }
    }
    Ok(stops)
}

/// The numbers below a count, but for these.
fn spans_between(alloc: Global, stops: &[usize], count: usize) -> Result<Items<Span>, Memory>
    requires ascending { IsNonDecreasing stops.now }
    requires below { All (λ stop. stop < count) stops.now }
    ensures { IfOk result (λ spans. AreBetween stops.now count spans) }
{
    let mut spans = Items::new(alloc);
    let mut start = 0;
    for stop in stops {
        add_span(&mut spans, start, *stop)?;
        start = *stop + 1;
    }
    add_span(&mut spans, start, count)?;
    Ok(spans)
}

/// Adds the numbers from a start up to an end, if there are any.
fn add_span(spans: &mut Items<Span>, start: usize, end: usize) -> Result<(), Memory>
    ensures { OnOk result (spans.new ≡ spans.old ++ span_between start end) }
{
    if start < end {
        spans.push(Span { start, end })?;
    }
    Ok(())
}
