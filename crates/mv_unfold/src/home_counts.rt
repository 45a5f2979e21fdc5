//! How often each net of the whole is driven.
ghost use Rattle.std.specs.Prelude.{◌≡◌, ◌≤◌, ◌++◌, ℕ, List, All, map, length, IfOk, OnOk};
ghost use Rattle.std.specs.List.{flat_map};
ghost use Rattle.mv_tree.specs.Places.{homes};
ghost use Rattle.mv_unfold.specs.Driven.{AreSized, AreTold, place_counts};
ghost use Rattle.mv_unfold.specs.Laid.{IsLaid, places_of};
ghost use Rattle.mv_unfold.specs.Locals.{IsSpan, cut};

use crate::counts::slot;
use crate::layout::Layout;
use crate::spans::Span;
use mv_base::{Items, Memory};
use std::alloc::Global;

/// The counts of all nets in unfolding order, from those of each model and of the root.
pub fn home_counts(
    alloc: Global,
    layout: &Layout<'_>,
    slots: &[Option<Items<u8>>],
    root: &[u8],
) -> Result<Vec<u8>, Memory>
    requires laid { IsLaid layout.now }
    requires sized { AreSized layout.now slots.now root.now }
    ensures { IfOk result
        (λ counts. (tells : List ℕ → ℕ) → AreTold layout.now slots.now root.now tells
        → counts.items ≡ map tells (homes (places_of layout.now))) }
{
    let mut counts = Vec::new(alloc);
    for number in 0..layout.models.len() {
        add_spans(
            &mut counts,
            counts_at(layout, slots, root, number),
            layout.own(number),
        )?;
    }
    Ok(counts)
}

/// The counts of the nets of a place's model.
fn counts_at<'a>(
    layout: &Layout<'_>,
    slots: &'a [Option<Items<u8>>],
    root: &'a [u8],
    number: usize,
) -> &'a [u8]
    requires laid { IsLaid layout.now }
    requires number { number ≤ length layout.now.opened.now }
    ensures { result.now ≡ place_counts layout.now slots.now root.now number }
{
    if number == 0 {
        return root;
    }
    slot(slots, layout.models.as_slice()[number])
}

/// Adds the counts at the numbers of these spans.
fn add_spans(counts: &mut Vec<u8>, inner: &[u8], spans: &[Span]) -> Result<(), Memory>
    requires { All (IsSpan (length inner.now)) spans.now }
    ensures { OnOk result
        (counts.new.items ≡ counts.old.items ++ flat_map (cut inner.now) spans.now) }
{
    for span in spans {
        counts.extend_from_slice(&inner[span.start..span.end])?;
    }
    Ok(())
}
