//! Names of nets in the whole that were found lately, so that the levels above an instance needn't be walked again for each net of
//! each instance in it.
ghost use Rattle.std.specs.Prelude.{◌≡◌, ◌==◌, ◌&&◌, ℕ, List, replicate, None, IfOk, IfSome, OnOk};
ghost use Rattle.mv_base.specs.Names.{same_word};
ghost use Rattle.mv_unfold.specs.Recent.{AreHomes};

use mv_base::{Items, Memory, Name};
use std::alloc::Global;

/// Slots for each place, and how many there are at most: enough for the levels of a walk down wide instances.
const ROOM: usize = 256;

const MOST: usize = 65_536;

/// A net of a place, and its name in the whole.
#[derive(Drop)]
pub struct Found {
    pub place: usize,
    pub net: Name,
    pub home: Name,
}

impl Found {
    /// The name in the whole, where it is that of this net.
    #[tactic(auto, using(crate::proofs::Kept::same_home))]
    fn home_of(&self, place: usize, net: &Name) -> Option<&Name>
        ensures { (homes : ℕ → List ℕ → List ℕ) → self.now.home ≡ homes self.now.place self.now.net
            → IfSome result (λ name. name.now ≡ homes place net.now) }
    {
        if self.is_of(place, net) {
            return Some(&self.home);
        }
        None
    }

    /// Whether it is that of this net.
    fn is_of(&self, place: usize, net: &Name) -> bool
        ensures { result ≡ (self.now.place == place && same_word self.now.net net.now) }
    {
        self.place == place && self.net == *net
    }
}

/// Names in the whole that were found, each at a slot that its place and its net lead to. A later one takes the slot of an
/// earlier one, so their number stays bounded: one that isn't there any more is looked for again.
#[derive(Drop)]
pub struct Recent {
    pub slots: Items<Option<Found>>,
}

impl Recent {
    /// No names, and room for those of so many places.
    #[tactic(auto, using(crate::proofs::Kept::none_kept))]
    pub fn of_places(alloc: Global, places: usize) -> Result<Recent, Memory>
        ensures { IfOk result
            (λ recent. (homes : ℕ → List ℕ → List ℕ) → AreHomes homes recent.slots) }
    {
        let slots = empty(alloc, places.saturating_mul(ROOM).min(MOST))?;
        Ok(Recent { slots })
    }

    /// The name in the whole of a place's net, if it is there.
    pub fn find(&self, place: usize, net: &Name) -> Option<&Name>
        ensures { (homes : ℕ → List ℕ → List ℕ) → AreHomes homes self.now.slots
            → IfSome result (λ name. name.now ≡ homes place net.now) }
    {
        match self.slots.get(slot_of(self.slots.len(), place, net)) {
            Some(Some(found)) => found.home_of(place, net),
            _ => None,
        }
    }

    /// Puts in the name in the whole of a place's net, and gives it back.
    pub fn keep(&mut self, place: usize, net: &Name, home: Name) -> Result<Name, Memory>
        ensures name { IfOk result (λ name. name ≡ home) }
        ensures right { (homes : ℕ → List ℕ → List ℕ) → AreHomes homes self.old.slots
            → home ≡ homes place net.now → OnOk result (AreHomes homes self.new.slots) }
    {
        let key = net.copy()?;
        let copy = home.copy()?;
        let slot = slot_of(self.slots.len(), place, net);
        self.put(
            slot,
            Found {
                place,
                net: key,
                home: copy,
            },
        );
        Ok(home)
    }

    /// Puts what was found into a slot, if there is one.
    #[tactic(auto, using(crate::proofs::Kept::one_kept))]
    fn put(&mut self, slot: usize, found: Found)
        ensures { (homes : ℕ → List ℕ → List ℕ) → AreHomes homes self.old.slots
            → found.home ≡ homes found.place found.net → AreHomes homes self.new.slots }
    {
        if slot >= self.slots.len() {
            return;
        }
        self.slots.replace(slot, Some(found));
    }
}

/// So many slots without a name.
fn empty(alloc: Global, room: usize) -> Result<Items<Option<Found>>, Memory>
    ensures { IfOk result (λ slots. slots ≡ replicate room None) }
{
    let mut slots = Items::with_room(alloc, room)?;
    for at in 0..room {
        let _ = at;
        slots.push(None)?;
    }
    Ok(slots)
}

/// The slot of a place's net among so many: any number will do that is spread well.
fn slot_of(room: usize, place: usize, net: &Name) -> usize {
    let mut mixed = place.wrapping_mul(0x9E37_79B9_7F4A_7C15);
    for byte in net.bytes() {
        mixed = (mixed ^ usize::from(*byte)).wrapping_mul(0x0100_0000_01B3);
    }
    (mixed >> 32) % room.max(1)
}
