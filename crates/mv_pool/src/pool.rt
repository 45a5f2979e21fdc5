ghost use Rattle.std.specs.Prelude.{◌≡◌, ℕ, ◌<◌, ◌≤◌, ◌+◌, ◌^◌, [], None, Some, Ok, Err, length, take, IfOk, IfSome, IsSome, All, is_some, true, vec_capacity};
ghost use Rattle.indexmap.specs.IndexMap.{get, index_map_len, spare, Updates};
ghost use Rattle.mv_pool.specs.Places.{place_of, item_at, least_free, held_in, with_item, AreDistinct};
ghost use Rattle.mv_pool.specs.Reached.{AreListed, LinksAreHeld, IsReclaimed};
ghost use Rattle.mv_pool.specs.declared.pool.Id.{Id};

use crate::Linked;
use crate::walk::{begin, follow_all, free_unmarked, reach_roots};
use indexmap::IndexMap;
use mv_base::Memory;
use std::alloc::Global;
use std::hash::Hash;
use std::marker::Model;

/// The number of an item: the place at which it stands.
#[derive(Clone, Copy, Debug, PartialEq, Eq)]
pub struct Id(pub u32);

/// How many places a pool had.
#[derive(Clone, Copy, Debug, PartialEq, Eq)]
pub struct Mark(pub u32);

/// The item is new, and the pool holds as many items as it has room for.
#[derive(Clone, Copy, Debug, PartialEq, Eq)]
pub struct Full;

/// Distinct items at places, of which some may be free. All room is reserved at the start.
#[derive(Drop)]
pub struct Pool<T: Copy + Eq + Hash> {
    /// The place of each item.
    numbers: IndexMap<T, u32>,
    /// What stands at each place.
    places: Vec<Option<T>>,
    /// No place below this one is free.
    taken: u32,
    cap: u32,
    /// Room for the marks of the places that a walk along links has reached.
    marks: Vec<bool>,
    /// Room for these places, in the order in which the walk reached them.
    queue: Vec<u32>,
}

impl<T: Copy + Eq + Hash> Model for Pool<T> {
    ghost use Rattle.std.specs.Prelude.{vec_capacity};
    ghost use Rattle.mv_pool.specs.Places.{Contents};
    ghost use Rattle.mv_pool.specs.Kept.{IsKept, HasRoom};

    ghost Value = { Contents T };

    ghost view = { λ p. record { places = p.places.items; cap = p.cap } };

    ghost invariant = { λ p. HasRoom (IsKept T.eq p.numbers p.places.items (vec_capacity p.places) p.taken p.cap) p.cap (vec_capacity p.marks)
        (vec_capacity p.queue) };
}

impl<T: Copy + Eq + Hash> Pool<T> {
    /// The pool without places, with room for `cap` items. No other call takes memory.
    pub fn with_room(alloc: Global, cap: u32) -> Result<Self, Memory>
        ensures { IfOk result (λ pool. pool ≡ record { places = []; cap = cap }) }
    {
        Ok(Pool {
            numbers: IndexMap::with_capacity(alloc, cap as usize)?,
            places: Vec::with_capacity(alloc, cap as usize)?,
            taken: 0,
            cap,
            marks: Vec::with_capacity(alloc, cap as usize)?,
            queue: Vec::with_capacity(alloc, cap as usize)?,
        })
    }

    /// The number of the item. A held item keeps its number. A new one takes the least free place, or the one behind
    /// all. It is Full exactly where the item is new and `cap` items are held, and then the pool is as before.
    pub fn put(&mut self, item: T) -> Result<Id, Full>
        ensures held { IfSome (place_of T.eq item self.old.places)
            (λ n. (result ≡ Ok (record { 0 = n })) × (self.new ≡ self.old)) }
        ensures fresh { place_of T.eq item self.old.places ≡ None
            → held_in self.old.places < self.old.cap →
            (result ≡ Ok (record { 0 = least_free self.old.places })) ×
            (self.new ≡ record { places = with_item self.old.places item; cap = self.old.cap }) }
        ensures full { place_of T.eq item self.old.places ≡ None
            → self.old.cap ≤ held_in self.old.places →
            (result ≡ Err (record {})) × (self.new ≡ self.old) }
    {
        if let Some(number) = self.numbers.get(&item) {
            return Ok(Id(*number));
        }
        if self.numbers.len() >= self.cap as usize {
            return Err(Full);
        }
        Ok(Id(self.place(item)))
    }

    /// Places a new item. The time is that of a look-up by hash, beside the walk to the least free place. The walk goes
    /// on where the last one ended, so between two calls of `release` or `reclaim` all walks together pass each place
    /// once; one alone passes all of them at worst.
    fn place(&mut self, item: T) -> u32
        requires fresh { place_of T.eq item self.old.places ≡ None }
        requires room { held_in self.old.places < self.old.cap }
        ensures place { result ≡ least_free self.old.places }
        ensures new { self.new
            ≡ record { places = with_item self.old.places item; cap = self.old.cap } }
    {
        let at = next_free(self.places.as_slice(), self.taken as usize);
        fill(&mut self.places, at, item);
        let place = at as u32;
        self.taken = place + 1;
        number(&mut self.numbers, item, place);
        place
    }

    /// The item at the place.
    pub fn get(&self, id: Id) -> &T
        requires { IsSome (item_at self.now.places id.0) }
        ensures { item_at self.now.places id.0 ≡ Some result.now }
    {
        self.places[id.0 as usize].as_ref().unwrap()
    }

    /// How many places there are, free ones included.
    pub fn len(&self) -> u32
        ensures len { result ≡ length self.now.places }
        ensures within { result ≤ self.now.cap }
    {
        self.places.len() as u32
    }

    /// How many items are held.
    pub fn held(&self) -> u32
        ensures held { result ≡ held_in self.now.places }
        ensures within { result ≤ self.now.cap }
    {
        self.numbers.len() as u32
    }

    /// How many items there is room for.
    pub fn cap(&self) -> u32
        ensures { result ≡ self.now.cap }
    {
        self.cap
    }

    /// The number of places, to release those that come later.
    pub fn mark(&self) -> Mark
        ensures { result ≡ record { 0 = length self.now.places } }
    {
        Mark(self.len())
    }

    /// Cuts the list of places. Earlier places keep what they hold. The items that stay are numbered anew, so the time
    /// grows with all places.
    pub fn release(&mut self, mark: Mark)
        requires { mark.0 ≤ length self.old.places }
        ensures { self.new ≡ record { places = take mark.0 self.old.places; cap = self.old.cap } }
    {
        self.places.truncate(mark.0 as usize);
        self.taken = self.taken.min(mark.0);
        number_all(&mut self.numbers, self.places.as_slice());
    }

    /// Cuts all places. The time grows with them and with the room.
    pub fn clear(&mut self)
        ensures { self.new ≡ record { places = []; cap = self.old.cap } }
    {
        self.release(Mark(0));
    }

    /// Frees each place that isn't reached from the roots by links. The time grows with the places.
    pub fn reclaim(&mut self, roots: &[Id])
    where
        T: Linked,
        requires roots { All
            (λ (id : Id). is_some (item_at self.old.places id.0) ≡ true) roots.now }
        requires links { LinksAreHeld T.link_of self.old.places }
        ensures places { IsReclaimed T.link_of self.old.places roots.now self.new.places }
        ensures cap { self.new.cap ≡ self.old.cap }
    {
        begin(&mut self.marks, &mut self.queue, self.places.len());
        reach_roots(
            self.places.as_slice(),
            roots,
            &mut self.marks,
            &mut self.queue,
        );
        follow_all(
            self.places.as_slice(),
            roots,
            &mut self.marks,
            &mut self.queue,
        );
        free_unmarked(&mut self.places, self.marks.as_slice());
        self.taken = 0;
        number_all(&mut self.numbers, self.places.as_slice());
    }

    /// Lists the places that are reached from the roots by links, each once, within the room that is there. The time
    /// grows with all places.
    pub fn reached(&mut self, roots: &[Id], listed: &mut Vec<u32>)
    where
        T: Linked,
        requires roots { All
            (λ (id : Id). is_some (item_at self.old.places id.0) ≡ true) roots.now }
        requires links { LinksAreHeld T.link_of self.old.places }
        requires room { self.old.cap ≤ vec_capacity listed.old }
        ensures same { self.new ≡ self.old }
        ensures listed { AreListed T.link_of self.old.places roots.now listed.new.items }
        ensures room { vec_capacity listed.old ≤ vec_capacity listed.new }
    {
        begin(&mut self.marks, listed, self.places.len());
        reach_roots(self.places.as_slice(), roots, &mut self.marks, listed);
        follow_all(self.places.as_slice(), roots, &mut self.marks, listed);
    }

    /// No item stands at two places.
    pub fn distinct(&self)
        ensures { AreDistinct T.eq self.now.places }
    {
        let _ = &self.cap;
    }
}

/// The least free place, or the one behind all, where none below `from` is free.
fn next_free<T>(places: &[Option<T>], from: usize) -> usize
    requires { from ≤ least_free places.now }
    ensures { result ≡ least_free places.now }
{
    let mut at = from;
    while at < places.len() && places[at].is_some() {
        at += 1;
    }
    at
}

/// Puts the item at the least free place.
fn fill<T: Copy>(places: &mut Vec<Option<T>>, at: usize, item: T)
    requires least { at ≡ least_free places.old.items }
    requires room { at < vec_capacity places.old }
    ensures items { places.new.items ≡ with_item places.old.items item }
    ensures room { vec_capacity places.old ≤ vec_capacity places.new }
{
    if at < places.len() {
        places[at] = Some(item);
    } else {
        places.push_reserved(Some(item));
    }
}

/// Numbers a new item.
fn number<T: Copy + Eq + Hash>(numbers: &mut IndexMap<T, u32>, item: T, at: u32)
    requires fresh { get T.eq numbers.old item ≡ None }
    requires room { 0 < spare numbers.old }
    ensures updates { Updates T.eq numbers.old numbers.new item (Some at) }
    ensures count { index_map_len numbers.new ≡ index_map_len numbers.old + 1 }
    ensures room { spare numbers.old ≤ spare numbers.new + 1 }
{
    numbers.insert(item, at).unwrap();
}

/// Numbers the items at these places, and no others, within the room that there is.
fn number_all<T: Copy + Eq + Hash>(numbers: &mut IndexMap<T, u32>, places: &[Option<T>])
    requires distinct { AreDistinct T.eq places.now }
    requires few { length places.now < 2 ^ 32 }
    requires room { held_in places.now ≤ index_map_len numbers.old + spare numbers.old }
    ensures found { (item : T) → get T.eq numbers.new item ≡ place_of T.eq item places.now }
    ensures count { index_map_len numbers.new ≡ held_in places.now }
    ensures room { index_map_len numbers.old + spare numbers.old
        ≤ index_map_len numbers.new + spare numbers.new }
{
    numbers.clear();
    for (at, place) in places.iter().enumerate() {
        if let Some(item) = place {
            number(numbers, *item, at as u32);
        }
    }
}
