//! What is kept of one net with its readers, and the sums of it.
ghost use Rattle.std.specs.Prelude.{◌≡◌, ◌≤◌, Some, None, [], OnOk};
ghost use Rattle.std.specs.BTreeMap.{get, Updates};
ghost use Rattle.std.specs.Ordering.{nat_cmp};
ghost use Rattle.mv_gain.specs.Sums.{coming_of, wide_of, IsSummed, IsSmallPair, IsSmall, HasSame};

use mv_base::Memory;
use std::alloc::Global;
use std::collections::{BTreeMap, BTreeSet};
use std::mem;

/// The composite of a reader with a net: its literals, or None where it is too wide, and the literals of the reader's own table.
#[derive(Clone, Copy)]
pub(crate) struct Pair {
    pub(crate) coming: Option<u128>,
    pub(crate) going: u128,
}

/// What is kept of a net: by its readers the pairs with them, the sums of their literals, and how many are too wide. Readers below
/// `next` whose pairs were forgotten since are marked, and all others are yet to be looked at.
#[derive(Drop)]
pub(crate) struct Row {
    pub(crate) pairs: BTreeMap<u32, Pair>,
    pub(crate) coming: u128,
    pub(crate) going: u128,
    pub(crate) wide: u64,
    marked: BTreeSet<u32>,
    pub(crate) next: u32,
}

impl Row {
    /// Nothing is kept.
    pub(crate) fn none(alloc: Global) -> Row
        ensures empty { result.pairs.entries ≡ [] }
        ensures summed { IsSummed result }
    {
        Row {
            pairs: BTreeMap::new(alloc),
            coming: 0,
            going: 0,
            wide: 0,
            marked: BTreeSet::new(alloc),
            next: 0,
        }
    }

    /// Keeps the pair with a reader of which nothing is kept.
    pub(crate) fn put(&mut self, reader: u32, pair: Pair) -> Result<(), Memory>
        requires summed { IsSummed self.old }
        requires absent { get nat_cmp self.old.pairs reader ≡ None }
        requires few { IsSmall self.old }
        requires small { IsSmallPair pair }
        ensures updates { OnOk result
            (Updates nat_cmp self.old.pairs self.new.pairs reader (Some pair)) }
        ensures summed { OnOk result (IsSummed self.new) }
    {
        self.pairs.insert(reader, pair)?;
        self.coming += literals_of(pair);
        self.going += pair.going;
        self.wide += width_of(pair);
        Ok(())
    }

    /// Keeps nothing of the reader, which is marked.
    pub(crate) fn forget(&mut self, reader: u32) -> Result<(), Memory>
        requires summed { IsSummed self.old }
        ensures updates { OnOk result (Updates nat_cmp self.old.pairs self.new.pairs reader None) }
        ensures summed { OnOk result (IsSummed self.new) }
    {
        self.remove(reader);
        self.mark(reader)
    }

    /// Keeps nothing of the reader.
    fn remove(&mut self, reader: u32)
        requires summed { IsSummed self.old }
        ensures updates { Updates nat_cmp self.old.pairs self.new.pairs reader None }
        ensures summed { IsSummed self.new }
    {
        match self.pairs.remove(&reader) {
            Some(pair) => {
                self.coming -= literals_of(pair);
                self.going -= pair.going;
                self.wide -= width_of(pair);
            }
            None => {}
        }
    }

    /// Marks the reader, unless all from it on are yet to be looked at.
    pub(crate) fn mark(&mut self, reader: u32) -> Result<(), Memory>
        ensures { OnOk result (HasSame self.old self.new) }
    {
        if reader < self.next {
            self.marked.insert(reader)?;
        }
        Ok(())
    }

    /// Takes the readers that are marked.
    pub(crate) fn take_marked(&mut self, alloc: Global) -> BTreeSet<u32>
        ensures { HasSame self.old self.new }
    {
        mem::replace(&mut self.marked, BTreeSet::new(alloc))
    }

    /// Marks these readers and no others.
    pub(crate) fn set_marked(&mut self, marked: BTreeSet<u32>)
        ensures { HasSame self.old self.new }
    {
        self.marked = marked;
    }

    /// The readers below this have been looked at.
    pub(crate) fn set_next(&mut self, next: u32)
        ensures { HasSame self.old self.new }
    {
        self.next = next;
    }
}

/// The literals of the composite, and 0 where it is too wide.
fn literals_of(pair: Pair) -> u128
    ensures { result ≡ coming_of pair }
{
    match pair.coming {
        Some(literals) => literals,
        None => 0,
    }
}

/// 1 where the composite is too wide.
fn width_of(pair: Pair) -> u64
    ensures value { result ≡ wide_of pair }
    ensures few { result ≤ 1 }
{
    if pair.coming.is_some() { 0 } else { 1 }
}
