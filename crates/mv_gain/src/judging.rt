ghost use Rattle.std.specs.Prelude.{◌≡◌, ◌^◌, ◌≤◌, true, length, is_some, IsTrue, IfOk, IfSome, OnOk, MatchBool};
ghost use Rattle.std.specs.List.{sum_by};
ghost use Rattle.mv_net.specs.Behind.{literals_at};
ghost use Rattle.mv_net.specs.Index.{is_held};
ghost use Rattle.mv_net.specs.Nets.{slot, table_in, reads_in};
ghost use Rattle.mv_gain.specs.Judging.{CanGo, IsMade, IsAsked, IsFilled, IsMost, IsOver, IsEnough, IsWeighed};
ghost use Rattle.mv_gain.specs.Kept.{IsPair, AreRight, IsJudged};
ghost use Rattle.mv_gain.specs.Pairs.{KeepsMore, HasComing};
ghost use Rattle.mv_gain.specs.Savings.{IsSaving};

use crate::kept::KeptComposites;
use crate::row::{Pair, Row};
use mv_base::{Memory, NetId};
use mv_net::Network;
use mv_rules::{CoverStop, Inner, composite_literals, inner_of, is_unshared};
use std::alloc::Global;

/// The literals of the readers of a net are counted before their composites are worked out where there are no more readers than this:
/// a net of very many readers is looked at whenever one of them changes.
const FEW_READERS: usize = 64;

/// Whether a net can go into its readers with no more literals than before.
#[derive(Clone, Copy, Debug, PartialEq, Eq)]
pub enum Verdict {
    /// It can go into its readers, and the literals are no more then.
    Saves,
    /// It can't go into its readers, for this alone that a composite is too wide.
    Wide,
    /// It stays for another reason.
    Stays,
}

impl KeptComposites {
    /// What is made of the net of this number, if there is one. Composites that aren't kept are worked out.
    pub fn judge(&mut self, alloc: Global, net: &Network, n: NetId) -> Result<Verdict, Memory>
        requires { AreRight net.now.nets self.old }
        ensures right { OnOk result (AreRight net.now.nets self.new) }
        ensures verdict { IfOk result (λ verdict. IsJudged net.now n.0 verdict) }
    {
        net.well_formed();
        if !can_go(net, n) {
            return Ok(Verdict::Stays);
        }
        self.fill(alloc, net, n, None)?;
        Ok(self.weigh(net, n))
    }

    /// Whether the net of this number saves. Where its readers are few no more composites are worked out once those that are kept have
    /// more literals than the net and its readers.
    pub fn saves(&mut self, alloc: Global, net: &Network, n: NetId) -> Result<bool, Memory>
        requires { AreRight net.now.nets self.old }
        ensures right { OnOk result (AreRight net.now.nets self.new) }
        ensures saves { IfOk result
            (λ saves. MatchBool saves (IsSaving net.now n.0) (IsSaving net.now n.0 → ⊥)) }
    {
        net.well_formed();
        if !can_go(net, n) {
            return Ok(false);
        }
        let most = self.most_to_come(net, n);
        self.fill(alloc, net, n, most)?;
        if self.is_over(n, most) {
            return Ok(false);
        }
        match self.weigh(net, n) {
            Verdict::Saves => Ok(true),
            Verdict::Wide => Ok(false),
            Verdict::Stays => Ok(false),
        }
    }

    /// The literals of the net and of its readers, than which no more come where it saves. They aren't counted where enough is kept to
    /// know, nor where there is one reader, whose composite is needed anyway, nor where there are many.
    fn most_to_come(&self, net: &Network, n: NetId) -> Option<u128>
        requires held { IsTrue (is_held net.now.nets n.0) }
        requires right { AreRight net.now.nets self.now }
        ensures { IfSome result (IsMost net.now.nets n) }
    {
        if self.is_filled(net, n) {
            return None;
        }
        let readers = net.readers(n);
        if readers.len() == 1 || readers.len() > FEW_READERS {
            return None;
        }
        Some(literals_of(net, n) + literals_of_each(net, readers))
    }

    /// Whether the composites of the net that are kept have more literals than the limit, if there is one.
    fn is_over(&self, n: NetId, most: Option<u128>) -> bool
        ensures { MatchBool result (IsOver self.now n.0 most) (IsOver self.now n.0 most → ⊥) }
    {
        let Some(limit) = most else {
            return false;
        };
        match self.nets.get(n.0 as usize) {
            Some(row) => row.coming > limit,
            None => false,
        }
    }

    /// What the sums say of a net, where a composite that is too wide is kept or else those of all readers are.
    fn weigh(&self, net: &Network, n: NetId) -> Verdict
        requires can { CanGo net.now n.0 }
        requires right { AreRight net.now.nets self.now }
        requires filled { IsFilled net.now.nets n.0 self.now }
        ensures { IsJudged net.now n.0 result }
    {
        net.well_formed();
        net.few();
        let own = literals_of(net, n);
        match self.nets.get(n.0 as usize) {
            Some(row) => weighed(row, own),
            None => Verdict::Stays,
        }
    }

    /// Works out composites of the net till one is too wide, or they have more literals than the limit, or those of all readers are
    /// kept: those of the readers that are marked, and of those that weren't looked at yet. Where some are lacking even so, all readers
    /// are looked at again.
    fn fill(
        &mut self,
        alloc: Global,
        net: &Network,
        n: NetId,
        most: Option<u128>,
    ) -> Result<(), Memory>
        requires tabled { is_some (table_in (slot net.now.nets n.0)) ≡ true }
        requires right { AreRight net.now.nets self.old }
        ensures right { OnOk result (AreRight net.now.nets self.new) }
        ensures enough { OnOk result (IsEnough net.now.nets n.0 most self.new) }
    {
        if self.is_enough(net, n, most) {
            return Ok(());
        }
        let mut inner = None;
        self.fill_marked(alloc, net, n, most, &mut inner)?;
        if self.is_enough(net, n, most) {
            return Ok(());
        }
        let next = self.next(n);
        self.fill_from(alloc, net, n, next, most, &mut inner)?;
        if self.is_enough(net, n, most) {
            return Ok(());
        }
        self.fill_from(alloc, net, n, 0, most, &mut inner)?;
        Ok(())
    }

    /// Whether as many composites are kept as it takes to know.
    fn is_enough(&self, net: &Network, n: NetId, most: Option<u128>) -> bool
        requires held { IsTrue (is_held net.now.nets n.0) }
        requires right { AreRight net.now.nets self.now }
        ensures { result ≡ true → IsEnough net.now.nets n.0 most self.now }
    {
        if self.is_over(n, most) {
            return true;
        }
        self.is_filled(net, n)
    }

    /// Whether a composite that is too wide is kept or those of all readers are.
    fn is_filled(&self, net: &Network, n: NetId) -> bool
        requires held { IsTrue (is_held net.now.nets n.0) }
        requires right { AreRight net.now.nets self.now }
        ensures { result ≡ true → IsFilled net.now.nets n.0 self.now }
    {
        match self.nets.get(n.0 as usize) {
            Some(row) => row.wide > 0 || row.pairs.len() == net.readers(n).len(),
            None => false,
        }
    }

    /// Works out the composites of the readers that are marked, till one is too wide or they have more literals than the limit.
    fn fill_marked(
        &mut self,
        alloc: Global,
        net: &Network,
        n: NetId,
        most: Option<u128>,
        inner: &mut Option<Inner>,
    ) -> Result<(), Memory>
        requires tabled { is_some (table_in (slot net.now.nets n.0)) ≡ true }
        requires right { AreRight net.now.nets self.old }
        requires made { IsMade net.now.nets n.0 inner.old }
        ensures right { OnOk result (AreRight net.now.nets self.new) }
        ensures made { OnOk result (IsMade net.now.nets n.0 inner.new) }
    {
        let mut marked = self.take_marked(alloc, n);
        'all: while let Some(reader) = marked.pop_first() {
            if !reads(net, NetId(reader), n) {
                continue 'all;
            }
            if self
                .composite(alloc, net, n, NetId(reader), inner)?
                .is_none()
            {
                break 'all;
            }
            if self.is_over(n, most) {
                break 'all;
            }
        }
        self.set_marked(n, marked);
        Ok(())
    }

    /// Works out the composites of the readers from this number on, till one is too wide or they have more literals than the limit.
    /// Where the limit is passed the readers are few, and are all looked at again.
    fn fill_from(
        &mut self,
        alloc: Global,
        net: &Network,
        n: NetId,
        start: u32,
        most: Option<u128>,
        inner: &mut Option<Inner>,
    ) -> Result<(), Memory>
        requires tabled { is_some (table_in (slot net.now.nets n.0)) ≡ true }
        requires right { AreRight net.now.nets self.old }
        requires made { IsMade net.now.nets n.0 inner.old }
        ensures right { OnOk result (AreRight net.now.nets self.new) }
        ensures made { OnOk result (IsMade net.now.nets n.0 inner.new) }
        ensures enough { OnOk result (start ≡ 0 → IsEnough net.now.nets n.0 most self.new) }
    {
        for reader in net.readers(n) {
            if reader.0 < start {
                continue;
            }
            if self.composite(alloc, net, n, *reader, inner)?.is_none() {
                self.set_next(n, reader.0);
                return Ok(());
            }
            if self.is_over(n, most) {
                return Ok(());
            }
        }
        self.set_next(n, u32::MAX);
        Ok(())
    }

    /// The literals of the composite of the reader with the net, and None where it is too wide: what is kept of it, or else what
    /// is worked out, which is kept then.
    fn composite(
        &mut self,
        alloc: Global,
        net: &Network,
        n: NetId,
        reader: NetId,
        inner: &mut Option<Inner>,
    ) -> Result<Option<u128>, Memory>
        requires tabled { is_some (table_in (slot net.now.nets n.0)) ≡ true }
        requires reads { reads_in net.now.nets reader.0 n.0 ≡ true }
        requires right { AreRight net.now.nets self.old }
        requires made { IsMade net.now.nets n.0 inner.old }
        ensures right { OnOk result (AreRight net.now.nets self.new) }
        ensures made { OnOk result (IsMade net.now.nets n.0 inner.new) }
        ensures more { OnOk result (KeepsMore self.old self.new) }
        ensures here { IfOk result (λ coming. HasComing self.new n.0 reader.0 coming) }
    {
        if let Some(kept) = self.find(n, reader) {
            return Ok(kept.coming);
        }
        let known = asked(alloc, net, n, inner.take())?;
        let pair = worked_out(alloc, net, &known, reader)?;
        *inner = Some(known);
        self.put(net, n, reader, pair)?;
        Ok(pair.coming)
    }
}

/// What the sums of a row say, where the net itself has so many literals.
fn weighed(row: &Row, own: u128) -> Verdict
    requires going { row.now.going ≤ 2 ^ 126 }
    requires own { own ≤ 2 ^ 96 }
    ensures { IsWeighed row.now own result }
{
    if row.wide > 0 {
        Verdict::Wide
    } else if row.coming > row.going + own {
        Verdict::Stays
    } else {
        Verdict::Saves
    }
}

/// Whether the net is held and reads the other.
fn reads(net: &Network, reader: NetId, n: NetId) -> bool
    ensures { result ≡ reads_in net.now.nets reader.0 n.0 }
{
    if !net.holds(reader) {
        return false;
    }
    net.fanins(reader).contains(&n)
}

/// The net as composites ask for it, if it hasn't been made yet.
fn asked(alloc: Global, net: &Network, n: NetId, made: Option<Inner>) -> Result<Inner, Memory>
    requires tabled { is_some (table_in (slot net.now.nets n.0)) ≡ true }
    requires made { IsMade net.now.nets n.0 made }
    ensures { IfOk result (λ inner. IsAsked net.now.nets n.0 inner) }
{
    match made {
        Some(inner) => Ok(inner),
        None => inner_of(alloc, net, n),
    }
}

/// The composite of the reader with the net, worked out.
fn worked_out(alloc: Global, net: &Network, inner: &Inner, reader: NetId) -> Result<Pair, Memory>
    requires known { IsAsked net.now.nets inner.now.net.0 inner.now }
    requires reads { reads_in net.now.nets reader.0 inner.now.net.0 ≡ true }
    ensures { IfOk result (IsPair net.now.nets inner.now.net.0 reader.0) }
{
    let coming = match composite_literals(alloc, net, inner, reader) {
        Ok(literals) => Some(literals),
        Err(CoverStop::Wide) => None,
        Err(CoverStop::Memory) => return Err(Memory),
    };
    let going = literals_of(net, reader);
    Ok(Pair { coming, going })
}

/// Whether there is a net of this number that has a table and can go into its readers, as far as their composites let it.
fn can_go(net: &Network, n: NetId) -> bool
    ensures { MatchBool result (CanGo net.now n.0) (CanGo net.now n.0 → ⊥) }
{
    if !is_tabled(net, n) {
        return false;
    }
    if net.is_seen(n) {
        return false;
    }
    if net.readers(n).is_empty() {
        return false;
    }
    is_unshared(net, n)
}

/// Whether there is a net of this number that has a table.
fn is_tabled(net: &Network, n: NetId) -> bool
    ensures { result ≡ is_some (table_in (slot net.now.nets n.0)) }
{
    if !net.holds(n) {
        return false;
    }
    net.table(n).is_some()
}

/// The literals of the table of the net of this number, and 0 where there is none.
fn literals_of(net: &Network, n: NetId) -> u128
    ensures value { result ≡ literals_at net.now.nets n }
    ensures few { result ≤ 2 ^ 96 }
{
    if !net.holds(n) {
        return 0;
    }
    match net.table(n) {
        Some(table) => table.literals(),
        None => 0,
    }
}

/// The literals of the tables of these nets, which are few.
fn literals_of_each(net: &Network, nets: &[NetId]) -> u128
    requires { length nets.now ≤ FEW_READERS }
    ensures value { result ≡ sum_by (literals_at net.now.nets) nets.now }
    ensures few { result ≤ 2 ^ 102 }
{
    let mut literals = 0;
    for n in nets {
        literals += literals_of(net, *n);
    }
    literals
}
