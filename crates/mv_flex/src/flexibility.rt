ghost use Rattle.std.specs.Prelude.{◌≡◌, ◌↔◌, ◌&&◌, ◌<◌, ℕ, true, false, Some, slice_index_or, IfOk, IfErr, MatchBool};
ghost use Rattle.mv_base.specs.Set.{has};
ghost use Rattle.mv_cover.specs.Covers.{cube_reads, cover_reads};
ghost use Rattle.mv_net.specs.declared.parts.NetParts.{NetParts};
ghost use Rattle.mv_net.specs.declared.window.Window.{Window};
ghost use Rattle.mv_net.specs.Nets.{slot, table_in, reads_in};
ghost use Rattle.mv_cover.specs.declared.cover.Cover.{Cover};
ghost use Rattle.mv_flex.specs.Checks.{blocked_at, AreBlocked, line_allows, cover_allows, loses, LineOutside, CoverOutside, LosesSome};
ghost use Rattle.mv_flex.specs.Flex.{IsOverFanins, LineInFlex, LineInFlexWith, IsVerdict, IsLaterStop};
ghost use Rattle.mv_flex.specs.Flexibilities.{IsFlex};

use crate::allow::{allows, chooses, line_gives, others_hold};
use crate::space::{Space, value_at};
use crate::{FlexStop, Verdict};
use mv_base::{Items, Memory, NetId, Value, ValueSet};
use mv_cover::{Cover, Line};

/// Which values a net may have at which values of its fanins, so that nothing new is seen outside a window. It keeps the
/// net's table, and a mark for each pair that isn't among these.
#[derive(Drop)]
pub struct Flexibility {
    pub(crate) net: NetId,
    pub(crate) old: Cover,
    pub(crate) fanins: Space,
    pub(crate) pairs: Space,
    pub(crate) outside: Items<bool>,
}

impl Flexibility {
    /// Whether each point of the line's cube is in the flexibility with each value of the line's output.
    pub fn holds_line(&self, line: &Line) -> Result<bool, FlexStop>
        ensures ok { IfOk result
            (λ holds. (net : NetParts) (w : Window) (n budget : ℕ) → IsFlex net w n budget self.now
            → IsOverFanins net.nets n (cube_reads line.now.cube)
            → MatchBool holds (LineInFlex net.nets w n line.now)
            (LineInFlex net.nets w n line.now → ⊥)) }
        ensures err { IfErr result
            (λ stop. (net : NetParts) (w : Window) (n budget : ℕ) → IsFlex net w n budget self.now
            → IsLaterStop net w budget stop) }
    {
        if self.is_line_outside(line)? {
            return Ok(false);
        }
        Ok(true)
    }

    /// Whether the line allows a pair outside.
    fn is_line_outside(&self, line: &Line) -> Result<bool, Memory>
        ensures { IfOk result
            (λ yes. MatchBool yes (LineOutside self.now line.now)
            (LineOutside self.now line.now → ⊥)) }
    {
        let mut values = Vec::new(self.outside.allocator());
        for (pair, is_outside) in self.outside.as_slice().iter().enumerate() {
            if *is_outside && self.line_allows(line, pair as u64, &mut values)? {
                return Ok(true);
            }
        }
        Ok(false)
    }

    /// Whether the line's cube holds at a pair and its output has the pair's value.
    fn line_allows(&self, line: &Line, pair: u64, values: &mut Vec<u16>) -> Result<bool, Memory>
        ensures { IfOk result (λ b. b ≡ line_allows self.now line.now pair) }
    {
        values.clear();
        self.pairs.put(pair, values)?;
        let nets = self.pairs.nets();
        let value = value_at(nets, values.as_slice(), self.net);
        Ok(line_gives(nets, values.as_slice(), line, Value(value)))
    }

    /// The values of a fanin that may not be put into the line's literal on it: with these some point of the line has a value
    /// of its output outside the flexibility, whatever values the literal has.
    pub fn blocked(&self, line: &Line, fanin: NetId) -> Result<ValueSet, FlexStop>
        ensures ok { IfOk result
            (λ blocked. (net : NetParts) (w : Window) (n budget : ℕ)
            → IsFlex net w n budget self.now
            → IsOverFanins net.nets n (cube_reads line.now.cube)
            → reads_in net.nets n fanin.0 ≡ true
            → (u : ℕ) → MatchBool (has blocked u)
            (LineInFlexWith net.nets w n line.now fanin.0 u → ⊥)
            (LineInFlexWith net.nets w n line.now fanin.0 u)) }
        ensures err { IfErr result
            (λ stop. (net : NetParts) (w : Window) (n budget : ℕ) → IsFlex net w n budget self.now
            → IsLaterStop net w budget stop) }
    {
        Ok(self.all_blocked(line, fanin)?)
    }

    /// The values of a fanin that pairs outside block.
    fn all_blocked(&self, line: &Line, fanin: NetId) -> Result<ValueSet, Memory>
        ensures { IfOk result
            (λ set. AreBlocked self.now line.now fanin.0 self.now.pairs.size set) }
    {
        let mut values = Vec::new(self.outside.allocator());
        let mut blocked = ValueSet::empty();
        for pair in 0..self.pairs.size() {
            let with = self.blocked_at(line, fanin, pair, &mut values)?;
            blocked = blocked.join(with);
        }
        Ok(blocked)
    }

    /// The value of the fanin at a pair that blocks it.
    fn blocked_at(
        &self,
        line: &Line,
        fanin: NetId,
        pair: u64,
        values: &mut Vec<u16>,
    ) -> Result<ValueSet, Memory>
        ensures { IfOk result (λ set. set ≡ blocked_at self.now line.now fanin.0 pair) }
    {
        if !self.is_outside(pair) {
            return Ok(ValueSet::empty());
        }
        values.clear();
        self.pairs.put(pair, values)?;
        let nets = self.pairs.nets();
        let value = value_at(nets, values.as_slice(), self.net);
        if !others_hold(nets, values.as_slice(), line.cube.lits(), fanin)
            || !line.out.has(Value(value))
        {
            return Ok(ValueSet::empty());
        }
        self.pairs.counted();
        Ok(ValueSet::one(Value(value_at(nets, values.as_slice(), fanin))))
    }

    /// Whether the pair is outside.
    pub(crate) fn is_outside(&self, pair: u64) -> bool
        ensures { result ≡ slice_index_or self.now.outside pair false }
    {
        match self.outside.as_slice().get(pair as usize) {
            Some(mark) => *mark,
            None => false,
        }
    }

    /// What becomes of the net where its table gives way to the new cover.
    pub fn judge(&self, new: &Cover) -> Result<Verdict, FlexStop>
        ensures ok { IfOk result
            (λ verdict. (net : NetParts) (w : Window) (n budget : ℕ)
            → IsFlex net w n budget self.now
            → IsOverFanins net.nets n (cover_reads new.now)
            → (old : Cover) → table_in (slot net.nets n) ≡ Some old
            → IsVerdict net.nets w n old new.now verdict) }
        ensures err { IfErr result
            (λ stop. (net : NetParts) (w : Window) (n budget : ℕ) → IsFlex net w n budget self.now
            → IsLaterStop net w budget stop) }
    {
        if self.is_cover_outside(new)? {
            return Ok(Verdict::Outside);
        }
        if self.is_lost(new)? {
            return Ok(Verdict::Lost);
        }
        Ok(Verdict::Lawful)
    }

    /// Whether the cover allows a pair outside.
    fn is_cover_outside(&self, new: &Cover) -> Result<bool, Memory>
        ensures { IfOk result
            (λ yes. MatchBool yes (CoverOutside self.now new.now)
            (CoverOutside self.now new.now → ⊥)) }
    {
        let mut values = Vec::new(self.outside.allocator());
        for (pair, is_outside) in self.outside.as_slice().iter().enumerate() {
            if *is_outside && self.cover_allows(new, pair as u64, &mut values)? {
                return Ok(true);
            }
        }
        Ok(false)
    }

    /// Whether the cover allows a pair.
    fn cover_allows(&self, new: &Cover, pair: u64, values: &mut Vec<u16>) -> Result<bool, Memory>
        ensures { IfOk result (λ b. b ≡ cover_allows self.now new.now pair) }
    {
        values.clear();
        self.pairs.put(pair, values)?;
        let nets = self.pairs.nets();
        let value = value_at(nets, values.as_slice(), self.net);
        Ok(allows(nets, values.as_slice(), new, Value(value)))
    }

    /// Whether the cover allows nothing at some point of the fanins at which the old table allows something.
    fn is_lost(&self, new: &Cover) -> Result<bool, Memory>
        ensures { IfOk result
            (λ yes. MatchBool yes (LosesSome self.now new.now) (LosesSome self.now new.now → ⊥)) }
    {
        let mut values = Vec::new(self.outside.allocator());
        for point in 0..self.fanins.size() {
            if self.loses(new, point, &mut values)? {
                return Ok(true);
            }
        }
        Ok(false)
    }

    /// Whether the cover allows nothing at a point of the fanins, and the old table something.
    fn loses(&self, new: &Cover, point: u64, values: &mut Vec<u16>) -> Result<bool, Memory>
        ensures { IfOk result (λ yes. yes ≡ loses self.now new.now point) }
    {
        values.clear();
        self.fanins.put(point, values)?;
        let nets = self.fanins.nets();
        Ok(chooses(nets, values.as_slice(), &self.old) && !chooses(nets, values.as_slice(), new))
    }
}
