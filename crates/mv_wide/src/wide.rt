ghost use Rattle.std.specs.Prelude.{◌≡◌, ℕ, true, Some, is_some, IfOk, IfErr, IsTrue, MatchBool, OnOk};
ghost use Rattle.mv_base.specs.Set.{has};
ghost use Rattle.mv_cover.specs.Covers.{cover_reads, cube_reads};
ghost use Rattle.mv_cover.specs.declared.cover.Cover.{Cover as a_cover};
ghost use Rattle.mv_flex.specs.Flex.{IsOverFanins, IsVerdict, IsWindowOf, LineInFlex, LineInFlexWith};
ghost use Rattle.mv_net.specs.declared.parts.NetParts.{NetParts};
ghost use Rattle.mv_net.specs.declared.window.Window.{Window as a_window};
ghost use Rattle.mv_net.specs.Nets.{reads_in, slot, table_in};
ghost use Rattle.mv_wide.specs.Wides.{IsWide, IsWideStop, StopsAs};

use crate::find::find_in;
use crate::frame::{Frame, empty_frame};
use crate::lines::{hits_line, values_hit};
use crate::verdict::judge;
use mv_base::{Memory, NetId, ValueSet};
use mv_cover::{Cover, Line};
use mv_factors::{Elimination, Factors};
use mv_flex::{FlexStop, Verdict};
use mv_net::{Network, Window};
use mv_relation::RelationStop;
use std::alloc::Global;
use std::marker::Model;

/// Which values a net may have at which values of its fanins, so that nothing new is seen outside a window: the pairs that
/// aren't among these, as a diagram. Its room is used for one window after another.
#[derive(Drop)]
pub struct WideFlexibility {
    alloc: Global,
    factors: Factors,
    elimination: Elimination,
    choices: Vec<ValueSet>,
    frame: Frame,
}

impl Model for WideFlexibility {
    ghost use Rattle.mv_wide.specs.Wides.{Wide, IsReady};

    ghost Value = { Wide };

    ghost view = { λ f. record { family = f.factors; frame = f.frame } };

    ghost invariant = { λ f. IsReady f.factors f.frame };
}

/// Why there is nothing.
fn stop_of(stop: RelationStop) -> FlexStop
    ensures { StopsAs stop result }
{
    match stop {
        RelationStop::Nodes(nodes) => FlexStop::Nodes { cap: nodes.cap },
        RelationStop::Memory => FlexStop::Memory,
    }
}

impl WideFlexibility {
    /// Room for so many nodes at once. There is no flexibility yet.
    pub fn with_room(alloc: Global, cap: u32) -> Result<WideFlexibility, Memory>
        ensures { IfOk result (λ f. f.family.contents.cap ≡ cap) }
    {
        let mut factors = Factors::with_room(alloc, &[1], cap, 5)?;
        factors.add_none();
        Ok(WideFlexibility {
            alloc,
            factors,
            elimination: Elimination::new(alloc),
            choices: Vec::new(alloc),
            frame: empty_frame(alloc)?,
        })
    }

    /// Lets it be the flexibility of a net with a table in a window around it. At an `Err` it is none.
    pub fn find(&mut self, net: &Network, w: &Window, n: NetId) -> Result<(), FlexStop>
        requires table { IsTrue (is_some (table_in (slot net.now.nets n.0))) }
        requires window { IsWindowOf net.now n.0 w.now }
        ensures cap { self.new.family.contents.cap ≡ self.old.family.contents.cap }
        ensures ok { OnOk result (IsWide net.now w.now n.0 self.new) }
        ensures err { IfErr result
            (IsWideStop net.now.nets w.now self.old.family.contents.cap) }
    {
        let factors = &mut self.factors;
        let elimination = &mut self.elimination;
        match find_in(self.alloc, factors, elimination, &mut self.frame, net, w, n) {
            Ok(()) => Ok(()),
            Err(stop) => Err(stop_of(stop)),
        }
    }

    /// Whether each point of the line's cube is in the flexibility with each value of the line's output.
    pub fn holds_line(&mut self, line: &Line) -> Result<bool, Memory>
        ensures same { self.new ≡ self.old }
        ensures ok { IfOk result (λ holds. (net : NetParts) (w : a_window) (n : ℕ)
            → IsWide net w n self.old → IsOverFanins net.nets n (cube_reads line.now.cube)
            → MatchBool holds (LineInFlex net.nets w n line.now)
            (LineInFlex net.nets w n line.now → ⊥)) }
    {
        let hits = hits_line(&mut self.factors, &mut self.choices, &self.frame, line)?;
        Ok(!hits)
    }

    /// The values of a fanin that may not be put into the line's literal on it: with these some point of the line has a value
    /// of its output outside the flexibility, whatever values the literal has.
    pub fn blocked(&mut self, line: &Line, fanin: NetId) -> Result<ValueSet, Memory>
        ensures same { self.new ≡ self.old }
        ensures ok { IfOk result (λ blocked. (net : NetParts) (w : a_window) (n : ℕ)
            → IsWide net w n self.old → IsOverFanins net.nets n (cube_reads line.now.cube)
            → reads_in net.nets n fanin.0 ≡ true
            → (u : ℕ) → MatchBool (has blocked u)
            (LineInFlexWith net.nets w n line.now fanin.0 u → ⊥)
            (LineInFlexWith net.nets w n line.now fanin.0 u)) }
    {
        values_hit(
            &mut self.factors,
            &mut self.choices,
            &self.frame,
            line,
            fanin,
        )
    }

    /// What becomes of the net where its table gives way to the new cover.
    pub fn judge(&mut self, new: &Cover) -> Result<Verdict, FlexStop>
        ensures keeps { (net : NetParts) (w : a_window) (n : ℕ) → IsWide net w n self.old
            → IsWide net w n self.new }
        ensures cap { self.new.family.contents.cap ≡ self.old.family.contents.cap }
        ensures ok { IfOk result (λ verdict. (net : NetParts) (w : a_window) (n : ℕ)
            → IsWide net w n self.old → IsOverFanins net.nets n (cover_reads new.now)
            → (old : a_cover) → table_in (slot net.nets n) ≡ Some old
            → IsVerdict net.nets w n old new.now verdict) }
        ensures err { IfErr result (λ stop. (net : NetParts) (w : a_window) (n : ℕ)
            → IsWide net w n self.old
            → IsWideStop net.nets w self.old.family.contents.cap stop) }
    {
        match judge(&mut self.factors, self.alloc, &self.frame, new) {
            Ok(verdict) => Ok(verdict),
            Err(stop) => Err(stop_of(stop)),
        }
    }
}
