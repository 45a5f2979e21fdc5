ghost use Rattle.std.specs.Prelude.{◌≡◌, ◌≤◌, ◌∷◌, [], length, OnOk, OnErr, IfErr};
ghost use Rattle.mv_base.specs.declared.limits.TheConstants.{MAX_JOINT_ROWS};
ghost use Rattle.indexmap.specs.IndexSet.{insert_key};
ghost use Rattle.mv_joint.specs.OutRows.{same_outs};
ghost use Rattle.mv_joint.specs.Gather.{joined, IsGathered, Gathers, StopsOver};

use crate::joint::JointStop;
use crate::out_row::OutRow;
use crate::split::{PlainRow, is_silent};
use indexmap::IndexSet;
use mv_base::{Items, MAX_JOINT_ROWS, Memory};
use std::alloc::Global;

/// Rows one after the other, and the distinct rows of outputs of those that say some values of each output.
#[derive(Drop)]
pub struct Gathered {
    pub rows: Items<PlainRow>,
    pub outs: IndexSet<OutRow>,
}

impl Gathered {
    /// No rows.
    pub fn new(alloc: Global) -> Gathered
        ensures { IsGathered [] result }
    {
        Gathered {
            rows: Items::new(alloc),
            outs: IndexSet::new(alloc),
        }
    }

    /// Adds the row. There are too many distinct rows of outputs where that makes them more than `MAX_JOINT_ROWS`. On an
    /// error the rows are as before.
    #[tactic(auto, using(crate::proofs::Gathering::gathers_none))]
    pub fn put(&mut self, row: PlainRow) -> Result<(), JointStop>
        ensures rows { OnOk result (Gathers (row ∷ []) self.old self.new) }
        ensures few { OnOk result (length self.new.outs.keys ≤ MAX_JOINT_ROWS) }
        ensures stop { IfErr result (λ stop. StopsOver (row ∷ []) self.old stop) }
        ensures err { OnErr result (Gathers [] self.old self.new) }
    {
        if count_with(&self.outs, &row) > MAX_JOINT_ROWS {
            return Err(JointStop::Wide);
        }
        match self.add(row) {
            Ok(()) => Ok(()),
            Err(_memory) => Err(JointStop::Memory),
        }
    }

    /// Adds the row, however many rows of outputs there are.
    #[tactic(auto, using(crate::proofs::Gathering::gathers_kept, crate::proofs::Gathering::taken_back))]
    fn add(&mut self, row: PlainRow) -> Result<(), Memory>
        ensures ok { OnOk result (Gathers (row ∷ []) self.old self.new) }
        ensures err { OnErr result (Gathers [] self.old self.new) }
    {
        let count = self.outs.len();
        match add_said(&mut self.outs, &row) {
            Ok(()) => {}
            Err(memory) => return Err(memory),
        }
        match self.rows.push(row) {
            Ok(()) => Ok(()),
            Err(_refused) => {
                self.outs.truncate(count);
                Err(Memory)
            }
        }
    }
}

/// How many distinct rows of outputs there are with the row's.
#[tactic(auto, using(crate::proofs::Gathering::count_silent, crate::proofs::Gathering::count_old, crate::proofs::Gathering::count_new))]
fn count_with(all: &IndexSet<OutRow>, row: &PlainRow) -> u64
    ensures { result ≡ length (joined all.now.keys (row.now ∷ [])) }
{
    let count = all.len() as u64;
    if is_silent(row) || all.contains(&row.outs) {
        return count;
    }
    count + 1
}

/// Adds the row's outputs, if it says some values of each and they are new.
#[tactic(auto, using(crate::proofs::Gathering::joined_silent, crate::proofs::Gathering::joined_said))]
fn add_said(all: &mut IndexSet<OutRow>, row: &PlainRow) -> Result<(), Memory>
    ensures ok { OnOk result (all.new.keys ≡ joined all.old.keys (row.now ∷ [])) }
    ensures err { OnErr result (all.new.keys ≡ all.old.keys) }
{
    if is_silent(row) {
        return Ok(());
    }
    add_outs(all, &row.outs)
}

/// Adds the row of outputs, if it is new.
pub fn add_outs(all: &mut IndexSet<OutRow>, outs: &OutRow) -> Result<(), Memory>
    ensures ok { OnOk result (all.new.keys ≡ insert_key same_outs all.old.keys outs.now) }
    ensures err { OnErr result (all.new.keys ≡ all.old.keys) }
{
    if all.contains(outs) {
        return Ok(());
    }
    let copied = outs.copy()?;
    match all.insert(copied) {
        Ok(_new) => Ok(()),
        Err(_refused) => Err(Memory),
    }
}
