ghost use Rattle.std.specs.Prelude.{◌≡◌, ◌<◌, ◌≤◌, ◌^◌, All, IfOk, OnOk, length, map};
ghost use Rattle.std.specs.List.{IsDistinct};
ghost use Rattle.indexmap.specs.IndexSet.{insert_all};
ghost use Rattle.mv_base.specs.declared.limits.TheConstants.{MAX_NETS};
ghost use Rattle.mv_cover.specs.Equal.{cube_eq, lit_eq};
ghost use Rattle.mv_cover.specs.Covers.{literal_count};
ghost use Rattle.mv_saving.specs.Saving as savings;
ghost use Rattle.mv_gains.specs.Gains.{covers_at, lines_at};
ghost use Rattle.mv_gains.specs.Holders.{Ascends};
ghost use Rattle.mv_gains.specs.Tables.{HasAllOf, HasLines, IsDivisor, IsGainAt, IsOnlyGain, IsPartsSaving, IsReady};

use crate::holders::{Holders, no_holders, note_all, places_of};
use indexmap::IndexSet;
use mv_base::{Items, Memory};
use mv_cover::{Cube, Line, Lit};
use mv_divide::{Part, parts};
use mv_net::{FlatNet, Network};
use mv_saving::saving;
use std::alloc::Global;
use std::marker::Model;

/// The covers of each table of a network, by number of net, and the tables that have each literal.
#[derive(Drop)]
pub struct Tables {
    covers: Vec<Items<Part>>,
    holders: Holders,
}

impl Model for Tables {
    ghost use Rattle.std.specs.Prelude.{List};
    ghost use Rattle.mv_divide.specs.declared.part.Part.{Part as a_part};

    ghost Value = { List (List a_part) };

    ghost use Rattle.mv_gains.specs.Tables.{AreKept};
    ghost use Rattle.mv_gains.specs.Holders.{places_in};

    ghost view = { λ t. t.covers.items };

    ghost invariant = { λ t. AreKept t.covers.items (places_in t.holders) };
}

impl Tables {
    /// The tables of the network.
    pub fn of(alloc: Global, net: &Network) -> Result<Tables, Memory>
        ensures { IfOk result (λ tables. tables ≡ map covers_at net.now.nets) }
    {
        net.well_formed();
        net.few();
        Tables::of_nets(alloc, net.parts().nets.as_slice())
    }

    /// The tables of these nets, whose lines are distinct.
    fn of_nets(alloc: Global, nets: &[Option<FlatNet>]) -> Result<Tables, Memory>
        requires few { length nets.now ≤ MAX_NETS }
        requires lines { All HasLines nets.now }
        ensures { IfOk result (λ tables. tables ≡ map covers_at nets.now) }
    {
        let mut covers = Vec::new(alloc);
        let mut holders = no_holders(alloc);
        for (number, net) in nets.iter().enumerate() {
            let lines = lines_of(net);
            let literals = literals_of(alloc, lines)?;
            note_all(alloc, &mut holders, number, literals.as_slice())?;
            covers.push(Items::of(parts(alloc, lines)?))?;
        }
        Ok(Tables { covers, holders })
    }

    /// What dividing all tables by the divisor saves. The divisor's own literals aren't counted.
    pub fn gain(&self, divisor: &[Cube]) -> Result<u128, Memory>
        requires { IsDivisor divisor.now }
        ensures { IfOk result (λ gain. IsOnlyGain self.now divisor.now gain) }
    {
        let first = &divisor[0].lits()[0];
        self.gain_at(places_of(&self.holders, first), divisor)
    }

    /// What dividing the tables at these places by the divisor saves.
    fn gain_at(&self, places: &[usize], divisor: &[Cube]) -> Result<u128, Memory>
        requires places { Ascends 0 (length self.now) places.now }
        requires distinct { IsDistinct cube_eq divisor.now }
        requires some { 0 < savings.literals divisor.now }
        ensures { IfOk result (λ gain. IsGainAt self.now places.now divisor.now gain) }
    {
        let mut total: u128 = 0;
        for place in places {
            total += saving_of(self.covers[*place].as_slice(), divisor)?;
        }
        Ok(total)
    }
}

/// What dividing the covers of a table by the divisor saves.
pub fn saving_of(parts: &[Part], divisor: &[Cube]) -> Result<u128, Memory>
    requires ready { IsReady parts.now }
    requires distinct { IsDistinct cube_eq divisor.now }
    requires some { 0 < savings.literals divisor.now }
    ensures saved { IfOk result (λ saved. IsPartsSaving divisor.now parts.now saved) }
    ensures few { IfOk result (λ saved. saved ≤ 2 ^ 96) }
{
    let mut total: u128 = 0;
    for part in parts {
        total += saving(&part.cover, divisor)?;
    }
    Ok(total)
}

/// The lines of the net's table, and none where it has no table.
pub fn lines_of(net: &Option<FlatNet>) -> &[Line]
    ensures lines { result.now ≡ lines_at net.now }
    ensures few { literal_count result.now ≤ 2 ^ 96 }
{
    match net {
        Some(held) => match &held.table {
            Some(cover) => {
                let _literals = cover.literals();
                cover.lines.as_slice()
            }
            None => &[],
        },
        None => &[],
    }
}

/// The literals of the lines, each once.
fn literals_of(alloc: Global, lines: &[Line]) -> Result<IndexSet<Lit>, Memory>
    ensures { IfOk result (λ found. All (HasAllOf found.keys) lines.now) }
{
    let mut found = IndexSet::new(alloc);
    for line in lines {
        add_all(&mut found, line.cube.lits())?;
    }
    Ok(found)
}

/// Puts the literals to those found.
fn add_all(found: &mut IndexSet<Lit>, literals: &[Lit]) -> Result<(), Memory>
    ensures { OnOk result (found.new.keys ≡ insert_all lit_eq found.old.keys literals.now) }
{
    for literal in literals {
        found.insert(literal.copy()?)?;
    }
    Ok(())
}
