ghost use Rattle.std.specs.Prelude.{◌≡◌, [], ◌∷◌, IfOk};
ghost use Rattle.mv_body.specs.Bodies.{cover_said};
ghost use Rattle.mv_plans.specs.Adding.{Adds, CanAdd, FailsAdd};
ghost use Rattle.mv_plans.specs.Checks.{Answers};
ghost use Rattle.mv_plans.specs.Plans.{IsPlanned};

use crate::fresh::is_new_name;
use mv_base::{Items, MAX_NETS, Memory, Name};
use mv_body::{is_choice, is_known, tidy_cover};
use mv_cover::Cover;
use mv_entry::{Body, RuleFault};
use mv_net::{Change, Network, NewNet};
use std::alloc::Global;

/// How many values a net has that a rule adds.
const TWO: u16 = 2;

/// The change by which a net with this name and body comes, or the first check that fails.
pub fn plan_add(alloc: Global, net: &Network, name: &Name, body: &Body) -> Result<Change, RuleFault>
    ensures { Answers result (IsPlanned net.now (Adds net.now name.now body.now))
        (FailsAdd net.now name.now body.now) }
{
    net.well_formed();
    let table = match check_add(alloc, net, name, body) {
        Ok(table) => table,
        Err(fault) => return Err(fault),
    };
    match coming(alloc, name, table) {
        Ok(change) => Ok(change),
        Err(_memory) => Err(RuleFault::Memory),
    }
}

/// The table of a net that may come, or the first check that fails.
fn check_add(alloc: Global, net: &Network, name: &Name, body: &Body) -> Result<Cover, RuleFault>
    ensures { Answers result
        (λ table. CanAdd net.now.nets name.now body.now
        × (table ≡ cover_said net.now.nets body.now))
        (FailsAdd net.now name.now body.now) }
{
    if !is_known(net, body) {
        return Err(RuleFault::NoNet);
    }
    let table = match tidy_cover(alloc, net, TWO, body) {
        Ok(Some(table)) => table,
        Ok(None) => return Err(RuleFault::Form),
        Err(_memory) => return Err(RuleFault::Memory),
    };
    if !is_choice(body) {
        return Err(RuleFault::Form);
    }
    if !is_new_name(net, name) {
        return Err(RuleFault::NotFresh);
    }
    if net.next_number() as u64 >= MAX_NETS {
        return Err(RuleFault::Nets);
    }
    Ok(table)
}

/// The change by which a net of two values with this name and table comes.
fn coming(alloc: Global, name: &Name, table: Cover) -> Result<Change, Memory>
    ensures { IfOk result (λ change. change
        ≡ record {
          add = record { name = name.now; values = 2; table = table } ∷ [];
          set = [];
          values = [];
          gone = [];
        }) }
{
    let mut add = Items::new(alloc);
    add.push(NewNet {
        name: name.copy()?,
        values: TWO,
        table,
    })?;
    Ok(Change {
        add,
        set: Items::new(alloc),
        values: Items::new(alloc),
        gone: Items::new(alloc),
    })
}
