ghost use Rattle.std.specs.Prelude.{◌≡◌, ◌↔◌, ℕ, Some, [], ◌∷◌, All, IsTrue, IfOk, MatchBool};
ghost use Rattle.mv_base.specs.Set.{one};
ghost use Rattle.mv_body.specs.Bodies.{AreKnown, IsTidy, cover_said};
ghost use Rattle.mv_cover.specs.declared.line.Line.{Line};
ghost use Rattle.mv_net.specs.Formed.{IsCover};
ghost use Rattle.mv_net.specs.Index.{is_held};
ghost use Rattle.mv_net.specs.Nets.{slot, values_in};
ghost use Rattle.mv_plans.specs.Checks.{Answers};
ghost use Rattle.mv_plans.specs.Completing.{IsLessThan, IsCompletedAt};
ghost use Rattle.mv_plans.specs.Dividing.{Divides, DivideRow, DividedRow, FailsDivide, IsSameTable, CanDivide};
ghost use Rattle.mv_plans.specs.Expanding.{IsDivisorNet};
ghost use Rattle.mv_plans.specs.Plans.{IsPlanned};

use crate::expand::stands_for;
use crate::lookup::tabled;
use crate::order::keeps_order;
use mv_base::{Items, Memory, Name, NetId, PackedSet, Value, ValueSet};
use mv_body::{is_known, tidy_cover};
use mv_cover::{Cover, Line};
use mv_entry::{Body, RuleFault};
use mv_net::{Change, Network, NewTable};
use std::alloc::Global;

/// The change by which the net with this name gets the body, or the first check that fails.
pub fn plan_divide(
    alloc: Global,
    net: &Network,
    name: &Name,
    by: &Name,
    body: &Body,
) -> Result<Change, RuleFault>
    ensures { Answers result (IsPlanned net.now (Divides net.now name.now by.now body.now))
        (FailsDivide net.now name.now by.now body.now) }
{
    net.well_formed();
    net.few();
    let Some(n) = tabled(net, name) else {
        return Err(RuleFault::NoNet);
    };
    let d = match net.find(by.bytes()) {
        Some(d) => d,
        None => return Err(RuleFault::NoNet),
    };
    let table = match check_body(alloc, net, n, body) {
        Ok(table) => table,
        Err(fault) => return Err(fault),
    };
    match check_divided(alloc, net, n, d, &table) {
        Ok(()) => {}
        Err(fault) => return Err(fault),
    }
    let table = match completed(alloc, net, n, table) {
        Ok(table) => table,
        Err(_memory) => return Err(RuleFault::Memory),
    };
    match getting(alloc, n, table) {
        Ok(change) => Ok(change),
        Err(_memory) => Err(RuleFault::Memory),
    }
}

/// The body as a table of the net, or the first check that fails of those that ask nothing of the divisor.
fn check_body(alloc: Global, net: &Network, n: NetId, body: &Body) -> Result<Cover, RuleFault>
    requires { IsTrue (is_held net.now.nets n.0) }
    ensures { Answers result
        (λ table. AreKnown net.now.nets body.now
        × IsTidy net.now.nets (values_in (slot net.now.nets n.0)) body.now
        × (table ≡ cover_said net.now.nets body.now))
        (λ f. (d : ℕ) → DivideRow net.now body.now n.0 d f) }
{
    net.well_formed();
    if !is_known(net, body) {
        return Err(RuleFault::NoNet);
    }
    match tidy_cover(alloc, net, net.values(n), body) {
        Ok(Some(table)) => Ok(table),
        Ok(None) => Err(RuleFault::Form),
        Err(_memory) => Err(RuleFault::Memory),
    }
}

/// Whether the net n may get the table, in which the net d stands for its own lines, or the first check that fails.
fn check_divided(
    alloc: Global,
    net: &Network,
    n: NetId,
    d: NetId,
    table: &Cover,
) -> Result<(), RuleFault>
    requires held { IsTrue (is_held net.now.nets n.0) }
    requires by { IsTrue (is_held net.now.nets d.0) }
    ensures { Answers result (λ _. CanDivide net.now.nets n.0 d.0 table.now)
        (DividedRow net.now.nets n.0 d.0 table.now) }
{
    if !is_divisor(net, d) {
        return Err(RuleFault::NotSame);
    }
    match keeps_order(alloc, net, n, d, table) {
        Ok(true) => {}
        Ok(false) => return Err(RuleFault::Loop),
        Err(_memory) => return Err(RuleFault::Memory),
    }
    match is_same_table(alloc, net, n, d, table) {
        Ok(true) => Ok(()),
        Ok(false) => Err(RuleFault::NotSame),
        Err(_memory) => Err(RuleFault::Memory),
    }
}

/// Whether the net has two values, and its table gives 1 where a line holds and else 0.
fn is_divisor(net: &Network, d: NetId) -> bool
    requires { IsTrue (is_held net.now.nets d.0) }
    ensures { MatchBool result (IsDivisorNet net.now.nets d.0) (IsDivisorNet net.now.nets d.0 → ⊥) }
{
    let Some(table) = net.table(d) else {
        return false;
    };
    net.values(d) == 2 && is_zero(&table.default) && all_give_one(table.lines.as_slice())
}

/// Whether the default is the value 0 alone.
fn is_zero(default: &Option<PackedSet>) -> bool
    ensures { IsTrue result ↔ default.now ≡ Some (one 0) }
{
    match default {
        Some(set) => set.get() == ValueSet::one(Value(0)),
        None => false,
    }
}

/// Whether each line gives the value 1 alone.
fn all_give_one(lines: &[Line]) -> bool
    ensures { IsTrue result ↔ All (λ (l : Line). l.out ≡ one 1) lines.now }
{
    lines
        .iter()
        .all(|line| line.out.get() == ValueSet::one(Value(1)))
}

/// Whether the table has the default of that of the net n, and stands for its lines.
fn is_same_table(
    alloc: Global,
    net: &Network,
    n: NetId,
    d: NetId,
    table: &Cover,
) -> Result<bool, Memory>
    requires held { IsTrue (is_held net.now.nets n.0) }
    requires by { IsTrue (is_held net.now.nets d.0) }
    ensures { IfOk result (λ same. MatchBool same (IsSameTable net.now.nets n.0 d.0 table.now)
        (IsSameTable net.now.nets n.0 d.0 table.now → ⊥)) }
{
    let Some(old) = net.table(n) else {
        return Ok(false);
    };
    let Some(inner) = net.table(d) else {
        return Ok(false);
    };
    if table.default != old.default {
        return Ok(false);
    }
    stands_for(alloc, d, inner, table, old)
}

/// The table, with the default 0 besides where that of the net n is total and this isn't.
fn completed(alloc: Global, net: &Network, n: NetId, mut table: Cover) -> Result<Cover, Memory>
    requires held { IsTrue (is_held net.now.nets n.0) }
    requires cover { IsCover net.now.nets (values_in (slot net.now.nets n.0)) table }
    ensures { IfOk result (λ new. IsCompletedAt net.now.nets n.0 table new) }
{
    if is_less(alloc, net, n, &table)? {
        table.default = Some(PackedSet::new(alloc, ValueSet::one(Value(0)))?);
    }
    Ok(table)
}

/// Whether the net's table is total, and this one isn't.
fn is_less(alloc: Global, net: &Network, n: NetId, table: &Cover) -> Result<bool, Memory>
    requires held { IsTrue (is_held net.now.nets n.0) }
    requires cover { IsCover net.now.nets (values_in (slot net.now.nets n.0)) table.now }
    ensures { IfOk result (λ less. MatchBool less (IsLessThan net.now.nets n.0 table.now)
        (IsLessThan net.now.nets n.0 table.now → ⊥)) }
{
    net.well_formed();
    if table.default.is_some() {
        return Ok(false);
    }
    if !net.is_total(alloc, n)? {
        return Ok(false);
    }
    Ok(!table.covers_all(alloc, net.counts())?)
}

/// The change by which a net gets this table.
pub fn getting(alloc: Global, n: NetId, table: Cover) -> Result<Change, Memory>
    ensures { IfOk result (λ change. change
        ≡ record {
          add = [];
          set = record { net = n; table = table }
              ∷ [];
          values = [];
          gone = [];
        }) }
{
    let mut set = Items::new(alloc);
    set.push(NewTable { net: n, table })?;
    Ok(Change {
        add: Items::new(alloc),
        set,
        values: Items::new(alloc),
        gone: Items::new(alloc),
    })
}
