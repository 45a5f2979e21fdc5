ghost use Rattle.std.specs.Prelude.{◌≡◌, true, IsTrue, IfOk, MatchBool};
ghost use Rattle.mv_entry.specs.declared.note.Command.TheVariants.{Fill as fill_command};
ghost use Rattle.mv_pass.specs.Courses.{Perhaps};
ghost use Rattle.mv_pass.specs.Going.{Begun, Does};
ghost use Rattle.mv_pass.specs.Passing.{Passes};
ghost use Rattle.mv_net.specs.Index.{is_held};
ghost use Rattle.mv_plans.specs.Filling.{ArePlainAbove};
ghost use Rattle.mv_fill.specs.Fills.{FillsAll, FillsNet, FillsTables, IsUnfilled, StaysFor, rule_of};
ghost use Rattle.mv_fill.specs.Filling.{HasMarks, KeepsPlain};

use crate::Stop;
use crate::varied::{has_mark, varied_above};
use mv_base::{Memory, Name, NetId, PackedSet, Value, ValueSet};
use mv_entry::{Command, Journal, Note, Rule, Why};
use mv_net::Network;
use mv_pass::{end, take};
use mv_rules::Terms;
use std::alloc::Global;

/// Whether the net of this number has a table that allows nothing somewhere.
fn is_unfilled(alloc: Global, net: &Network, n: NetId) -> Result<bool, Memory>
    ensures { IfOk result
        (λ yes. MatchBool yes (IsUnfilled net.now.nets n.0) (IsUnfilled net.now.nets n.0 → ⊥)) }
{
    if !net.holds(n) {
        return Ok(false);
    }
    let Some(_table) = net.table(n) else {
        return Ok(false);
    };
    match net.is_total(alloc, n) {
        Ok(total) => Ok(!total),
        Err(memory) => Err(memory),
    }
}

/// Notes why the net stays.
fn note_reason<J: Journal>(
    alloc: Global,
    net: &Network,
    n: NetId,
    why: Why,
    terms: Terms,
    journal: &mut J,
) -> Result<(), Stop>
    requires unfilled { IsUnfilled net.now.nets n.0 }
    requires stays { StaysFor terms.free net.now n.0 why }
    ensures { Passes terms.free (FillsNet terms.free n.0)
        (Perhaps (FillsNet terms.free n.0)) net.now net.now
        (J.state journal.old) (J.state journal.new) result }
{
    net.well_formed();
    let name = match Name::new(alloc, net.name(n)) {
        Ok(name) => name,
        Err(_memory) => return Err(Stop::Memory),
    };
    match journal.note(&Note::Dropped(why, name)) {
        Ok(()) => Ok(()),
        Err(_failed) => Err(Stop::Note),
    }
}

/// The rule by which the net's table gets the value 0 as its default.
fn rule_for(alloc: Global, net: &Network, n: NetId) -> Result<Rule, Memory>
    requires { IsTrue (is_held net.now.nets n.0) }
    ensures { IfOk result (λ rule. rule ≡ rule_of net.now n.0) }
{
    let name = Name::new(alloc, net.name(n))?;
    let out = PackedSet::new(alloc, ValueSet::one(Value(0)))?;
    Ok(Rule::Fill { net: name, out })
}

/// Gives the net's table the value 0 as its default, and notes the rule.
fn fill_one<J: Journal>(
    alloc: Global,
    net: &mut Network,
    n: NetId,
    terms: Terms,
    journal: &mut J,
) -> Result<(), Stop>
    requires unfilled { IsUnfilled net.old.nets n.0 }
    requires free { terms.free ≡ true }
    requires plain { ArePlainAbove net.old.nets n.0 }
    ensures keeps { KeepsPlain net.old.nets net.new.nets }
    ensures passes { Passes terms.free (FillsNet terms.free n.0)
        (Perhaps (FillsNet terms.free n.0)) net.old net.new
        (J.state journal.old) (J.state journal.new) result }
{
    net.well_formed();
    let rule = match rule_for(alloc, net, n) {
        Ok(rule) => rule,
        Err(_memory) => return Err(Stop::Memory),
    };
    match take(alloc, net, &rule, terms, journal) {
        Ok(()) => Ok(()),
        Err(stop) => Err(stop),
    }
}

/// Visits the net of this number: fills its table where that allows nothing somewhere, or notes why it stays.
fn visit<J: Journal>(
    alloc: Global,
    net: &mut Network,
    marks: &[bool],
    n: NetId,
    terms: Terms,
    journal: &mut J,
) -> Result<(), Stop>
    requires { HasMarks net.old.nets marks.now }
    ensures keeps { KeepsPlain net.old.nets net.new.nets }
    ensures passes { Passes terms.free (FillsNet terms.free n.0)
        (Perhaps (FillsNet terms.free n.0)) net.old net.new
        (J.state journal.old) (J.state journal.new) result }
{
    match is_unfilled(alloc, net, n) {
        Ok(true) => {}
        Ok(false) => return Ok(()),
        Err(_memory) => return Err(Stop::Memory),
    }
    let free = terms.free;
    if !free {
        return note_reason(alloc, net, n, Why::Strict, terms, journal);
    }
    if has_mark(marks, n) {
        return note_reason(alloc, net, n, Why::Varied, terms, journal);
    }
    fill_one(alloc, net, n, terms, journal)
}

/// Visits all nets, ascending.
fn visit_each<J: Journal>(
    alloc: Global,
    net: &mut Network,
    marks: &[bool],
    terms: Terms,
    journal: &mut J,
) -> Result<(), Stop>
    requires { HasMarks net.old.nets marks.now }
    ensures { Passes terms.free (FillsAll terms.free) (FillsTables terms.free) net.old net.new
        (J.state journal.old) (J.state journal.new) result }
{
    for number in 0..net.next_number() {
        net.well_formed();
        match visit(alloc, net, marks, NetId(number), terms, journal) {
            Ok(()) => {}
            Err(stop) => return Err(stop),
        }
    }
    Ok(())
}

/// All steps of `fill`. Which nets have a varied table above them is decided once: a table that is filled stays plainly
/// deterministic where it was, and no other comes to be so.
fn fill_tables<J: Journal>(
    alloc: Global,
    net: &mut Network,
    terms: Terms,
    journal: &mut J,
) -> Result<(), Stop>
    ensures { Passes terms.free (FillsAll terms.free) (FillsTables terms.free) net.old net.new
        (J.state journal.old) (J.state journal.new) result }
{
    let marks = match varied_above(alloc, net) {
        Ok(marks) => marks,
        Err(_memory) => return Err(Stop::Memory),
    };
    match visit_each(alloc, net, marks.as_slice(), terms, journal) {
        Ok(()) => Ok(()),
        Err(stop) => Err(stop),
    }
}

/// The command `fill`: visits each net, ascending. A table that allows nothing somewhere gets the value 0 as its default; but it is
/// noted that it stays, where nothing is free, or else where a table above it isn't plainly deterministic. Where nothing is free the
/// network stays; else it may take the place of the old one under values where that one allows some choice; also where the command
/// stops.
pub fn fill<J: Journal>(
    alloc: Global,
    net: &mut Network,
    journal: &mut J,
    terms: Terms,
) -> Result<(), Stop>
    ensures passes { Passes terms.free (Does (FillsAll terms.free) fill_command)
        (Begun (FillsAll terms.free) (FillsTables terms.free) fill_command) net.old net.new
        (J.state journal.old) (J.state journal.new) result }
{
    match journal.note(&Note::Begin(Command::Fill)) {
        Ok(()) => {}
        Err(_failed) => return Err(Stop::Note),
    }
    match fill_tables(alloc, net, terms, journal) {
        Ok(()) => end(net, journal),
        Err(stop) => Err(stop),
    }
}
