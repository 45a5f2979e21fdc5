ghost use Rattle.std.specs.Prelude.{◌≡◌, IfOk, OnOk};
ghost use Rattle.mv_base.specs.Meaning.{SameMeaning};
ghost use Rattle.mv_division.specs.Divisors.{IsDivisorOver, add_rule, divisor_cover};
ghost use Rattle.mv_extract.specs.Dividing.{IsAdded};
ghost use Rattle.mv_extract.specs.Steps.{AddsDivisor};
ghost use Rattle.mv_net.specs.Allowed.{of_net};
ghost use Rattle.mv_pass.specs.Courses.{Perhaps};
ghost use Rattle.mv_pass.specs.Passing.{Passes};
ghost use Rattle.mv_plans.specs.Checks.{HasRoom};

use crate::Stop;
use mv_base::{Items, Memory, Name, PackedSet, Value, ValueSet};
use mv_cover::{Cover, Cube, Line};
use mv_division::add_law;
use mv_entry::{Journal, Rule};
use mv_net::Network;
use mv_pass::take;
use mv_rule_body::{body_laws, body_of};
use mv_rules::Terms;
use std::alloc::Global;

/// The table of a divisor: 1 where one of its cubes holds, and else 0.
fn divisor_table(alloc: Global, divisor: &[Cube]) -> Result<Cover, Memory>
    ensures { IfOk result (λ table. table ≡ divisor_cover divisor.now) }
{
    let mut lines = Items::with_room(alloc, divisor.len())?;
    for cube in divisor {
        let out = PackedSet::new(alloc, ValueSet::one(Value(1)))?;
        lines.push(Line {
            cube: cube.copy()?,
            out,
        })?;
    }
    Cover::new(alloc, lines, Some(ValueSet::one(Value(0))))
}

/// The rule by which a net with this name comes that stands for the divisor.
fn rule_for(alloc: Global, net: &Network, name: &Name, divisor: &[Cube]) -> Result<Rule, Memory>
    requires { IsDivisorOver net.now.nets divisor.now }
    ensures { IfOk result (λ rule. rule ≡ add_rule net.now.nets name.now divisor.now) }
{
    add_law();
    body_laws();
    let table = divisor_table(alloc, divisor)?;
    let body = body_of(alloc, net, &table)?;
    Ok(Rule::Add {
        net: name.copy()?,
        body,
    })
}

/// A net comes that stands for the divisor, by the first fresh name, and the rule is noted.
pub fn add_divisor<J: Journal>(
    alloc: Global,
    net: &mut Network,
    divisor: &[Cube],
    terms: Terms,
    journal: &mut J,
) -> Result<(), Stop>
    requires over { IsDivisorOver net.old.nets divisor.now }
    requires room { HasRoom net.old.nets }
    ensures passes { Passes terms.free (AddsDivisor terms.free divisor.now)
        (Perhaps (AddsDivisor terms.free divisor.now))
        net.old net.new (J.state journal.old) (J.state journal.new) result }
    ensures comes { OnOk result (IsAdded divisor.now net.old net.new) }
    ensures means { SameMeaning (of_net net.new) (of_net net.old) }
{
    net.well_formed();
    add_law();
    let name = match net.fresh_name(0) {
        Ok(name) => name,
        Err(_memory) => return Err(Stop::Memory),
    };
    let rule = match rule_for(alloc, net, &name, divisor) {
        Ok(rule) => rule,
        Err(_memory) => return Err(Stop::Memory),
    };
    match take(alloc, net, &rule, terms, journal) {
        Ok(()) => Ok(()),
        Err(stop) => Err(stop),
    }
}
