ghost use Rattle.std.specs.Prelude.{◌≡◌, Bool, is_some, IfOk, IsTrue};
ghost use Rattle.mv_net.specs.Nets.{slot, table_in};
ghost use Rattle.mv_pass.specs.Courses.{Perhaps};
ghost use Rattle.mv_pass.specs.Passing.{Passes};
ghost use Rattle.mv_rule_body.specs.Named.{AreHeld, body_of as body_named};
ghost use Rattle.mv_visit.specs.Visits.{IsNoted, rule_of};

use mv_base::{Memory, Name, NetId};
use mv_cover::Cover;
use mv_entry::{Journal, Note, Rule, Why};
use mv_net::Network;
use mv_pass::Stop;
use mv_rule_body::body_of;
use std::alloc::Global;

/// Whether the net of this number has a table.
pub fn has_table(net: &Network, n: NetId) -> bool
    ensures { result ≡ is_some (table_in (slot net.now.nets n.0)) }
{
    net.holds(n) && net.table(n).is_some()
}

/// Notes why the net, which has a table, stays.
pub fn note_why<J: Journal>(
    alloc: Global,
    net: &Network,
    n: NetId,
    why: Why,
    journal: &mut J,
) -> Result<(), Stop>
    requires { IsTrue (is_some (table_in (slot net.now.nets n.0))) }
    ensures { (free : Bool)
        → Passes free (IsNoted n.0 why) (Perhaps (IsNoted n.0 why)) net.now net.now
        (J.state journal.old) (J.state journal.new) result }
{
    net.well_formed();
    let name = match Name::new(alloc, net.name(n)) {
        Ok(name) => name,
        Err(_memory) => return Err(Stop::Memory),
    };
    match journal.note(&Note::Dropped(why, name)) {
        Ok(()) => Ok(()),
        Err(_failed) => Err(Stop::Note),
    }
}

/// The rule by which the net, which has a table, gets another in the window that goes `d` steps down from it and from there `u` up.
pub fn narrowing(
    alloc: Global,
    net: &Network,
    n: NetId,
    d: u8,
    u: u8,
    table: &Cover,
) -> Result<Rule, Memory>
    requires tabled { IsTrue (is_some (table_in (slot net.now.nets n.0))) }
    requires held { AreHeld net.now.nets table.now }
    ensures { IfOk result
        (λ rule. rule ≡ rule_of net.now n.0 d u (body_named net.now.nets table.now)) }
{
    let name = Name::new(alloc, net.name(n))?;
    let body = body_of(alloc, net, table)?;
    Ok(Rule::Narrow {
        net: name,
        d: d as u16,
        u: u as u16,
        body,
    })
}
