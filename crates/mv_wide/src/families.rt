ghost use Rattle.std.specs.Prelude.{◌≡◌, ◌+◌, ◌-◌, ◌<◌, ◌≤◌, ◌==◌, true, if◌then◌else◌, length, All, IsTrue, OnOk, IfErr};
ghost use Rattle.mv_base.specs.declared.number.NetId.{NetId};
ghost use Rattle.mv_diagram.specs.Diagrams.{HasNoRoom};
ghost use Rattle.mv_diagram.specs.Sets.{Point};
ghost use Rattle.mv_factors.specs.Families.{Keeps, before, but, set_at};
ghost use Rattle.mv_net.specs.Index.{is_held};
ghost use Rattle.mv_relation.specs.Relations.{HasVars, IsRelationStop};
ghost use Rattle.mv_wide.specs.Families.{AreCopies, AreRelations, IsInEach};

use mv_base::NetId;
use mv_diagram::Nodes;
use mv_factors::Factors;
use mv_net::Network;
use mv_relation::{RelationStop, add_relation};

/// Puts the relations of these tables behind the list. There is room for two sets more.
pub fn add_relations(
    factors: &mut Factors,
    net: &Network,
    tables: &[NetId],
    vars: &[u32],
) -> Result<(), RelationStop>
    requires held { All (λ (m : NetId). IsTrue (is_held net.now.nets m.0)) tables.now }
    requires room { length factors.old.list + length tables.now + 2 ≤ factors.old.room }
    requires vars { All (λ (m : NetId).
        HasVars net.now.nets factors.old.contents.counts vars.now m.0) tables.now }
    ensures keeps { Keeps factors.old factors.new (before (length factors.old.list)) }
    ensures front { length factors.old.list ≤ length factors.new.list }
    ensures long { OnOk result
        (length factors.new.list ≡ length factors.old.list + length tables.now) }
    ensures set { OnOk result (AreRelations net.now.nets vars.now tables.now (length tables.now)
        factors.new (length factors.old.list)) }
    ensures stop { IfErr result (IsRelationStop factors.new.contents) }
{
    for table in tables {
        match add_relation(factors, net, *table, vars) {
            Ok(()) => {}
            Err(stop) => return Err(stop),
        }
    }
    Ok(())
}

/// Puts the set of a place behind the list too, or that of all points if the place is left out.
fn add_copy_but(factors: &mut Factors, place: usize, left_out: usize)
    requires place { place < length factors.old.list }
    requires room { length factors.old.list < factors.old.room }
    ensures keeps { Keeps factors.old factors.new (before (length factors.old.list)) }
    ensures long { length factors.new.list ≡ length factors.old.list + 1 }
    ensures set { (p : Point) → set_at factors.new (length factors.old.list) p
        ≡ (if place == left_out then true else set_at factors.old place p) }
{
    if place == left_out {
        factors.add_all();
    } else {
        factors.add_copy(place);
    }
}

/// Puts so many sets from a place on behind the list too, and that of all points for one that is left out.
pub fn add_copies(factors: &mut Factors, from: usize, count: usize, left_out: usize)
    requires last { from + count ≤ length factors.old.list }
    requires room { length factors.old.list + count ≤ factors.old.room }
    ensures keeps { Keeps factors.old factors.new (before (length factors.old.list)) }
    ensures long { length factors.new.list ≡ length factors.old.list + count }
    ensures set { AreCopies factors.old factors.new from count left_out (length factors.old.list) }
{
    // each place has a number
    let _ = factors.len();
    for offset in 0..count {
        add_copy_but(factors, from + offset, left_out);
    }
}

/// Leaves in the set of a place the points that all sets behind it have too.
pub fn meet_all(factors: &mut Factors, place: usize) -> Result<(), Nodes>
    requires { place < length factors.old.list }
    ensures keeps { Keeps factors.old factors.new (but place) }
    ensures long { length factors.new.list ≡ length factors.old.list }
    ensures only { OnOk result ((p : Point) → set_at factors.new place p ≡ true
        → IsInEach factors.old place (length factors.old.list) p) }
    ensures all { OnOk result ((p : Point)
        → IsInEach factors.old place (length factors.old.list) p
        → set_at factors.new place p ≡ true) }
    ensures full { IfErr result (HasNoRoom factors.new.contents) }
{
    let last = factors.len();
    let first = place + 1;
    for other in first..last {
        match factors.meet(place, other) {
            Ok(()) => {}
            Err(stop) => return Err(stop),
        }
    }
    Ok(())
}
