ghost use Rattle.std.specs.Prelude.{◌≡◌, ◌+◌, ◌<◌, ◌≤◌, length, IsTrue, OnOk, IfErr};
ghost use Rattle.mv_diagram.specs.Sets.{Point, InRange};
ghost use Rattle.mv_factors.specs.Families.{Keeps, before, set_at};
ghost use Rattle.mv_net.specs.Index.{is_held};
ghost use Rattle.mv_relation.specs.Relations.{HasVars, IsRelationStop, in_relation};

use crate::RelationStop;
use crate::cover::add_cover;
use mv_base::NetId;
use mv_factors::Factors;
use mv_net::Network;

/// Puts the relation of a held net behind the list: the set of the points at which its table, if it has one, allows its
/// value. The list `vars` has at the net's number, and at that of each net that it reads, the variable that has its value. The
/// time grows with the lines. There is room for two sets more, which are let go. Where it stops there may be more sets
/// behind the list.
pub fn add_relation(
    factors: &mut Factors,
    net: &Network,
    n: NetId,
    vars: &[u32],
) -> Result<(), RelationStop>
    requires held { IsTrue (is_held net.now.nets n.0) }
    requires room { length factors.old.list + 2 < factors.old.room }
    requires vars { HasVars net.now.nets factors.old.contents.counts vars.now n.0 }
    ensures keeps { Keeps factors.old factors.new (before (length factors.old.list)) }
    ensures front { length factors.old.list ≤ length factors.new.list }
    ensures long { OnOk result (length factors.new.list ≡ length factors.old.list + 1) }
    ensures set { OnOk result ((p : Point) → InRange factors.old.contents.counts p
        → set_at factors.new (length factors.old.list) p
        ≡ in_relation net.now.nets vars.now n.0 p) }
    ensures stop { IfErr result (IsRelationStop factors.new.contents) }
{
    net.well_formed();
    let own = vars[n.0 as usize];
    let alloc = net.parts().nets.allocator();
    match net.table(n) {
        None => {
            factors.add_all();
            Ok(())
        }
        Some(cover) => add_cover(factors, alloc, cover, vars, own),
    }
}
