ghost use Rattle.std.specs.Prelude.{◌≡◌};
ghost use Rattle.mv_cover.specs.Cubes.{nets_ascend};
ghost use Rattle.mv_body.specs.Bodies.{IsByNet};

use mv_cover::Lit;

/// The literals by net.
pub fn by_net(mut lits: Vec<Lit>) -> Vec<Lit>
    ensures { IsByNet lits.items result.items }
{
    lits.sort_unstable_by_key(|literal| literal.net().0);
    lits
}

/// Whether the nets of the literals ascend.
pub fn ascend(lits: &[Lit]) -> bool
    ensures { result ≡ nets_ascend lits.now }
{
    for at in 1..lits.len() {
        if lits[at].net().0 <= lits[at - 1].net().0 {
            return false;
        }
    }
    true
}
