ghost use Rattle.std.specs.Prelude.{◌≡◌, true, map};
ghost use Rattle.mv_page.specs.Page.{AddsPiece, paged};
ghost use Rattle.mv_cover.specs.Cubes.{nets_ascend};
ghost use Rattle.mv_graph.specs.Nets.{ids_ascend};
ghost use Rattle.mv_text.specs.Text.{numbers};
ghost use Rattle.mv_blif_text.specs.BlifText.{set_digit, plane_byte};

use mv_base::{Failed, NetId, Sink};
use mv_cover::Lit;
use mv_write::{Page, literals_behind};

/// The digit of a literal's set, of a net with two values.
#[tactic(auto, unfolding(mv_base::specs::Set::one))]
fn set_digit(lit: &Lit) -> u8
    ensures { result ≡ set_digit lit.now.set }
{
    match lit.bits() {
        Some(1) => b'0',
        _ => b'1',
    }
}

/// The byte of a net in a cube. It is found early where the literals on lower nets are few.
#[tactic(auto, using(crate::proofs::PlaneBytes::nearing))]
fn plane_byte(lits: &[Lit], net: NetId) -> u8
    requires { nets_ascend lits.now ≡ true }
    ensures { result ≡ plane_byte lits.now net.0 }
{
    for lit in lits {
        let on = lit.net().0;
        if on == net.0 {
            return set_digit(lit);
        }
        if on > net.0 {
            return b'-';
        }
    }
    b'-'
}

/// Appends the bytes of these nets in a cube.
pub fn put_plane<K: Sink>(
    lits: &[Lit],
    fanins: &[NetId],
    page: &mut Page,
    out: &mut K,
) -> Result<(), Failed>
    requires literals { nets_ascend lits.now ≡ true }
    requires fanins { ids_ascend fanins.now ≡ true }
    ensures { AddsPiece (paged (K.state out.old) page.old) (paged (K.state out.new) page.new)
        (map (plane_byte lits.now) (numbers fanins.now)) result }
{
    let mut left = lits;
    for n in fanins {
        page.put(&[plane_byte(left, *n)], out)?;
        left = literals_behind(left, *n);
    }
    Ok(())
}
