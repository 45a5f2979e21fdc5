ghost use Rattle.std.specs.Prelude.{◌≡◌, true};
ghost use Rattle.mv_cover.specs.Cubes.{nets_ascend};
ghost use Rattle.mv_cover.specs.Overlap.{cubes_meet};

use crate::Lit;

/// Whether two cubes can hold together: no net has a literal in each whose sets have no common value.
/// One walk along both, since their nets ascend.
pub(crate) fn meet(a: &[Lit], b: &[Lit]) -> bool
    requires first { nets_ascend a.now ≡ true }
    requires second { nets_ascend b.now ≡ true }
    ensures { result ≡ cubes_meet a.now b.now }
{
    let mut i = 0;
    let mut j = 0;
    'walk: while i < a.len() && j < b.len() {
        let first = &a[i];
        let second = &b[j];
        if first.net().0 < second.net().0 {
            i += 1;
        } else if second.net().0 < first.net().0 {
            j += 1;
        } else if !first.meets(second) {
            return false;
        } else {
            i += 1;
            j += 1;
        }
    }
    true
}
