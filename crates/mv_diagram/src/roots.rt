ghost use Rattle.std.specs.Prelude.{◌≡◌, ◌<◌, ◌≤◌, Some, length, All, vec_capacity};
ghost use Rattle.mv_diagram.specs.Roots.{AreGathered, AreMarked, IsAdded, IsPlaceBelow};
ghost use Rattle.mv_pool.specs.declared.pool.Id.{Id};

use crate::Dd;
use mv_pool::Id;

/// The places of the first nodes of the roots, each once, within the room that is there.
pub fn gather(roots: &[Dd], places: u32, marks: &mut Vec<bool>, ids: &mut Vec<Id>)
    requires below { All (IsPlaceBelow places) roots.now }
    requires marks { places ≤ vec_capacity marks.old }
    requires ids { places ≤ vec_capacity ids.old }
    ensures gathered { AreGathered roots.now ids.new.items (length roots.now) }
    ensures marks { vec_capacity marks.old ≤ vec_capacity marks.new }
    ensures ids { vec_capacity ids.old ≤ vec_capacity ids.new }
{
    marks.clear();
    marks.resize(places as usize, false).unwrap();
    ids.clear();
    for root in roots {
        add(root.place(), marks, ids);
    }
}

/// Marks a place, and puts it behind the others, unless it is marked.
fn add(place: Option<Id>, marks: &mut Vec<bool>, ids: &mut Vec<Id>)
    requires marked { AreMarked marks.old.items ids.old.items }
    requires within { (id : Id) → place ≡ Some id → id.0 < length marks.old.items }
    requires room { length marks.old.items ≤ vec_capacity ids.old }
    ensures added { IsAdded place marks.old.items ids.old.items marks.new.items ids.new.items }
    ensures marks { vec_capacity marks.old ≤ vec_capacity marks.new }
    ensures ids { vec_capacity ids.old ≤ vec_capacity ids.new }
{
    if let Some(id) = place {
        let at = id.0 as usize;
        if !marks[at] {
            marks[at] = true;
            ids.push_reserved(id);
        }
    }
}
