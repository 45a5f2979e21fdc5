ghost use Rattle.std.specs.Prelude.{◌≡◌, ◌≤◌, ◌<◌, ◌||◌, ◌&&◌, not, ℕ, true, false, length};
ghost use Rattle.mv_graph.specs.Nets.{has_id};
ghost use Rattle.mv_solve.specs.Asked.{asked_of};
ghost use Rattle.mv_solve.specs.Known.{is_only};
ghost use Rattle.mv_solve.specs.Marks.{is_marked, MarkedWithin};

use crate::Asked;
use crate::known::known_of;
use mv_base::NetId;

/// Takes all marks away.
fn clear(marks: &mut [bool])
    ensures { (m : ℕ) → is_marked marks.new m ≡ false }
{
    for at in 0..marks.len() {
        marks[at] = false;
    }
}

/// Marks these nets besides, but for those of which one value is asked.
pub fn mark_open(marks: &mut [bool], asked: &[Asked], nets: &[NetId])
    requires { (m : ℕ) → has_id nets.now m ≡ true → m < length marks.old }
    ensures { (m : ℕ) → is_marked marks.new m
        ≡ (is_marked marks.old m || (has_id nets.now m && not (is_only (asked_of asked.now m)))) }
{
    for n in nets {
        if !known_of(asked, *n).is_only() {
            marks[n.0 as usize] = true;
        }
    }
}

/// Marks these nets, but for those of which one value is asked, and no others.
pub fn mark_alone(marks: &mut [bool], asked: &[Asked], nets: &[NetId])
    requires { (m : ℕ) → has_id nets.now m ≡ true → m < length marks.old }
    ensures { (m : ℕ) → is_marked marks.new m
        ≡ (has_id nets.now m && not (is_only (asked_of asked.now m))) }
{
    clear(marks);
    mark_open(marks, asked, nets);
}

/// The place behind the last marked net, where the marked nets lie at the places from `start` on and below `place`: or
/// `start` where none is marked.
pub fn end_of_marked(marks: &[bool], order: &[NetId], start: usize, place: usize) -> usize
    requires within { MarkedWithin marks.now order.now start place }
    requires inside { place ≤ length order.now }
    requires above { start ≤ place }
    ensures within { MarkedWithin marks.now order.now start result }
    ensures low { result ≤ place }
    ensures above { start ≤ result }
{
    let mut end = place;
    while end > start {
        let n = order[end - 1];
        if marks.get(n.0 as usize).copied().unwrap_or(false) {
            return end;
        }
        end -= 1;
    }
    end
}
