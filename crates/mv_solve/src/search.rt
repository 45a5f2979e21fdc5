//! The search for a solution. The nets take their values in an order in which each stands behind those of its fanins of
//! which more than one value may be asked: the least that its table allows. Where a net may have none it goes back, past
//! each choice on which that does not rest: after the backjumping of Gaschnig and of Prosser. Which nets clash is kept
//! exactly on the way back to the next choice; of a choice that failed before, only up to which place of its part its
//! failing rests. So a way back never leaves the part that it began in.
ghost use Rattle.std.specs.Prelude.{◌≡◌, ◌≤◌, ◌<◌, ℕ, false, length, slice_index, MatchBool, MatchOption, IfSome};
ghost use Rattle.mv_solve.specs.Asked.{IsSolution, NoSolution};
ghost use Rattle.mv_solve.specs.Marks.{is_marked, MarkedWithin};
ghost use Rattle.mv_solve.specs.Way.{AreGiven, AreOpen, AreSettled, IsWay, NoneAlike, HasRoom, Goes};

use crate::Asked;
use crate::first::least_value;
use crate::marks::{end_of_marked, mark_alone, mark_open};
use mv_base::NetId;
use mv_net::Network;

/// Goes back from a place where the marked nets, which lie before it, can't all have the values that they have: to the
/// last place whose net can have another value that isn't known to fail, and gives it that. It answers the place
/// behind, or None where there is no solution.
fn go_back(
    net: &Network,
    order: &[NetId],
    starts: &[usize],
    asked: &[Asked],
    marks: &mut [bool],
    bounds: &mut [usize],
    values: &mut [u16],
    from: usize,
) -> Option<usize>
    requires way { IsWay net.now.nets order.now starts.now asked.now }
    requires room { HasRoom order.now asked.now marks.old bounds.old values.old }
    requires inside { from < length order.now }
    requires settled { AreSettled
        net.now.nets order.now starts.now asked.now bounds.old (slice_index values.old) from }
    requires marked { MarkedWithin marks.old order.now (slice_index starts.now from) from }
    requires free { AreOpen asked.now marks.old }
    requires none { NoneAlike
        net.now.nets order.now asked.now (is_marked marks.old) (slice_index values.old) }
    ensures settled { MatchOption result (NoSolution net.now.nets order.now asked.now)
        (AreSettled net.now.nets order.now starts.now asked.now bounds.new (slice_index values.new)) }
    ensures goes { IfSome result
        (Goes order.now (slice_index values.old) (slice_index values.new) from) }
{
    let start = starts[from];
    let mut place = from;
    while place > start {
        place -= 1;
        let n = order[place];
        let number = n.0 as usize;
        if marks[number] {
            marks[number] = false;
            let next = u32::from(values[number]) + 1;
            if let Some(value) = least_value(net, n, asked[number], values, next) {
                values[number] = value.0;
                let end = end_of_marked(marks, order, start, place);
                bounds[place] = bounds[place].max(end);
                return Some(place + 1);
            }
            mark_open(marks, asked, net.fanins(n));
            mark_open(marks, asked, &order[start..bounds[place]]);
        }
    }
    None
}

/// Looks for a solution: whether there is one, and then the values are it. Where it isn't to turn it gives up, with None, as
/// soon as a net is to have another value than its first.
pub fn search(
    net: &Network,
    order: &[NetId],
    starts: &[usize],
    asked: &[Asked],
    marks: &mut [bool],
    bounds: &mut [usize],
    values: &mut [u16],
    turns: bool,
) -> Option<bool>
    requires way { IsWay net.now.nets order.now starts.now asked.now }
    requires room { HasRoom order.now asked.now marks.old bounds.old values.old }
    requires given { AreGiven asked.now (slice_index values.old) }
    ensures { MatchOption result (turns ≡ false) (λ found. MatchBool found
        (IsSolution net.now.nets order.now asked.now (slice_index values.new))
        (NoSolution net.now.nets order.now asked.now)) }
{
    let mut place = 0;
    while place < order.len() {
        let n = order[place];
        let number = n.0 as usize;
        if let Some(value) = least_value(net, n, asked[number], values, 0) {
            values[number] = value.0;
            bounds[place] = starts[place];
            place += 1;
        } else {
            mark_alone(marks, asked, net.fanins(n));
            let Some(next) = go_back(net, order, starts, asked, marks, bounds, values, place) else {
                return Some(false);
            };
            if !turns {
                return None;
            }
            place = next;
        }
    }
    Some(true)
}
