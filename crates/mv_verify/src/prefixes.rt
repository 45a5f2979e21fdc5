//! The values of ports in the order of numbers of many digits, the first port first. What the first ports can't have is
//! passed at once.
ghost use Rattle.std.specs.Prelude.{◌≡◌, ◌≤◌, ℕ, MatchBool, MatchOption, length, slice_index};
ghost use Rattle.mv_verify.specs.Sides.{ports_of, count_at};
ghost use Rattle.mv_verify.specs.Prefixes.{Opens, Differs, IsFine, IsLook, IsNext, AreLast};

use crate::side::Side;

/// Goes on behind these first values: to the next ones that may follow, all that begin with these passed. It answers
/// how many values these are, or None where there are none.
fn next_values(side: &Side, values: &mut [u16], end: usize) -> Option<usize>
    requires room { length values.old ≤ length (ports_of side.now) }
    requires inside { end ≤ length values.old }
    ensures { MatchOption result
        (AreLast (count_at side.now) (slice_index values.old) end)
        (IsNext (count_at side.now) (slice_index values.old) (slice_index values.new) end) }
{
    let mut place = end;
    while place > 0 {
        place -= 1;
        let next = u32::from(values[place]) + 1;
        if next < u32::from(side.count(place)) {
            values[place] = next as u16;
            return Some(place + 1);
        }
    }
    None
}

/// Whether the left network has an assignment with the first of these values, up to `end`, and where free the right one
/// with those of them that are of the first `points`.
fn opens(
    left: &mut Side,
    right: &mut Side,
    values: &[u16],
    end: usize,
    points: usize,
    free: bool,
) -> bool
    requires inside { end ≤ length values.now }
    requires room_left { end ≤ length (ports_of left.old) }
    requires room_right { end ≤ length (ports_of right.old) }
    ensures opens { MatchBool result
        (Opens free left.old right.old points end (slice_index values.now))
        (Opens free left.old right.old points end (slice_index values.now) → ⊥) }
    ensures left { left.new ≡ left.old }
    ensures right { right.new ≡ right.old }
{
    if !left.shows(values, end) {
        return false;
    }
    if !free {
        return true;
    }
    right.shows(values, points.min(end))
}

/// What is known of first values.
enum Look {
    /// Nothing: more values have to be looked at.
    Deeper,
    /// None that begin so are a difference.
    Passed,
    /// They are a difference.
    Found,
}

/// Looks at the first `end` of the values.
fn look_at(
    left: &mut Side,
    right: &mut Side,
    values: &[u16],
    end: usize,
    points: usize,
    free: bool,
) -> Look
    requires inside { end ≤ length values.now }
    requires room_left { length values.now ≤ length (ports_of left.old) }
    requires room_right { length values.now ≤ length (ports_of right.old) }
    ensures look { IsLook free left.old right.old points values.now end result }
    ensures left { left.new ≡ left.old }
    ensures right { right.new ≡ right.old }
{
    if !opens(left, right, values, end, points, free) {
        return Look::Passed;
    }
    if end < values.len() {
        return Look::Deeper;
    }
    if right.shows(values, values.len()) {
        Look::Passed
    } else {
        Look::Found
    }
}

/// Looks for values of the first ports, as many as there is room for, that the left network shows and the right one
/// doesn't; where free only such of which the right one shows the first `points`. Where it answers true these are the values.
pub fn find_difference(
    left: &mut Side,
    right: &mut Side,
    values: &mut [u16],
    points: usize,
    free: bool,
) -> bool
    requires room_left { length values.old ≤ length (ports_of left.old) }
    requires room_right { length values.old ≤ length (ports_of right.old) }
    ensures found { let end = length values.old in MatchBool result
        (Differs free left.old right.old points end (slice_index values.new))
        ((all : ℕ → ℕ) → IsFine free left.old right.old points end all) }
    ensures left { left.new ≡ left.old }
    ensures right { right.new ≡ right.old }
{
    left.well_formed();
    let mut end = 0;
    loop {
        match look_at(left, right, values, end, points, free) {
            Look::Found => return true,
            Look::Deeper => {
                values[end] = 0;
                end += 1;
            }
            Look::Passed => {
                let Some(next) = next_values(left, values, end) else {
                    return false;
                };
                end = next;
            }
        }
    }
}
