ghost use Rattle.std.specs.Prelude.{◌≡◌, ◌≤◌, ◌<◌, ◌+◌, ◌||◌};
ghost use Rattle.mv_base.specs.Set.{one};
ghost use Rattle.mv_cover.specs.Marks.{bits_among, are_among, are_close, mark, alone_mark, net_place, narrow_marks, wide_marks, cube_marks, line_marks};

use crate::wide::wide_marks;
use crate::{Line, Lit};
use mv_base::{NetId, Value, ValueSet};

/// The marks of a line, as bits. A line that lies in another has all marks of that one, so that most lines are told apart by
/// their marks alone.
#[derive(Clone, Copy)]
pub(crate) struct Marks {
    narrow: u64,
    wide: u64,
}

impl Marks {
    /// Whether each of these marks is one of the others.
    #[tactic(auto, unfolding(crate::specs::Marks::are_among))]
    pub(crate) fn are_among(self, others: Marks) -> bool
        ensures { result ≡ are_among self others }
    {
        self.narrow & others.narrow == self.narrow && self.wide & others.wide == self.wide
    }

    /// Whether all marks of one line are marks of the other. Those for nets of few values are looked at first, and mostly alone.
    #[tactic(auto, using(crate::proofs::Marking::close_near), unfolding(crate::specs::Marks::are_close, crate::specs::Marks::are_among))]
    pub(crate) fn are_close(self, others: Marks) -> bool
        ensures { result ≡ are_close self others }
    {
        self.are_near(others) && (self.are_among(others) || others.are_among(self))
    }

    /// The same of the marks for nets of few values.
    fn are_near(self, others: Marks) -> bool
        ensures { result
            ≡ (bits_among self.narrow others.narrow || bits_among others.narrow self.narrow) }
    {
        self.narrow & others.narrow == self.narrow || others.narrow & self.narrow == others.narrow
    }
}

/// The marks of the line: those for nets of few values, and those for nets of many. It takes no memory.
#[tactic(auto, unfolding(crate::specs::Marks::line_marks, crate::specs::Marks::set_marks, mv_base::specs::Set::join))]
pub(crate) fn marks_of(line: &Line) -> Marks
    ensures { result ≡ line_marks line.now }
{
    let lits = line.cube.lits();
    Marks {
        narrow: all_narrow(lits)
            | (mark(line.out.has(Value(1)), 62) | mark(line.out.has(Value(0)), 63)),
        wide: all_wide(lits),
    }
}

/// The marks of the literals for nets of few values.
#[tactic(auto, unfolding(mv_base::specs::Set::join, mv_base::specs::Set::empty))]
fn all_narrow(lits: &[Lit]) -> u64
    ensures { result ≡ cube_marks narrow_marks lits.now }
{
    let mut marks = 0;
    for l in lits {
        marks |= narrow_marks(l);
    }
    marks
}

/// The marks of the literals for nets of many values.
#[tactic(auto, unfolding(mv_base::specs::Set::join, mv_base::specs::Set::empty))]
fn all_wide(lits: &[Lit]) -> u64
    ensures { result ≡ cube_marks wide_marks lits.now }
{
    let mut marks = 0;
    for l in lits {
        marks |= wide_marks(l);
    }
    marks
}

/// The marks of a literal's set: whether it lacks 1, whether it lacks 0, and its value where it has one alone. Most sets of nets
/// of two values have just one mark, and those of one value on a net of many have different ones.
#[tactic(auto, unfolding(crate::specs::Marks::narrow_marks, crate::specs::Marks::set_marks, mv_base::specs::Set::join))]
fn narrow_marks(l: &Lit) -> u64
    ensures { result ≡ narrow_marks l.now.set l.now.net.0 }
{
    let place = net_place(l.net());
    mark(l.has(Value(1)), place) | mark(l.has(Value(0)), place + 1) | alone_mark(l, place)
}

/// Where the marks of the net begin: one of 31 places. Nets may share a place.
#[tactic(auto, unfolding(crate::specs::Marks::net_place))]
fn net_place(net: NetId) -> u32
    ensures value { result ≡ net_place net.0 }
    ensures low { result ≤ 60 }
{
    2 * (net.0 % 31)
}

/// The mark of a set of one value, by the value: for 0 and 1 it is one that the set has already. The set without values, which
/// lies in every other, has all marks.
fn alone_mark(l: &Lit, place: u32) -> u64
    requires { place ≤ 62 }
    ensures { result ≡ alone_mark l.now.set place }
{
    match l.bits() {
        Some(bits) => alone_mark_of_bits(bits, place),
        None => alone_mark_of_set(l.set(), place),
    }
}

/// The mark of a set of values below 64, with these bits.
fn alone_mark_of_bits(bits: u64, place: u32) -> u64
    requires { place ≤ 62 }
    ensures { result ≡ alone_mark bits place }
{
    if bits == 0 {
        return u64::MAX;
    }
    if bits.count_ones() != 1 {
        return 0;
    }
    bit((place + bits.trailing_zeros()) % 62)
}

/// The mark of any set.
fn alone_mark_of_set(set: ValueSet, place: u32) -> u64
    requires { place ≤ 62 }
    ensures { result ≡ alone_mark set place }
{
    let Some(value) = set.least() else {
        return u64::MAX;
    };
    if set.count() != 1 {
        return 0;
    }
    bit((place + value.0 as u32) % 62)
}

/// The bit at the place, unless a value is there.
#[tactic(auto, unfolding(crate::specs::Marks::mark, mv_base::specs::Set::empty))]
fn mark(there: bool, place: u32) -> u64
    requires { place < 64 }
    ensures { result ≡ mark there place }
{
    if there { 0 } else { bit(place) }
}

/// The bit at the place.
#[tactic(auto, unfolding(mv_base::specs::Set::one))]
pub(crate) fn bit(place: u32) -> u64
    requires { place < 64 }
    ensures { result ≡ one place }
{
    1 << place
}
