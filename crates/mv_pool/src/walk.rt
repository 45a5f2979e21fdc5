ghost use Rattle.std.specs.Prelude.{◌≡◌, ℕ, ◌<◌, ◌≤◌, ◌+◌, Some, All, length, is_some, true, false, vec_capacity};
ghost use Rattle.mv_pool.specs.declared.pool.Id.{Id};
ghost use Rattle.mv_pool.specs.Places.{item_at};
ghost use Rattle.mv_pool.specs.Reached.{LinksAreHeld};
ghost use Rattle.mv_pool.specs.Walks.{IsWalking, HasReached, IsQueued, AreRooted, AreFreed, mark};

use crate::{Id, Linked};

/// No place is marked.
pub fn begin(marks: &mut Vec<bool>, queue: &mut Vec<u32>, len: usize)
    requires { len ≤ vec_capacity marks.old }
    ensures walk { IsQueued marks.new.items queue.new.items }
    ensures none { (n : ℕ) → mark marks.new.items n ≡ false }
    ensures size { length marks.new.items ≡ len }
    ensures marks { vec_capacity marks.old ≤ vec_capacity marks.new }
    ensures queue { vec_capacity queue.old ≤ vec_capacity queue.new }
{
    marks.clear();
    marks.resize(len, false).unwrap();
    queue.clear();
}

/// Marks the place of a link, and puts it at the end of the queue, unless it is marked.
fn reach(marks: &mut Vec<bool>, queue: &mut Vec<u32>, link: Option<Id>)
    requires walk { IsQueued marks.old.items queue.old.items }
    requires within { (id : Id) → link ≡ Some id → id.0 < length marks.old.items }
    requires room { length marks.old.items ≤ vec_capacity queue.old }
    ensures reached { HasReached marks.old.items queue.old.items link marks.new.items queue.new.items }
    ensures marks { vec_capacity marks.old ≤ vec_capacity marks.new }
    ensures queue { vec_capacity queue.old ≤ vec_capacity queue.new }
{
    if let Some(id) = link {
        let place = id.0 as usize;
        if !marks[place] {
            marks[place] = true;
            queue.push_reserved(id.0);
        }
    }
}

/// Marks the roots.
pub fn reach_roots<T: Linked>(
    places: &[Option<T>],
    roots: &[Id],
    marks: &mut Vec<bool>,
    queue: &mut Vec<u32>,
)
    requires held { All (λ (id : Id). is_some (item_at places.now id.0) ≡ true) roots.now }
    requires walking { IsWalking T.link_of places.now roots.now marks.old.items queue.old.items 0 }
    requires room { length places.now ≤ vec_capacity queue.old }
    ensures walking { IsWalking T.link_of places.now roots.now marks.new.items queue.new.items 0 }
    ensures rooted { AreRooted marks.new.items roots.now (length roots.now) }
    ensures marks { vec_capacity marks.old ≤ vec_capacity marks.new }
    ensures queue { vec_capacity queue.old ≤ vec_capacity queue.new }
{
    for root in roots {
        reach(marks, queue, Some(*root));
    }
}

/// Follows the links of each place in the queue. The time grows with the places that are reached.
pub fn follow_all<T: Linked>(
    places: &[Option<T>],
    roots: &[Id],
    marks: &mut Vec<bool>,
    queue: &mut Vec<u32>,
)
    requires links { LinksAreHeld T.link_of places.now }
    requires walking { IsWalking T.link_of places.now roots.now marks.old.items queue.old.items 0 }
    requires rooted { AreRooted marks.old.items roots.now (length roots.now) }
    requires room { length places.now ≤ vec_capacity queue.old }
    ensures walking { IsWalking T.link_of places.now roots.now marks.new.items queue.new.items
        (length queue.new.items) }
    ensures rooted { AreRooted marks.new.items roots.now (length roots.now) }
    ensures marks { vec_capacity marks.old ≤ vec_capacity marks.new }
    ensures queue { vec_capacity queue.old ≤ vec_capacity queue.new }
{
    let mut at = 0;
    while at < queue.len() {
        follow(places, roots, marks, queue, at);
        at += 1;
    }
}

/// Follows the links of one place in the queue.
fn follow<T: Linked>(
    places: &[Option<T>],
    roots: &[Id],
    marks: &mut Vec<bool>,
    queue: &mut Vec<u32>,
    at: usize,
)
    requires links { LinksAreHeld T.link_of places.now }
    requires walking { IsWalking T.link_of places.now roots.now marks.old.items queue.old.items at }
    requires rooted { AreRooted marks.old.items roots.now (length roots.now) }
    requires inside { at < length queue.old.items }
    requires room { length places.now ≤ vec_capacity queue.old }
    ensures walking { IsWalking T.link_of places.now roots.now marks.new.items queue.new.items
        (at + 1) }
    ensures rooted { AreRooted marks.new.items roots.now (length roots.now) }
    ensures longer { length queue.old.items ≤ length queue.new.items }
    ensures marks { vec_capacity marks.old ≤ vec_capacity marks.new }
    ensures queue { vec_capacity queue.old ≤ vec_capacity queue.new }
{
    if let Some(item) = &places[queue[at] as usize] {
        reach(marks, queue, item.link(0));
        reach(marks, queue, item.link(1));
    }
}

/// Frees the places that aren't marked.
pub fn free_unmarked<T: Copy>(places: &mut Vec<Option<T>>, marks: &[bool])
    requires { length marks.now ≡ length places.old.items }
    ensures freed { AreFreed marks.now places.old.items places.new.items (length marks.now) }
    ensures room { vec_capacity places.old ≤ vec_capacity places.new }
{
    for place in 0..marks.len() {
        if !marks[place] {
            places[place] = None;
        }
    }
}
