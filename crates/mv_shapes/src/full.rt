//! What a table's rows tell whatever the names and the numbers of its columns are.
ghost use Rattle.std.specs.Prelude.{◌≡◌, ◌≤◌, All};
ghost use Rattle.mv_base.specs.declared.limits.TheConstants.{MAX_VALUES as most_values};
ghost use Rattle.mv_rows.specs.Flat.{only_entry, says_nothing};
ghost use Rattle.mv_shapes.specs.Rows.{are_full, some_full, some_silent};

use mv_base::PackedSet;
use mv_design::{Entries, Entry, Row};

/// Whether some row has all values of columns with so many.
#[derive(Drop)]
pub struct FullRows {
    pub counts: Vec<u16>,
    pub some: bool,
}

/// Whether some row has all values of columns with so many values.
pub fn some_row_is_full(rows: &[Row], counts: &[u16]) -> bool
    requires { All (λ n. n ≤ most_values) counts.now }
    ensures { result ≡ some_full counts.now rows.now }
{
    for row in rows {
        if are_full(row.ins.as_slice(), counts) {
            return true;
        }
    }
    false
}

/// Whether the sets have all values of columns with so many.
fn are_full(sets: &[PackedSet], counts: &[u16]) -> bool
    requires { All (λ n. n ≤ most_values) counts.now }
    ensures { result ≡ are_full counts.now sets.now }
{
    for place in 0..counts.len().min(sets.len()) {
        if !sets[place].is_full(counts[place]) {
            return false;
        }
    }
    true
}

/// Whether some row says no value.
pub fn some_row_is_silent(rows: &[Row]) -> bool
    ensures { result ≡ some_silent rows.now }
{
    for row in rows {
        if says_nothing(&row.outs) {
            return true;
        }
    }
    false
}

/// Whether no value lies in the first entry. None does where there is none.
#[tactic(auto, unfolding(mv_base::specs::Set::empty))]
fn says_nothing(entries: &Entries) -> bool
    ensures { result ≡ says_nothing (only_entry entries.now) }
{
    match entries.as_slice() {
        [first, ..] => is_silent(first),
        [] => true,
    }
}

/// Whether no value lies in the entry.
fn is_silent(entry: &Entry) -> bool
    ensures { result ≡ says_nothing entry.now }
{
    match entry {
        Entry::Set(out) => out.is_empty(),
        Entry::Same(_) => false,
    }
}
