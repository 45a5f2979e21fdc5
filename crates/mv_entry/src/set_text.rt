ghost use Rattle.std.specs.Prelude.{decimal};
ghost use Rattle.std.specs.List.{flat_map};
ghost use Rattle.mv_page.specs.Page.{AddsPiece, paged};
ghost use Rattle.mv_entry.specs.Entries.{members, set_word, with_comma};

use crate::page::Page;
use itoa::Buffer;
use mv_base::{Failed, Sink, Value, ValueSet};

/// Puts a value as its decimal position.
fn put_value<E: Sink>(value: Value, page: &mut Page, sink: &mut E) -> Result<(), Failed>
    ensures { AddsPiece (paged (E.state sink.old) page.old) (paged (E.state sink.new) page.new)
        (decimal value.0) result }
{
    let mut buffer = Buffer::new();
    page.put(buffer.format(value.0).as_bytes(), sink)
}

/// Puts the values of a set, ascending, each behind a comma.
fn put_values<E: Sink>(set: ValueSet, page: &mut Page, sink: &mut E) -> Result<(), Failed>
    ensures { AddsPiece (paged (E.state sink.old) page.old) (paged (E.state sink.new) page.new)
        (flat_map with_comma (members set)) result }
{
    let mut left = set;
    'values: while let Some(value) = left.least() {
        left.members_are_small();
        page.put(b",", sink)?;
        put_value(value, page, sink)?;
        left = left.minus(ValueSet::one(value));
    }
    Ok(())
}

/// Puts the word of a set: its value, or its values in brackets.
pub fn put_set<E: Sink>(set: ValueSet, page: &mut Page, sink: &mut E) -> Result<(), Failed>
    ensures { AddsPiece (paged (E.state sink.old) page.old) (paged (E.state sink.new) page.new)
        (set_word set) result }
{
    set.members_are_small();
    let Some(first) = set.least() else {
        return page.put(b"()", sink);
    };
    let others = set.minus(ValueSet::one(first));
    if others == ValueSet::empty() {
        return put_value(first, page, sink);
    }
    page.put(b"(", sink)?;
    put_value(first, page, sink)?;
    put_values(others, page, sink)?;
    page.put(b")", sink)
}
