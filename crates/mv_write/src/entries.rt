ghost use Rattle.std.specs.Prelude.{◌≡◌, ◌<◌, ◌∷◌, ◌++◌, [], IsTrue, IfSome, length};
ghost use Rattle.std.specs.List.{flat_map};
ghost use Rattle.mv_page.specs.Page.{AddsPiece, paged};
ghost use Rattle.mv_base.specs.Set.{Within, full};
ghost use Rattle.mv_net.specs.Nets.{slot, values_in, spelled_values, spelled_in};
ghost use Rattle.mv_cover.specs.Lines.{IsOutput};
ghost use Rattle.mv_net.specs.Index.{is_held};
ghost use Rattle.mv_text.specs.Text.{entry_word, names_in_set, with_comma};
ghost use Rattle.mv_write.specs.Walk.{AreValues, named};

use crate::page::Page;
use itoa::Buffer;
use mv_base::{Failed, Name, NetId, PackedSet, Sink, Value, ValueSet};
use mv_cover::Lit;
use mv_net::Network;

/// Appends the name of a value: that in the list, or its number where the list is empty.
fn put_value<K: Sink>(
    names: &[Name],
    value: Value,
    page: &mut Page,
    out: &mut K,
) -> Result<(), Failed>
    requires { 0 < length names.now → value.0 < length names.now }
    ensures { AddsPiece (paged (K.state out.old) page.old) (paged (K.state out.new) page.new)
        (named names.now value.0) result }
{
    if names.is_empty() {
        let mut buffer = Buffer::new();
        return page.put(buffer.format(value.0).as_bytes(), out);
    }
    page.put(names[value.0 as usize].bytes(), out)
}

/// Appends the names of a set's values, ascending, each behind a comma.
fn put_values<K: Sink>(
    count: u16,
    names: &[Name],
    set: ValueSet,
    page: &mut Page,
    out: &mut K,
) -> Result<(), Failed>
    requires values { AreValues count names.now }
    requires within { Within set (full count) }
    ensures { AddsPiece (paged (K.state out.old) page.old) (paged (K.state out.new) page.new)
        (flat_map with_comma (names_in_set (spelled_values count names.now) set)) result }
{
    let mut left = set;
    'values: while let Some(value) = left.least() {
        page.put(b",", out)?;
        put_value(names, value, page, out)?;
        left = left.minus(ValueSet::one(value));
    }
    Ok(())
}

/// Appends the entry of a set of a net's values.
fn put_set<K: Sink>(
    count: u16,
    names: &[Name],
    set: ValueSet,
    page: &mut Page,
    out: &mut K,
) -> Result<(), Failed>
    requires values { AreValues count names.now }
    requires set { IsOutput count set }
    ensures { AddsPiece (paged (K.state out.old) page.old) (paged (K.state out.new) page.new)
        (entry_word (spelled_values count names.now) set) result }
{
    if set == ValueSet::full(count) {
        return page.put(b"-", out);
    }
    let first = set.least().unwrap();
    let others = set.minus(ValueSet::one(first));
    if others == ValueSet::empty() {
        return put_value(names, first, page, out);
    }
    page.put(b"(", out)?;
    put_value(names, first, page, out)?;
    put_values(count, names, others, page, out)?;
    page.put(b")", out)
}

/// The entry of a set of values below 64 where it is the number of one, and one byte, as most are.
fn digit(net: &Network, n: NetId, bits: u64) -> Option<u8>
    requires held { IsTrue (is_held net.now.nets n.0) }
    requires set { IsOutput (values_in (slot net.now.nets n.0)) bits }
    ensures { IfSome result
        (λ byte. entry_word (spelled_in (slot net.now.nets n.0)) bits ≡ byte ∷ []) }
{
    net.well_formed();
    let value = bits.trailing_zeros();
    if value > 9 || bits != 1 << value || net.values(n) == 1 || !net.value_names(n).is_empty() {
        return None;
    }
    Some(b'0' + value as u8)
}

/// Appends the entry of a set of values of this net, with this byte behind it.
pub fn put_entry<K: Sink>(
    net: &Network,
    n: NetId,
    set: &PackedSet,
    behind: u8,
    page: &mut Page,
    out: &mut K,
) -> Result<(), Failed>
    requires held { IsTrue (is_held net.now.nets n.0) }
    requires set { IsOutput (values_in (slot net.now.nets n.0)) set.now }
    ensures { AddsPiece (paged (K.state out.old) page.old) (paged (K.state out.new) page.new)
        (entry_word (spelled_in (slot net.now.nets n.0)) set.now ++ behind ∷ []) result }
{
    if let Some(bits) = set.bits() {
        if let Some(byte) = digit(net, n, bits) {
            return page.put(&[byte, behind], out);
        }
    }
    put_any(net, n, set.get(), behind, page, out)
}

/// Appends the entry of a literal's set at its net, with a space behind it.
pub fn put_literal<K: Sink>(
    net: &Network,
    n: NetId,
    literal: &Lit,
    page: &mut Page,
    out: &mut K,
) -> Result<(), Failed>
    requires held { IsTrue (is_held net.now.nets n.0) }
    requires set { IsOutput (values_in (slot net.now.nets n.0)) literal.now.set }
    ensures { AddsPiece (paged (K.state out.old) page.old) (paged (K.state out.new) page.new)
        (entry_word (spelled_in (slot net.now.nets n.0)) literal.now.set ++ 32 ∷ []) result }
{
    if let Some(bits) = literal.bits() {
        if let Some(byte) = digit(net, n, bits) {
            return page.put(&[byte, b' '], out);
        }
    }
    put_any(net, n, literal.set(), b' ', page, out)
}

/// Appends the entry of a set of values of this net, however long it is, with this byte behind it.
fn put_any<K: Sink>(
    net: &Network,
    n: NetId,
    set: ValueSet,
    behind: u8,
    page: &mut Page,
    out: &mut K,
) -> Result<(), Failed>
    requires held { IsTrue (is_held net.now.nets n.0) }
    requires set { IsOutput (values_in (slot net.now.nets n.0)) set }
    ensures { AddsPiece (paged (K.state out.old) page.old) (paged (K.state out.new) page.new)
        (entry_word (spelled_in (slot net.now.nets n.0)) set ++ behind ∷ []) result }
{
    net.well_formed();
    put_set(net.values(n), net.value_names(n), set, page, out)?;
    page.put(&[behind], out)
}
