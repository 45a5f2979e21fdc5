//! Which tables have several outputs and which get a mark, and the names by which a choice net and a mark stand among the nets.
ghost use Rattle.std.specs.Prelude.{◌≡◌, ◌≤◌, false, length, IfOk, IfSome, OnOk, All};
ghost use Rattle.mv_base.specs.declared.limits.TheConstants.{MAX_NETS};
ghost use Rattle.mv_joint.specs.Plain.{is_same};
ghost use Rattle.mv_rows.specs.Flat.{only_entry};
ghost use Rattle.mv_flat.specs.Numbers.{choice_name, mark_name};
ghost use Rattle.mv_flat.specs.Places.{has_mark, is_joint};
ghost use Rattle.mv_resets.specs.NetModels.{HasLawfulValues, IsNetTable};
ghost use Rattle.mv_flat.specs.Placed.{IsPlacedTable};
ghost use Rattle.mv_flat.specs.Gathered.{is_plain};
ghost use Rattle.mv_flat.specs.Shared.{IsFrom, KeepsOrigins};

use crate::columns::declared_columns;
use crate::shared::SharedTables;
use crate::values::counts_of;
use mv_acyclic::Numbers;
use mv_base::{Memory, Name};
use mv_decl::Declared;
use mv_design::{Entries, Entry, FileTable};
use mv_rows::is_marked;
use std::alloc::Global;

/// The name by which the mark of the table with this first output stands among the nets.
pub fn mark_name(alloc: Global, net: &Name) -> Result<Name, Memory>
    ensures { IfOk result (λ n. n ≡ mark_name net.now) }
{
    let mut bytes = vec![in alloc; b' ']?;
    bytes.extend_from_slice(net.bytes())?;
    Name::new(alloc, bytes.as_slice())
}

/// The name by which the choice net of the table with this first output stands among the nets.
pub fn choice_name(alloc: Global, net: &Name) -> Result<Name, Memory>
    ensures { IfOk result (λ n. n ≡ choice_name net.now) }
{
    let mut bytes = vec![in alloc; b' ', b' ']?;
    bytes.extend_from_slice(net.bytes())?;
    Name::new(alloc, bytes.as_slice())
}

/// Whether the table has several outputs.
pub fn is_joint(table: &FileTable) -> bool
    ensures { result ≡ is_joint table.now }
{
    table.outputs.len() > 1
}

/// Whether the table gets a mark. For most tables a look at the rows tells it, which is kept for tables of many rows that come from one
/// table of the design, for the others a look at their cubes over nets that have numbers already.
pub fn has_mark(
    alloc: Global,
    decls: &Declared,
    names: &Numbers,
    table: &FileTable,
    shared: &mut SharedTables,
) -> Result<bool, Memory>
    requires proper { All HasLawfulValues decls.now }
    requires placed { IsPlacedTable decls.now names.now table.now }
    requires few { length names.now ≤ MAX_NETS }
    requires from { IsFrom shared.old table.now }
    ensures kept { OnOk result (KeepsOrigins shared.old shared.new) }
    ensures mark { IfOk result (λ b. b ≡ has_mark decls.now table.now) }
{
    if is_joint(table) {
        let columns = declared_columns(alloc, decls, names, table)?;
        return shared.is_joint_marked(alloc, columns.as_slice(), table);
    }
    if let Some(told) = told_mark(alloc, decls, table, shared)? {
        return Ok(told);
    }
    let columns = declared_columns(alloc, decls, names, table)?;
    is_marked(alloc, columns.as_slice(), table)
}

/// Whether the table of one output gets a mark, where a look at its rows tells it: not without a default, nor beside a set where
/// each row says a value; but beside a column's value where no row has all values.
#[tactic(auto, using(crate::proofs::Needs::told))]
fn told_mark(
    alloc: Global,
    decls: &Declared,
    table: &FileTable,
    shared: &mut SharedTables,
) -> Result<Option<bool>, Memory>
    requires proper { All HasLawfulValues decls.now }
    requires fits { IsNetTable decls.now table.now }
    requires single { is_joint table.now ≡ false }
    requires from { IsFrom shared.old table.now }
    ensures kept { OnOk result (KeepsOrigins shared.old shared.new) }
    ensures mark { IfOk result (λ told. IfSome told (λ b. b ≡ has_mark decls.now table.now)) }
{
    if is_plain(table, shared) {
        return Ok(Some(false));
    }
    let Some(entries) = &table.default else {
        return Ok(None);
    };
    if !names_column(entries) {
        return Ok(None);
    }
    let counts = counts_of(alloc, decls, table.inputs.as_slice())?;
    if shared.some_row_is_full(table, counts) {
        return Ok(None);
    }
    Ok(Some(true))
}

/// Whether the table of one output has no default, or one that can stand beside its rows: a set, where each row says a value. Such a
/// table gets no mark.
pub fn is_plain(table: &FileTable, shared: &SharedTables) -> bool
    requires single { length table.now.outputs ≡ 1 }
    requires from { IsFrom shared.now table.now }
    ensures { result ≡ is_plain table.now }
{
    match &table.default {
        None => true,
        Some(entries) => !names_column(entries) && !shared.some_row_is_silent(table),
    }
}

/// Whether the first entry names a column.
fn names_column(entries: &Entries) -> bool
    ensures { result ≡ is_same (only_entry entries.now) }
{
    match entries.as_slice() {
        [first, ..] => is_same(first),
        [] => false,
    }
}

/// Whether the entry names a column.
fn is_same(entry: &Entry) -> bool
    ensures { result ≡ is_same entry.now }
{
    match entry {
        Entry::Set(_) => false,
        Entry::Same(_) => true,
    }
}
