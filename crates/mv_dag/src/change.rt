//! How a graph changes: nets come, and get other rows, all or nothing.
ghost use Rattle.std.specs.Prelude.{◌≡◌, ◌+◌, ◌≤◌, ◌++◌, ℕ, true, [], length, map, take, replicate, OnOk, OnErr};
ghost use Rattle.mv_base.specs.declared.number.NetId.{NetId};
ghost use Rattle.mv_base.specs.declared.limits.TheConstants.{MAX_NETS};
ghost use Rattle.mv_graph.specs.Nets.{row, ids_ascend, AllBelow};
ghost use Rattle.mv_graph.specs.Transpose.{IsTranspose};
ghost use Rattle.mv_dag.specs.declared.new_rows.NewRow.{NewRow};
ghost use Rattle.mv_dag.specs.Rows.{rows_from, changed_rows};
ghost use Rattle.mv_dag.specs.Ordered.{IsOrdered};
ghost use Rattle.mv_dag.specs.Searches.{HasReaders};
ghost use Rattle.mv_dag.specs.Dag.{IsDag};
ghost use Rattle.mv_dag.specs.Readers.{IsGrown, is_given};
ghost use Rattle.mv_dag.specs.Changing.{blank, old_of, MayChange};

use crate::entering::replace_rows;
use crate::growing::add_nets;
use crate::label::Label;
use crate::new_rows::{NewRow, blank_rows};
use crate::readers::{prune, put_rows};
use mv_base::{Items, MAX_NETS, Memory, NetId};

/// So many numbers come, and then nets are given other rows. On an error the numbers that there were are as before, and more may
/// have come.
pub fn change_nets(
    fanins: &mut Items<Items<NetId>>,
    readers: &mut Items<Items<NetId>>,
    labels: &mut Vec<Label>,
    added: usize,
    rows: Items<NewRow>,
) -> Result<(), Memory>
    requires dag { IsDag fanins.old readers.old labels.old.items }
    requires few { length fanins.old + added ≤ MAX_NETS }
    requires may { MayChange rows (fanins.old ++ replicate added []) }
    requires ascend { (n : ℕ) → ids_ascend (row (changed_rows rows added fanins.old) n) ≡ true }
    ensures fanins { OnOk result (fanins.new ≡ changed_rows rows added fanins.old) }
    ensures dag { OnOk result (IsDag fanins.new readers.new labels.new.items) }
    ensures err_fanins { OnErr result (take (length fanins.old) fanins.new ≡ fanins.old) }
    ensures err_readers { OnErr result
        (IsTranspose fanins.old (take (length fanins.old) readers.new)) }
    ensures err_labels { OnErr result
        (take (length fanins.old) labels.new.items ≡ labels.old.items) }
{
    let mut rows = rows;
    let mut olds = blank_rows(fanins.allocator(), rows.as_slice())?;
    add_nets(fanins, readers, labels, added, rows.as_slice())?;
    link_rows(fanins, readers, labels, &mut rows, &mut olds)?;
    Ok(())
}

/// Nets are given other rows, where `olds` has a row without fanins for each. On an error the graph is as before.
fn link_rows(
    fanins: &mut Items<Items<NetId>>,
    readers: &mut Items<Items<NetId>>,
    labels: &mut [Label],
    rows: &mut Items<NewRow>,
    olds: &mut Items<NewRow>,
) -> Result<(), Memory>
    requires below { AllBelow fanins.old }
    requires readers { IsTranspose fanins.old readers.old }
    requires ordered { IsOrdered fanins.old labels.old }
    requires may { MayChange rows.old fanins.old }
    requires olds { olds.old ≡ map blank rows.old }
    ensures fanins { OnOk result (fanins.new ≡ rows_from rows.old 0 fanins.old) }
    ensures readers { OnOk result (IsTranspose fanins.new readers.new) }
    ensures ordered { OnOk result (IsOrdered fanins.new labels.new) }
    ensures err_fanins { OnErr result (fanins.new ≡ fanins.old) }
    ensures err_readers { OnErr result (IsTranspose fanins.old readers.new) }
    ensures err_labels { OnErr result (labels.new ≡ labels.old) }
{
    match put_and_replace(fanins, readers, labels, rows, olds) {
        Ok(()) => {
            prune(readers, fanins.as_slice(), olds.as_slice());
            Ok(())
        }
        Err(error) => {
            prune(readers, fanins.as_slice(), rows.as_slice());
            Err(error)
        }
    }
}

/// The nets of the rows come to the lists of readers, and are given the rows; `olds` gets those that they had. On an error all
/// but `olds` and the readers is as before.
fn put_and_replace(
    fanins: &mut Items<Items<NetId>>,
    readers: &mut Items<Items<NetId>>,
    labels: &mut [Label],
    rows: &mut Items<NewRow>,
    olds: &mut Items<NewRow>,
) -> Result<(), Memory>
    requires readers { IsTranspose fanins.old readers.old }
    requires ordered { IsOrdered fanins.old labels.old }
    requires may { MayChange rows.old fanins.old }
    requires olds { olds.old ≡ map blank rows.old }
    ensures grown { IsGrown readers.old readers.new (is_given rows.old) }
    ensures readers { OnOk result (HasReaders fanins.new readers.new) }
    ensures fanins { OnOk result (fanins.new ≡ rows_from rows.old 0 fanins.old) }
    ensures ordered { OnOk result (IsOrdered fanins.new labels.new) }
    ensures olds { OnOk result (olds.new ≡ map (old_of fanins.old) rows.old) }
    ensures err_fanins { OnErr result (fanins.new ≡ fanins.old) }
    ensures err_labels { OnErr result (labels.new ≡ labels.old) }
    ensures err_rows { OnErr result (rows.new ≡ rows.old) }
{
    put_rows(readers, rows.as_slice())?;
    replace_rows(fanins, readers.as_slice(), labels, rows, olds)?;
    Ok(())
}
