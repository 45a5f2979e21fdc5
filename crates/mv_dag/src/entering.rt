//! How rows come to their nets one by one, with labels that move for each, and go again where memory is wanting.
ghost use Rattle.std.specs.Prelude.{◌≡◌, ◌<◌, ◌∷◌, ◌++◌, ℕ, List, [], length, map, All, OnOk, OnErr};
ghost use Rattle.mv_base.specs.declared.number.NetId.{NetId};
ghost use Rattle.mv_dag.specs.declared.moves.Entry.{Entry};
ghost use Rattle.mv_dag.specs.Rows.{rows_from};
ghost use Rattle.mv_dag.specs.Ordered.{IsOrdered};
ghost use Rattle.mv_dag.specs.Moves.{WasAt};
ghost use Rattle.mv_dag.specs.Changing.{blank, old_of, new_row_at, IsPart, IsReady, IsStage, MayEnter, HasEntered, WereAt};

use crate::label::Label;
use crate::moves::{Entry, put_back, put_behind};
use crate::new_rows::{NewRow, exchange, exchange_row};
use mv_base::{Items, Memory, NetId};

/// Gives the nets of the rows those rows, where `olds` has a row without fanins for each: it gets the rows that the nets had.
/// The rows that nets have are taken out first, since a change of several has cycles half way. On an error all but `olds` is
/// as before.
pub fn replace_rows(
    fanins: &mut Items<Items<NetId>>,
    readers: &[Items<NetId>],
    labels: &mut [Label],
    rows: &mut Items<NewRow>,
    olds: &mut Items<NewRow>,
) -> Result<(), Memory>
    requires ready { IsReady rows.old fanins.old readers.now labels.old }
    requires olds { olds.old ≡ map blank rows.old }
    ensures fanins { OnOk result (fanins.new ≡ rows_from rows.old 0 fanins.old) }
    ensures ordered { OnOk result (IsOrdered fanins.new labels.new) }
    ensures olds { OnOk result (olds.new ≡ map (old_of fanins.old) rows.old) }
    ensures err_fanins { OnErr result (fanins.new ≡ fanins.old) }
    ensures err_labels { OnErr result (labels.new ≡ labels.old) }
    ensures err_rows { OnErr result (rows.new ≡ rows.old) }
{
    let count = olds.len();
    exchange(fanins, olds, count);
    match enter_rows(fanins, readers, labels, rows) {
        Ok(()) => Ok(()),
        Err(error) => {
            exchange(fanins, olds, count);
            Err(error)
        }
    }
}

/// Gives the nets of the rows those rows. On an error all is as before.
fn enter_rows(
    fanins: &mut Items<Items<NetId>>,
    readers: &[Items<NetId>],
    labels: &mut [Label],
    rows: &mut Items<NewRow>,
) -> Result<(), Memory>
    requires ready { IsReady rows.old fanins.old readers.now labels.old }
    requires part { IsPart fanins.old (rows_from rows.old 0 fanins.old) }
    ensures fanins { OnOk result (fanins.new ≡ rows_from rows.old 0 fanins.old) }
    ensures ordered { OnOk result (IsOrdered fanins.new labels.new) }
    ensures err_fanins { OnErr result (fanins.new ≡ fanins.old) }
    ensures err_labels { OnErr result (labels.new ≡ labels.old) }
    ensures err_rows { OnErr result (rows.new ≡ rows.old) }
{
    let mut moves = Items::new(fanins.allocator());
    match enter_each(fanins, readers, labels, rows, &mut moves) {
        Ok(()) => Ok(()),
        Err(error) => {
            exchange(fanins, rows, moves.len());
            put_all_back(labels, &mut moves);
            Err(error)
        }
    }
}

/// Gives the nets of the rows those rows, as far as memory goes, and lists for each which labels moved.
fn enter_each(
    fanins: &mut Items<Items<NetId>>,
    readers: &[Items<NetId>],
    labels: &mut [Label],
    rows: &mut Items<NewRow>,
    moves: &mut Items<Items<Entry>>,
) -> Result<(), Memory>
    requires ready { IsReady rows.old fanins.old readers.now labels.old }
    requires part { IsPart fanins.old (rows_from rows.old 0 fanins.old) }
    requires none { moves.old ≡ [] }
    ensures stage { IsStage
        (length moves.new) fanins.old fanins.new rows.old rows.new labels.old labels.new moves.new }
    ensures all { OnOk result (length moves.new ≡ length rows.old) }
    ensures ordered { OnOk result (IsOrdered fanins.new labels.new) }
{
    for place in 0..rows.len() {
        enter_row(fanins, readers, labels, rows, place, moves)?;
    }
    Ok(())
}

/// Gives the net of the row at a place that row. On an error all is as before.
fn enter_row(
    fanins: &mut Items<Items<NetId>>,
    readers: &[Items<NetId>],
    labels: &mut [Label],
    rows: &mut Items<NewRow>,
    place: usize,
    moves: &mut Items<Items<Entry>>,
) -> Result<(), Memory>
    requires inside { place < length rows.old }
    requires may { MayEnter fanins.old readers.now labels.old (new_row_at rows.old place) }
    ensures ok { OnOk result
        (HasEntered place fanins.old fanins.new rows.old rows.new labels.old labels.new moves.old moves.new) }
    ensures err_fanins { OnErr result (fanins.new ≡ fanins.old) }
    ensures err_labels { OnErr result (labels.new ≡ labels.old) }
    ensures err_rows { OnErr result (rows.new ≡ rows.old) }
    ensures err_moves { OnErr result (moves.new ≡ moves.old) }
{
    let alloc = fanins.allocator();
    let row = &rows.as_slice()[place];
    let moved = put_behind(
        alloc,
        labels,
        fanins.as_slice(),
        readers,
        row.net,
        row.fanins.as_slice(),
    )?;
    keep_moves(labels, moves, Items::of(moved))?;
    exchange_row(fanins, rows, place);
    Ok(())
}

/// Lists moves of labels behind others. On an error the labels are put back.
fn keep_moves(
    labels: &mut [Label],
    moves: &mut Items<Items<Entry>>,
    moved: Items<Entry>,
) -> Result<(), Memory>
    requires { All (λ (e : Entry). e.net.0 < length labels.old) moved }
    ensures ok_moves { OnOk result (moves.new ≡ moves.old ++ moved ∷ []) }
    ensures ok_labels { OnOk result (labels.new ≡ labels.old) }
    ensures err_moves { OnErr result (moves.new ≡ moves.old) }
    ensures err_labels { OnErr result
        ((before : List ℕ) → WasAt before labels.old moved → labels.new ≡ before) }
{
    match moves.push(moved) {
        Ok(()) => Ok(()),
        Err(failed) => {
            put_back(labels, failed.value.as_slice());
            Err(Memory)
        }
    }
}

/// Puts the labels back as they were before all moves, the last first. It takes no memory.
fn put_all_back(labels: &mut [Label], moves: &mut Items<Items<Entry>>)
    requires { All
        (λ (es : List Entry). All (λ (e : Entry). e.net.0 < length labels.old) es) moves.old }
    ensures { (before : List ℕ) → WereAt before moves.old labels.old → labels.new ≡ before }
{
    'back: while let Some(moved) = moves.pop() {
        put_back(labels, moved.as_slice());
    }
}
