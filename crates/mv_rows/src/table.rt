ghost use Rattle.std.specs.Prelude.{◌≡◌, ℕ, List, ◌++◌, ◌∷◌, [], true, false, length, nat_eq, map, option_copied, Some, None, IfErr, IfOk, OnOk, All};
ghost use Rattle.std.specs.List.{list_any};
ghost use Rattle.mv_base.specs.Set.{empty};
ghost use Rattle.mv_cover.specs.Absorb.{firsts, some_bare};
ghost use Rattle.mv_cover.specs.Equal.{line_eq};
ghost use Rattle.mv_design.specs.declared.table.Entry.{Entry};
ghost use Rattle.mv_design.specs.declared.table.FileTable.{FileTable};
ghost use Rattle.mv_rows.specs.Cubes.{AreColumns, IsFrame, FitRow};
ghost use Rattle.mv_rows.specs.Lines.{AddsLines, EntryLines, FitEntry};
ghost use Rattle.mv_rows.specs.Flat.{only_entry, IsRow, IsTable, IsDefault, RowsLines, kept, insert_kept, says_nothing, default_left};
ghost use Rattle.mv_rows.specs.Flat.{plain_default, mark_cover, with_mark, marked_sets, unmarked, IsMarked, FlatOf, IsMade};
ghost use Rattle.mv_rows.specs.Covers.{IsFlatTable};
ghost use Rattle.mv_rows.specs.Many.{StopsAt};
ghost use Rattle.mv_rows.specs.Once.{AreDistinct, AreLinesOf, IsListed, StopsLines};
ghost use Rattle.mv_rows.specs.Marked.{is_marked};

use crate::column::{Column, Frame};
use crate::line_set::LineSet;
use crate::named::{only, put_row};
use crate::stop::RowStop;
use indexmap::IndexSet;
use mv_base::{Items, Memory, NetId, PackedSet, Value};
use mv_cover::{Cover, Line};
use mv_design::{Entries, Entry, FileTable, Row};
use std::alloc::Global;

/// A table of one output: the cover of its output, and the cover of the mark net that it reads, if it reads one.
#[derive(Drop)]
pub struct FlatTable {
    pub cover: Cover,
    pub mark: Option<Cover>,
}

/// The covers of a table with one output: a line for each row, with a literal for each net of which the row's columns
/// leave a value out. Where a row's entry names a column, it gives a line for each value there. Where the default names
/// one, or where a row says no value, so that it takes the default away and has no line, the default can't stand in the
/// cover. Then the net `mark`, which is that of no column, gets a cover, which is 0 where some row matches and 1 elsewhere,
/// and the default becomes lines that have the mark at 1. Equal lines stand once.
#[tactic(auto, using(crate::proofs::Flat::IsFlatTable_made))]
pub fn flat_table(
    alloc: Global,
    columns: &[Column],
    table: &FileTable,
    mark: NetId,
) -> Result<FlatTable, Memory>
    requires columns { AreColumns columns.now }
    requires with_mark { AreColumns (with_mark columns.now mark) }
    requires unread { is_marked columns.now table.now ≡ true
        → list_any (λ c. nat_eq c.net.0 mark.0) columns.now ≡ false }
    requires table { IsTable columns.now table.now }
    ensures lines { IfOk result (λ flat. IsMade columns.now table.now mark flat) }
    ensures relation { IfOk result (λ flat. IsFlatTable columns.now table.now mark flat) }
{
    match made(alloc, columns, table, mark, usize::MAX) {
        Ok(flat) => Ok(flat),
        Err(_stop) => Err(Memory),
    }
}

/// The same, where the lines are counted while they are made: none behind the first with which more than `most` distinct ones
/// have an output.
#[tactic(auto, using(crate::proofs::Flat::IsFlatTable_made))]
pub fn flat_table_within(
    alloc: Global,
    columns: &[Column],
    table: &FileTable,
    mark: NetId,
    most: usize,
) -> Result<FlatTable, RowStop>
    requires columns { AreColumns columns.now }
    requires with_mark { AreColumns (with_mark columns.now mark) }
    requires unread { is_marked columns.now table.now ≡ true
        → list_any (λ c. nat_eq c.net.0 mark.0) columns.now ≡ false }
    requires table { IsTable columns.now table.now }
    ensures lines { IfOk result (λ flat. IsMade columns.now table.now mark flat) }
    ensures relation { IfOk result (λ flat. IsFlatTable columns.now table.now mark flat) }
    ensures stop { IfErr result (λ stop. StopsAt columns.now table.now mark most stop) }
{
    made(alloc, columns, table, mark, most)
}

/// The covers of a table of one output with this default, whose rows have these distinct lines. `mark` is the net of the mark,
/// should one be needed.
pub fn flat_table_of(
    alloc: Global,
    columns: &[Column],
    default: &Option<Entries>,
    mark: NetId,
    set: LineSet,
) -> Result<FlatTable, Memory>
    requires with_mark { AreColumns (with_mark columns.now mark) }
    requires default { (entries : List Entry) → default.now ≡ Some entries
        → IsDefault columns.now entries }
    requires distinct { firsts set.lines.keys ≡ set.lines.keys }
    ensures { IfOk result
        (λ flat. (t : FileTable) (most : ℕ) → t.default ≡ default.now
        → AreDistinct columns.now t.rows most set
        → IsMade columns.now t mark flat) }
{
    let list = collected(alloc, set.lines)?;
    let lines = RowLines {
        list,
        distinct: true,
    };
    covered(alloc, columns, default, mark, lines)
}

/// The covers of a table with these columns and one output, line by line. `mark` is the net of the mark, should one be
/// needed.
#[tactic(auto, using(crate::proofs::Alike::table_made, crate::proofs::Existing::table_stops))]
fn made(
    alloc: Global,
    columns: &[Column],
    table: &FileTable,
    mark: NetId,
    most: usize,
) -> Result<FlatTable, RowStop>
    requires columns { AreColumns columns.now }
    requires with_mark { AreColumns (with_mark columns.now mark) }
    requires table { IsTable columns.now table.now }
    ensures lines { IfOk result (λ flat. IsMade columns.now table.now mark flat) }
    ensures stop { IfErr result (λ stop. StopsAt columns.now table.now mark most stop) }
{
    let frame = Frame::new(alloc, columns)?;
    let lines = match row_lines(alloc, &frame, table.rows.as_slice(), most) {
        Ok(lines) => lines,
        Err(stop) => return Err(stop),
    };
    Ok(covered(alloc, columns, &table.default, mark, lines)?)
}

/// The covers of a table with these lines and this default.
fn covered(
    alloc: Global,
    columns: &[Column],
    default: &Option<Entries>,
    mark: NetId,
    lines: RowLines,
) -> Result<FlatTable, Memory>
    requires with_mark { AreColumns (with_mark columns.now mark) }
    requires default { (entries : List Entry) → default.now ≡ Some entries
        → IsDefault columns.now entries }
    requires lines { IsListed lines }
    ensures { IfOk result
        (λ flat. FlatOf columns.now mark lines.list.items
        (default_left default.now lines.list.items) flat) }
{
    let Some(entry) = left(default, lines.list.as_slice()) else {
        return without_mark(alloc, lines, None);
    };
    match plain(entry, lines.list.as_slice()) {
        Some(out) => without_mark(alloc, lines, Some(out.copy()?)),
        None => with_mark(alloc, columns, lines.list, entry, mark),
    }
}

/// Lines of rows, and whether each is known to be equal to none before it.
#[derive(Drop)]
pub struct RowLines {
    pub list: Vec<Line>,
    pub distinct: bool,
}

/// Of so many rows or fewer the lines are put one behind the other, with no index.
const FEW_ROWS: usize = 8;

/// The lines of the rows, row after row, at most one of each. Their outputs may be empty. There are none where more than `most`
/// distinct ones have an output, unless the rows are few.
#[tactic(auto, using(crate::proofs::Alike::lines_few, crate::proofs::Alike::lines_distinct, crate::proofs::Alike::listed_distinct))]
fn row_lines(alloc: Global, frame: &Frame, rows: &[Row], most: usize) -> Result<RowLines, RowStop>
    requires frame { IsFrame frame.now }
    requires rows { All (IsRow frame.now.columns) rows.now }
    ensures lines { IfOk result (λ lines. AreLinesOf frame.now.columns rows.now lines.list.items) }
    ensures listed { IfOk result (λ lines. IsListed lines) }
    ensures stop { IfErr result (λ stop. StopsLines frame.now.columns rows.now most stop) }
{
    if rows.len() <= FEW_ROWS {
        let list = few_lines(alloc, frame, rows)?;
        return Ok(RowLines {
            list,
            distinct: false,
        });
    }
    let set = match distinct_lines(alloc, frame, rows, most) {
        Ok(set) => set,
        Err(stop) => return Err(stop),
    };
    let list = collected(alloc, set.lines)?;
    Ok(RowLines {
        list,
        distinct: true,
    })
}

/// The lines of few rows, row after row.
fn few_lines(alloc: Global, frame: &Frame, rows: &[Row]) -> Result<Vec<Line>, Memory>
    requires frame { IsFrame frame.now }
    requires rows { All (IsRow frame.now.columns) rows.now }
    ensures { IfOk result (λ lines. RowsLines frame.now.columns rows.now lines.items) }
{
    let mut lines = Vec::with_capacity(alloc, rows.len())?;
    for row in rows {
        let entry = only(&row.outs);
        frame.put_row(&mut lines, alloc, row.ins.as_slice(), entry)?;
    }
    Ok(lines)
}

/// The distinct lines of the rows.
fn distinct_lines(
    alloc: Global,
    frame: &Frame,
    rows: &[Row],
    most: usize,
) -> Result<LineSet, RowStop>
    requires frame { IsFrame frame.now }
    requires rows { All (IsRow frame.now.columns) rows.now }
    ensures lines { IfOk result (λ set. AreDistinct frame.now.columns rows.now most set) }
    ensures stop { IfErr result (λ stop. StopsLines frame.now.columns rows.now most stop) }
{
    let mut set = LineSet::new(alloc, most);
    let mut named = IndexSet::new(alloc);
    for row in rows {
        match put_row(&mut set, &mut named, alloc, frame, row) {
            Ok(()) => {}
            Err(stop) => return Err(stop),
        }
    }
    Ok(set)
}

/// The default, unless no value lies in its entry or some line has no literal.
fn left<'a>(default: &'a Option<Entries>, lines: &[Line]) -> Option<&'a Entry>
    requires { (entries : List Entry) → default.now ≡ Some entries → length entries ≡ 1 }
    ensures { option_copied result ≡ default_left default.now lines.now }
{
    let Some(entries) = default else {
        return None;
    };
    let entry = only(entries);
    if is_empty(entry) || some_line_is_bare(lines) {
        return None;
    }
    Some(entry)
}

/// Whether no value lies in the entry.
fn is_empty(entry: &Entry) -> bool
    ensures { result ≡ says_nothing entry.now }
{
    match entry {
        Entry::Set(out) => out.is_empty(),
        Entry::Same(_) => false,
    }
}

/// Whether some line has no literal.
fn some_line_is_bare(lines: &[Line]) -> bool
    ensures { result ≡ some_bare lines.now }
{
    lines.iter().any(|line| line.cube.len() == 0)
}

/// The default that a cover can have beside the lines.
fn plain<'a>(entry: &'a Entry, lines: &[Line]) -> Option<&'a PackedSet>
    ensures { option_copied result ≡ plain_default entry.now lines.now }
{
    let Entry::Set(out) = entry else {
        return None;
    };
    if some_output_is_empty(lines) {
        return None;
    }
    Some(out)
}

/// Whether some line has no output.
fn some_output_is_empty(lines: &[Line]) -> bool
    ensures { result ≡ list_any (λ l. nat_eq l.out empty) lines.now }
{
    lines.iter().any(|line| line.out.is_empty())
}

/// The table with these lines and this default.
fn without_mark(
    alloc: Global,
    lines: RowLines,
    default: Option<PackedSet>,
) -> Result<FlatTable, Memory>
    requires { IsListed lines }
    ensures { IfOk result (λ flat. flat ≡ unmarked lines.list.items default) }
{
    let lines = if lines.distinct {
        kept_of_distinct(alloc, lines.list)?
    } else {
        kept(alloc, lines.list)?
    };
    Ok(FlatTable {
        cover: Cover { lines, default },
        mark: None,
    })
}

/// The table with these lines, and with the default as lines that have the mark at 1.
fn with_mark(
    alloc: Global,
    columns: &[Column],
    lines: Vec<Line>,
    entry: &Entry,
    mark: NetId,
) -> Result<FlatTable, Memory>
    requires columns { AreColumns (with_mark columns.now mark) }
    requires entry { FitEntry columns.now entry.now }
    ensures { IfOk result (λ flat. IsMarked columns.now mark lines.items entry.now flat) }
{
    let marks = marks(alloc, lines.as_slice())?;
    let mut lines = lines;
    put_default(&mut lines, alloc, columns, entry, mark)?;
    Ok(FlatTable {
        cover: Cover {
            lines: kept(alloc, lines)?,
            default: None,
        },
        mark: Some(marks),
    })
}

/// The cover of the mark: 0 where a line's cube holds, and 1 elsewhere.
fn marks(alloc: Global, lines: &[Line]) -> Result<Cover, Memory>
    ensures { IfOk result (λ cover. cover ≡ mark_cover lines.now) }
{
    let mut marked = IndexSet::new(alloc);
    for line in lines {
        marked.insert(Line {
            cube: line.cube.copy()?,
            out: PackedSet::one(alloc, Value(0))?,
        })?;
    }
    Ok(Cover {
        lines: listed(alloc, marked)?,
        default: Some(PackedSet::one(alloc, Value(1))?),
    })
}

/// Adds the lines of the default where the mark is 1.
fn put_default(
    lines: &mut Vec<Line>,
    alloc: Global,
    columns: &[Column],
    entry: &Entry,
    mark: NetId,
) -> Result<(), Memory>
    requires columns { AreColumns (with_mark columns.now mark) }
    requires entry { FitEntry columns.now entry.now }
    ensures { OnOk result
        (AddsLines (EntryLines (with_mark columns.now mark)
        (marked_sets columns.now) entry.now) lines.old.items lines.new.items) }
{
    let mut marked = Vec::from_slice(alloc, columns)?;
    marked.push(Column {
        net: mark,
        count: 2,
    })?;
    let frame = Frame::new(alloc, marked.as_slice())?;
    let sets = default_sets(alloc, columns)?;
    frame.put_row(lines, alloc, sets.as_slice(), entry)
}

/// The sets of a row of all inputs with the mark at 1.
fn default_sets(alloc: Global, columns: &[Column]) -> Result<Vec<PackedSet>, Memory>
    requires { AreColumns columns.now }
    ensures { IfOk result (λ sets. sets.items ≡ marked_sets columns.now) }
{
    let mut sets = Vec::new(alloc);
    for column in columns {
        sets.push(PackedSet::full(alloc, column.count)?)?;
    }
    sets.push(PackedSet::one(alloc, Value(1))?)?;
    Ok(sets)
}

/// Of so many lines or fewer equal ones are found by holding each two against each other, with no index.
const FEW_LINES: usize = 8;

/// The lines that have an output, without those that are equal to an earlier one.
fn kept(alloc: Global, lines: Vec<Line>) -> Result<Items<Line>, Memory>
    ensures { IfOk result (λ list. list ≡ kept lines.items) }
{
    if lines.len() <= FEW_LINES {
        kept_of_few(alloc, lines)
    } else {
        kept_of_many(alloc, lines)
    }
}

/// The same for lines none of which is equal to an earlier one.
#[tactic(auto, using(crate::proofs::Alike::kept_distinct))]
fn kept_of_distinct(alloc: Global, lines: Vec<Line>) -> Result<Items<Line>, Memory>
    requires { firsts lines.items ≡ lines.items }
    ensures { IfOk result (λ list. list ≡ kept lines.items) }
{
    let mut said = Vec::with_capacity(alloc, lines.len())?;
    for line in lines {
        if !line.out.is_empty() {
            said.push(line)?;
        }
    }
    Ok(Items::of(said))
}

/// The same for few lines.
#[tactic(auto, using(mv_cover::proofs::Absorbing::inserted_firsts))]
fn kept_of_few(alloc: Global, lines: Vec<Line>) -> Result<Items<Line>, Memory>
    ensures { IfOk result (λ list. list ≡ kept lines.items) }
{
    let mut distinct = Items::with_room(alloc, lines.len())?;
    for line in lines {
        add_kept(&mut distinct, line)?;
    }
    distinct.shrink_to_fit();
    Ok(distinct)
}

/// Adds the line, if it has an output and is equal to none of these.
fn add_kept(distinct: &mut Items<Line>, line: Line) -> Result<(), Memory>
    ensures { OnOk result (distinct.new ≡ insert_kept distinct.old line) }
{
    if line.out.is_empty() || stands_among(&line, distinct.as_slice()) {
        return Ok(());
    }
    distinct.push(line)?;
    Ok(())
}

/// Whether the line is equal to one of these.
fn stands_among(line: &Line, lines: &[Line]) -> bool
    ensures { result ≡ list_any (line_eq line.now) lines.now }
{
    lines.iter().any(|other| line == other)
}

/// The same for many lines, which are found by their hashes.
#[tactic(auto, using(mv_cover::proofs::Absorbing::inserted_firsts))]
fn kept_of_many(alloc: Global, lines: Vec<Line>) -> Result<Items<Line>, Memory>
    ensures { IfOk result (λ list. list ≡ kept lines.items) }
{
    let mut distinct = IndexSet::with_capacity(alloc, lines.len())?;
    for line in lines {
        put_kept(&mut distinct, line)?;
    }
    listed(alloc, distinct)
}

/// Adds the line, if it has an output and is new.
fn put_kept(distinct: &mut IndexSet<Line>, line: Line) -> Result<(), Memory>
    ensures { OnOk result (distinct.new.keys ≡ insert_kept distinct.old.keys line) }
{
    if line.out.is_empty() {
        return Ok(());
    }
    distinct.insert(line)?;
    Ok(())
}

/// The lines of a set, in order.
fn listed(alloc: Global, lines: IndexSet<Line>) -> Result<Items<Line>, Memory>
    ensures { IfOk result (λ list. list ≡ lines.keys) }
{
    Ok(Items::of(collected(alloc, lines)?))
}

/// The lines of a set in a vector, in order.
fn collected(alloc: Global, lines: IndexSet<Line>) -> Result<Vec<Line>, Memory>
    ensures { IfOk result (λ list. list.items ≡ lines.keys) }
{
    Ok(lines.into_iter().collect(alloc)?)
}
