//! Tables of the whole that come from one table of the design, as those of a model that is instanced more than once.
ghost use Rattle.std.specs.Prelude.{◌≡◌, ◌<◌, ◌≤◌, ◌+◌, ◌++◌, [], true, false, nat_eq, length, slice_index_or, All, IfErr, IfOk, IfSome, OnOk};
ghost use Rattle.std.specs.List.{flat_map, list_any};
ghost use Rattle.mv_base.specs.declared.limits.TheConstants.{MAX_VALUES as most_values};
ghost use Rattle.mv_design.specs.declared.design.FileModel.{FileModel};
ghost use Rattle.mv_design.specs.declared.table.FileTable.{FileTable};
ghost use Rattle.mv_tree.specs.Unfolded.{tables_in};
ghost use Rattle.mv_walk.specs.declared.opened.Opened.{Opened};
ghost use Rattle.mv_unfold.specs.Laid.{model_numbers};
ghost use Rattle.mv_unfold.specs.Placed.{places_by};
ghost use Rattle.mv_rows.specs.Cubes.{AreColumns};
ghost use Rattle.mv_rows.specs.Flat.{with_mark, IsMade, IsTable};
ghost use Rattle.mv_rows.specs.Many.{StopsAt};
ghost use Rattle.mv_rows.specs.Marked.{is_marked};
ghost use Rattle.mv_joint.specs.Joint.{IsMadeJoint, StopsCovers};
ghost use Rattle.mv_joint.specs.Plain.{is_joint_marked, IsJointFile};
ghost use Rattle.mv_shapes.specs.Rows.{some_full, some_silent};
ghost use Rattle.mv_flat.specs.Shared.{firsts_from, origins_of, HasRowsOf, IsFrom, KeepsOrigins};

use crate::size::gives_reset;
use mv_base::{Memory, NetId};
use mv_design::{Design, FileModel, FileTable};
use mv_joint::{CoversStop, JointTable, is_joint_marked, joint_table};
use mv_rows::{Column, FlatTable, RowStop, flat_table_within};
use mv_shapes::{SharedTable, some_row_is_full, some_row_is_silent};
use mv_walk::Opened;
use std::alloc::Global;

/// A table with fewer rows has its covers as soon as the shape of its columns is found out.
const MANY_ROWS: usize = 64;

/// The tables of a design's models, one model after the other, and of each table of the whole, by its line, the number of the one
/// that it comes from. None is known of a design without instances, or where no table has many rows.
#[derive(Drop)]
pub struct SharedTables {
    pub origins: Vec<usize>,
    pub tables: Vec<SharedTable>,
}

impl SharedTables {
    /// The tables of a design with these instances.
    pub fn of(alloc: Global, design: &Design, opened: &[Opened]) -> Result<SharedTables, Memory>
        requires rooted { design.now.root < length design.now.models }
        requires opened { All (λ (o : Opened). o.model < length design.now.models) opened.now }
        ensures known { IfOk result
            (λ s. All (IsFrom s) (tables_in 0 (places_by design.now opened.now))) }
        ensures none { IfOk result (λ s. opened.now ≡ [] → s.origins.items ≡ []) }
    {
        let models = design.models.as_slice();
        if may_share(models, opened) {
            let origins = origins(alloc, design, opened)?;
            let tables = tables(alloc, models)?;
            return Ok(SharedTables { origins, tables });
        }
        Ok(none(alloc))
    }

    /// The covers of a table of the whole, unless its cover has more lines than `most`: those that are kept for the table that it
    /// comes from, where they are.
    pub fn flat_table(
        &mut self,
        alloc: Global,
        columns: &[Column],
        table: &FileTable,
        mark: NetId,
        most: usize,
    ) -> Result<FlatTable, RowStop>
        requires columns { AreColumns columns.now }
        requires with_mark { AreColumns (with_mark columns.now mark) }
        requires unread { is_marked columns.now table.now ≡ true
            → list_any (λ c. nat_eq c.net.0 mark.0) columns.now ≡ false }
        requires table { IsTable columns.now table.now }
        requires single { length table.now.outputs ≡ 1 }
        requires from { IsFrom self.old table.now }
        ensures kept { KeepsOrigins self.old self.new }
        ensures lines { IfOk result (λ flat. IsMade columns.now table.now mark flat) }
        ensures stop { IfErr result (λ stop. StopsAt columns.now table.now mark most stop) }
    {
        match self.origin(table) {
            Some(at) => flat_at(&mut self.tables, at, alloc, columns, table, mark, most),
            None => flat_table_within(alloc, columns, table, mark, most),
        }
    }

    /// Whether some row of the table says no value. It is kept of the table that it comes from, if that is known.
    pub fn some_row_is_silent(&self, table: &FileTable) -> bool
        requires single { length table.now.outputs ≡ 1 }
        requires from { IsFrom self.now table.now }
        ensures { result ≡ some_silent table.now.rows }
    {
        match self.origin(table) {
            Some(at) => self.tables[at].some_row_is_silent(),
            None => some_row_is_silent(table.rows.as_slice()),
        }
    }

    /// Whether some row of the table has all values of columns with so many. It is kept of the table that it comes from, if that is
    /// known.
    pub fn some_row_is_full(&mut self, table: &FileTable, counts: Vec<u16>) -> bool
        requires single { length table.now.outputs ≡ 1 }
        requires from { IsFrom self.old table.now }
        requires few { All (λ n. n ≤ most_values) counts.items }
        ensures kept { KeepsOrigins self.old self.new }
        ensures full { result ≡ some_full counts.items table.now.rows }
    {
        match self.origin(table) {
            Some(at) => full_at(&mut self.tables, at, table, counts),
            None => some_row_is_full(table.rows.as_slice(), counts.as_slice()),
        }
    }

    /// Whether a table of several outputs gets a mark. Of many rows only the distinct ones are looked at, if it is known which they are.
    pub fn is_joint_marked(
        &self,
        alloc: Global,
        columns: &[Column],
        table: &FileTable,
    ) -> Result<bool, Memory>
        requires columns { AreColumns columns.now }
        requires table { IsJointFile columns.now table.now }
        requires some { 0 < length table.now.outputs }
        requires from { IsFrom self.now table.now }
        ensures { IfOk result (λ b. b ≡ is_joint_marked columns.now table.now) }
    {
        match self.origin(table) {
            Some(at) => marked_at(self.tables.as_slice(), at, alloc, columns, table),
            None => is_joint_marked(alloc, columns, table),
        }
    }

    /// The covers of a table of several outputs. Of many rows only the distinct ones are looked at, if it is known which they are.
    pub fn joint_table(
        &self,
        alloc: Global,
        columns: &[Column],
        table: &FileTable,
        mark: NetId,
        choice: NetId,
        most: usize,
    ) -> Result<JointTable, CoversStop>
        requires columns { AreColumns columns.now }
        requires with_mark { AreColumns (with_mark columns.now mark) }
        requires unread { list_any (λ c. nat_eq c.net.0 mark.0) columns.now ≡ false }
        requires apart { list_any (λ c. nat_eq c.net.0 choice.0) (with_mark columns.now mark) ≡ false }
        requires table { IsJointFile columns.now table.now }
        requires some { 0 < length table.now.outputs }
        requires from { IsFrom self.now table.now }
        ensures lines { IfOk result (λ joint. IsMadeJoint columns.now table.now mark choice joint) }
        ensures stop { IfErr result
            (λ stop. StopsCovers columns.now table.now mark choice most stop) }
    {
        match self.origin(table) {
            Some(at) => joint_at(
                self.tables.as_slice(),
                at,
                alloc,
                columns,
                table,
                mark,
                choice,
                most,
            ),
            None => joint_alone(alloc, columns, table, mark, choice, most),
        }
    }

    /// The number of the table that a table of many rows comes from, if it is known.
    fn origin(&self, table: &FileTable) -> Option<usize>
        requires some { 0 < length table.now.outputs }
        requires from { IsFrom self.now table.now }
        ensures low { IfSome result (λ k. k < length self.now.tables.items) }
        ensures rows { IfSome result
            (λ k. (d : FileTable)
            → HasRowsOf table.now (slice_index_or self.now.tables.items k d)) }
    {
        if !is_large(table) || gives_reset(table) {
            return None;
        }
        let origin = *self.origins.get(table.line as usize)?;
        if origin < self.tables.len() {
            Some(origin)
        } else {
            None
        }
    }
}

/// The covers of a table over these columns, as those of the table at the place, which has its rows.
fn flat_at(
    tables: &mut Vec<SharedTable>,
    at: usize,
    alloc: Global,
    columns: &[Column],
    table: &FileTable,
    mark: NetId,
    most: usize,
) -> Result<FlatTable, RowStop>
    requires low { at < length tables.old.items }
    requires rows { (d : FileTable) → HasRowsOf table.now (slice_index_or tables.old.items at d) }
    requires columns { AreColumns columns.now }
    requires with_mark { AreColumns (with_mark columns.now mark) }
    requires unread { is_marked columns.now table.now ≡ true
        → list_any (λ c. nat_eq c.net.0 mark.0) columns.now ≡ false }
    requires table { IsTable columns.now table.now }
    ensures same { tables.new.items ≡ tables.old.items }
    ensures lines { IfOk result (λ flat. IsMade columns.now table.now mark flat) }
    ensures stop { IfErr result (λ stop. StopsAt columns.now table.now mark most stop) }
{
    let shared = &mut tables[at];
    shared.flat_table(alloc, columns, mark, most)
}

/// Whether some row of the table has all values of columns with so many, as it is kept of the table at the place, which has its rows.
fn full_at(tables: &mut Vec<SharedTable>, at: usize, table: &FileTable, counts: Vec<u16>) -> bool
    requires low { at < length tables.old.items }
    requires rows { (d : FileTable) → HasRowsOf table.now (slice_index_or tables.old.items at d) }
    requires few { All (λ n. n ≤ most_values) counts.items }
    ensures same { tables.new.items ≡ tables.old.items }
    ensures full { result ≡ some_full counts.items table.now.rows }
{
    let shared = &mut tables[at];
    shared.some_row_is_full(counts)
}

/// Whether the table of several outputs gets a mark, as the table at the place does, which has its rows.
fn marked_at(
    tables: &[SharedTable],
    at: usize,
    alloc: Global,
    columns: &[Column],
    table: &FileTable,
) -> Result<bool, Memory>
    requires low { at < length tables.now }
    requires rows { (d : FileTable) → HasRowsOf table.now (slice_index_or tables.now at d) }
    requires columns { AreColumns columns.now }
    requires table { IsJointFile columns.now table.now }
    ensures { IfOk result (λ b. b ≡ is_joint_marked columns.now table.now) }
{
    let shared = &tables[at];
    shared.is_joint_marked(alloc, columns)
}

/// The covers of the table of several outputs, as those of the table at the place, which has its rows.
fn joint_at(
    tables: &[SharedTable],
    at: usize,
    alloc: Global,
    columns: &[Column],
    table: &FileTable,
    mark: NetId,
    choice: NetId,
    most: usize,
) -> Result<JointTable, CoversStop>
    requires low { at < length tables.now }
    requires rows { (d : FileTable) → HasRowsOf table.now (slice_index_or tables.now at d) }
    requires columns { AreColumns columns.now }
    requires with_mark { AreColumns (with_mark columns.now mark) }
    requires unread { list_any (λ c. nat_eq c.net.0 mark.0) columns.now ≡ false }
    requires apart { list_any (λ c. nat_eq c.net.0 choice.0) (with_mark columns.now mark) ≡ false }
    requires table { IsJointFile columns.now table.now }
    ensures lines { IfOk result (λ joint. IsMadeJoint columns.now table.now mark choice joint) }
    ensures stop { IfErr result (λ stop. StopsCovers columns.now table.now mark choice most stop) }
{
    let shared = &tables[at];
    match shared.joint_table(alloc, columns, mark, choice, most) {
        Ok(joint) => Ok(joint),
        Err(stop) => Err(stop),
    }
}

/// The covers of a table of several outputs that comes from no other.
fn joint_alone(
    alloc: Global,
    columns: &[Column],
    table: &FileTable,
    mark: NetId,
    choice: NetId,
    most: usize,
) -> Result<JointTable, CoversStop>
    requires columns { AreColumns columns.now }
    requires with_mark { AreColumns (with_mark columns.now mark) }
    requires unread { list_any (λ c. nat_eq c.net.0 mark.0) columns.now ≡ false }
    requires apart { list_any (λ c. nat_eq c.net.0 choice.0) (with_mark columns.now mark) ≡ false }
    requires table { IsJointFile columns.now table.now }
    ensures lines { IfOk result (λ joint. IsMadeJoint columns.now table.now mark choice joint) }
    ensures stop { IfErr result (λ stop. StopsCovers columns.now table.now mark choice most stop) }
{
    match joint_table(alloc, columns, table, mark, choice, most) {
        Ok(joint) => Ok(joint),
        Err(stop) => Err(stop),
    }
}

/// No tables of which anything is known.
fn none(alloc: Global) -> SharedTables
    ensures { result.origins.items ≡ [] }
{
    SharedTables {
        origins: Vec::new(alloc),
        tables: Vec::new(alloc),
    }
}

/// Whether there are instances, and a table whose covers are worth keeping.
fn may_share(models: &[FileModel], opened: &[Opened]) -> bool
    ensures { opened.now ≡ [] → result ≡ false }
{
    !opened.is_empty() && has_large_table(models)
}

/// Whether a table of these models has many rows.
fn has_large_table(models: &[FileModel]) -> bool {
    for model in models {
        if some_large(model.tables.as_slice()) {
            return true;
        }
    }
    false
}

/// Whether one of these tables has many rows.
fn some_large(tables: &[FileTable]) -> bool {
    for table in tables {
        if is_large(table) {
            return true;
        }
    }
    false
}

/// Whether the table has many rows.
fn is_large(table: &FileTable) -> bool {
    table.rows.len() >= MANY_ROWS
}

/// The tables of the models, one model after the other.
fn tables(alloc: Global, models: &[FileModel]) -> Result<Vec<SharedTable>, Memory>
    ensures { IfOk result
        (λ tables. tables.items ≡ flat_map (λ (m : FileModel). m.tables) models.now) }
{
    let mut tables = Vec::new(alloc);
    for model in models {
        add_tables(&mut tables, alloc, model.tables.as_slice())?;
    }
    Ok(tables)
}

/// Adds these tables.
fn add_tables(
    tables: &mut Vec<SharedTable>,
    alloc: Global,
    more: &[FileTable],
) -> Result<(), Memory>
    ensures { OnOk result (tables.new.items ≡ tables.old.items ++ more.now) }
{
    for table in more {
        tables.push(SharedTable::of(alloc, table)?)?;
    }
    Ok(())
}

/// For each table of the whole the number of the table that it comes from.
fn origins(alloc: Global, design: &Design, opened: &[Opened]) -> Result<Vec<usize>, Memory>
    requires rooted { design.now.root < length design.now.models }
    requires opened { All (λ (o : Opened). o.model < length design.now.models) opened.now }
    ensures { IfOk result
        (λ origins. origins.items
        ≡ flat_map (origins_of design.now.models) (model_numbers design.now opened.now)) }
{
    let models = design.models.as_slice();
    let firsts = firsts(alloc, models)?;
    let mut origins = Vec::new(alloc);
    add_origins(
        &mut origins,
        models,
        firsts.as_slice(),
        design.root as usize,
    )?;
    for instance in opened {
        add_origins(&mut origins, models, firsts.as_slice(), instance.model)?;
    }
    Ok(origins)
}

/// Adds the numbers of a model's tables.
fn add_origins(
    origins: &mut Vec<usize>,
    models: &[FileModel],
    firsts: &[usize],
    model: usize,
) -> Result<(), Memory>
    requires model { model < length models.now }
    requires firsts { firsts.now ≡ firsts_from 0 models.now }
    ensures { OnOk result
        (origins.new.items ≡ origins.old.items ++ origins_of models.now model) }
{
    let first = firsts[model];
    for place in 0..models[model].tables.len() {
        origins.push(sum(first, place)?)?;
    }
    Ok(())
}

/// For each model the number of its first table.
fn firsts(alloc: Global, models: &[FileModel]) -> Result<Vec<usize>, Memory>
    ensures { IfOk result (λ firsts. firsts.items ≡ firsts_from 0 models.now) }
{
    let mut firsts = Vec::with_capacity(alloc, models.len())?;
    let mut next = 0;
    for model in models {
        firsts.push(next)?;
        next = sum(next, model.tables.len())?;
    }
    Ok(firsts)
}

/// The sum of two counts.
fn sum(a: usize, b: usize) -> Result<usize, Memory>
    ensures { IfOk result (λ sum. sum ≡ a + b) }
{
    a.checked_add(b).ok_or(Memory)
}
