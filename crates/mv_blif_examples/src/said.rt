//! What the lines of a text say, as a text.
use mv_base::{MAX_NETWORK_BYTES, MemorySink, Name, PackedSet, Sink};
use mv_blif::{BlifDesign, BlifFault, BlifLatch, LatchKind, read_blif};
use mv_design::{Entries, Entry, FileLatch, FileModel, FileTable, Row};
use mv_fault::put_parse_fault;
use mv_lex::{Lexer, Lines};
use std::alloc::Global;
use std::slice::from_ref;
use std::test::Fail;

/// How many bytes the answer has at most.
const ROOM: usize = 65_536;

/// Puts a piece.
fn put(out: &mut MemorySink, piece: &[u8]) -> Result<(), Fail> {
    Ok(out.put(piece).ok().ok_or("a full sink")?)
}

/// Puts a number.
fn put_number(alloc: Global, out: &mut MemorySink, number: u32) -> Result<(), Fail> {
    let text = format!(in alloc; "{number}")?;
    put(out, text.as_bytes())
}

/// Puts names, each with a blank before it.
fn put_names(out: &mut MemorySink, names: &[Name]) -> Result<(), Fail> {
    for name in names {
        put(out, b" ")?;
        put(out, name.bytes())?;
    }
    Ok(())
}

/// Puts a set of values of a net that has two.
fn put_set(out: &mut MemorySink, set: &PackedSet) -> Result<(), Fail> {
    match set.bits() {
        Some(1) => put(out, b"0"),
        Some(2) => put(out, b"1"),
        Some(3) => put(out, b"-"),
        _ => put(out, b"?"),
    }
}

/// Puts what is said of the outputs.
fn put_entries(out: &mut MemorySink, entries: &Entries) -> Result<(), Fail> {
    for entry in entries.as_slice() {
        put(out, b" ")?;
        match entry {
            Entry::Set(set) => put_set(out, set)?,
            Entry::Same(_place) => put(out, b"=")?,
        }
    }
    Ok(())
}

/// Puts a row.
fn put_row(out: &mut MemorySink, row: &Row) -> Result<(), Fail> {
    put(out, b", ")?;
    for set in row.ins.as_slice() {
        put_set(out, set)?;
    }
    put_entries(out, &row.outs)
}

/// Puts a table with its rows and its default.
fn put_table(
    alloc: Global,
    out: &mut MemorySink,
    word: &[u8],
    table: &FileTable,
) -> Result<(), Fail> {
    put(out, word)?;
    put_number(alloc, out, table.line)?;
    put_names(out, table.inputs.as_slice())?;
    put(out, b" ->")?;
    put_names(out, table.outputs.as_slice())?;
    for row in table.rows.as_slice() {
        put_row(out, row)?;
    }
    if let Some(entries) = &table.default {
        put(out, b", else")?;
        put_entries(out, entries)?;
    }
    Ok(())
}

/// The word for a kind of latch.
fn kind_word(kind: LatchKind) -> &'static [u8] {
    match kind {
        LatchKind::Fe => b" fe",
        LatchKind::Re => b" re",
        LatchKind::Ah => b" ah",
        LatchKind::Al => b" al",
        LatchKind::As => b" as",
    }
}

/// Puts a latch with its nets.
fn put_latch(alloc: Global, out: &mut MemorySink, latch: &FileLatch) -> Result<(), Fail> {
    put(out, b"; latch ")?;
    put_number(alloc, out, latch.line)?;
    put(out, b" ")?;
    put(out, latch.input.bytes())?;
    put(out, b" ")?;
    put(out, latch.output.bytes())
}

/// Puts what else stands on the line of a latch.
fn put_settings(alloc: Global, out: &mut MemorySink, latch: &BlifLatch) -> Result<(), Fail> {
    put(out, b"; settings")?;
    if let Some(kind) = latch.kind {
        put(out, kind_word(kind))?;
    }
    if let Some(control) = &latch.control {
        put(out, b" ")?;
        put(out, control.bytes())?;
    }
    put(out, b" ")?;
    put_number(alloc, out, latch.init as u32)
}

/// Puts a model.
fn put_model(alloc: Global, out: &mut MemorySink, model: &FileModel) -> Result<(), Fail> {
    put(out, model.name.bytes())?;
    put(out, b"; inputs")?;
    put_names(out, model.inputs.as_slice())?;
    put(out, b"; outputs")?;
    put_names(out, model.outputs.as_slice())?;
    for table in model.tables.as_slice() {
        put_table(alloc, out, b"; table ", table)?;
    }
    for latch in model.latches.as_slice() {
        put_latch(alloc, out, latch)?;
    }
    for table in model.resets.as_slice() {
        put_table(alloc, out, b"; reset ", table)?;
    }
    Ok(())
}

/// Puts a design.
fn put_design(alloc: Global, out: &mut MemorySink, blif: &BlifDesign) -> Result<(), Fail> {
    for model in blif.design.models.as_slice() {
        put_model(alloc, out, model)?;
    }
    for latch in blif.latches.as_slice() {
        put_settings(alloc, out, latch)?;
    }
    Ok(())
}

/// Puts what the line of a fault of BLIF alone begins with: its number and name, and the number of the line.
fn put_head(alloc: Global, out: &mut MemorySink, name: &[u8], line: u32) -> Result<(), Fail> {
    put(out, b"# fault network ")?;
    put(out, name)?;
    put(out, b" line ")?;
    put_number(alloc, out, line)
}

/// Puts a fault.
fn put_fault(alloc: Global, out: &mut MemorySink, fault: &BlifFault) -> Result<(), Fail> {
    match fault {
        BlifFault::Line(fault) => Ok(put_parse_fault(fault, out).ok().ok_or("a full sink")?),
        BlifFault::SecondModel { line, name } => {
            put_head(alloc, out, b"40 SecondModel", *line)?;
            put_names(out, from_ref(name))?;
            put(out, b"\n")
        }
        BlifFault::MixedRows { line } => {
            put_head(alloc, out, b"41 MixedRows", *line)?;
            put(out, b"\n")
        }
        BlifFault::BadLatch { line, word } => {
            put_head(alloc, out, b"42 BadLatch", *line)?;
            put_names(out, from_ref(word))?;
            put(out, b"\n")
        }
        BlifFault::Memory => Err(Fail::from("memory")),
    }
}

/// The lines of a text.
fn lines_of(alloc: Global, text: &[u8]) -> Result<Lines, Fail> {
    let mut lines = Lines::new(alloc);
    let mut lexer = Lexer::new(alloc, MAX_NETWORK_BYTES);
    lexer.feed(text, &mut lines)?;
    lexer.finish(&mut lines)?;
    Ok(lines)
}

/// What lines say: the model with its ports, its tables, each with its rows and its default, its latches, their reset tables, and
/// what else is said of each latch; or the fault that is told of them. It fails for want of memory or of room.
pub fn said_of(alloc: Global, lines: &Lines) -> Result<MemorySink, Fail> {
    let mut out = MemorySink::new(alloc, ROOM, Vec::new(alloc))
        .ok()
        .ok_or("memory")?;
    match read_blif(alloc, lines) {
        Ok(blif) => put_design(alloc, &mut out, &blif)?,
        Err(fault) => put_fault(alloc, &mut out, &fault)?,
    }
    Ok(out)
}

/// What the lines of a text say, in which `;` stands for a line feed.
pub fn said_of_line(alloc: Global, line: &str) -> Result<MemorySink, Fail> {
    let mut text = Vec::from_slice(alloc, line.as_bytes())?;
    for byte in text.iter_mut() {
        if *byte == b';' {
            *byte = b'\n';
        }
    }
    said_of(alloc, &lines_of(alloc, text.as_slice())?)
}
