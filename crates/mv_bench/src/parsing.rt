use crate::lexing::lines_of_input;
use crate::stop::Stop;
use mv_design::Design;
use mv_parse::parse;
use std::fmt;

/// What a design has.
#[derive(Clone, Copy, Debug, PartialEq, Eq)]
pub struct Parts {
    models: usize,
    tables: u64,
    rows: u64,
}

impl fmt::Display for Parts {
    fn fmt<W: fmt::Write>(&self, f: &mut fmt::Formatter<W>) -> fmt::Result {
        write!(
            f,
            "{} models {} tables {} rows",
            self.models, self.tables, self.rows
        )
    }
}

/// How many models, tables and rows there are.
fn counted(design: &Design) -> Parts {
    let mut parts = Parts {
        models: design.models.len(),
        tables: 0,
        rows: 0,
    };
    for model in design.models.as_slice() {
        for table in model.tables.as_slice() {
            parts.tables = parts.tables.saturating_add(1);
            parts.rows = parts.rows.saturating_add(table.rows.len() as u64);
        }
    }
    parts
}

/// Reads standard input as a network file, and counts the parts of its design.
pub fn parsed(rt: &HostRuntime) -> Result<Parts, Stop> {
    let lines = lines_of_input(rt)?;
    let design = parse(rt.alloc(), &lines)?;
    Ok(counted(&design))
}
