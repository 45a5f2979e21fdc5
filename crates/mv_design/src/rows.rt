//! The rows of a table.
ghost use Rattle.std.specs.Prelude.{◌≡◌, IfOk, length};

use crate::table::Row;
use mv_base::{Items, Memory};
use std::alloc::Global;
use std::marker::Model;
use std::rc::Rc;

/// The rows of a table in order, seen by contracts as their list. Copies share them: a table that stands in very many instances
/// of its model has its rows once.
#[derive(Drop)]
pub struct Rows {
    shared: Rc<Items<Row>>,
}

impl Model for Rows {
    ghost use Rattle.std.specs.Prelude.{List};
    ghost use Rattle.mv_design.specs.declared.table.Row.{Row};

    ghost Value = { List Row };

    ghost view = { λ a. a.shared.value };
}

impl Rows {
    /// These rows.
    pub fn of(alloc: Global, rows: Items<Row>) -> Result<Rows, Memory>
        ensures { IfOk result (λ made. made ≡ rows) }
    {
        Ok(Rows {
            shared: Rc::new(alloc, rows)?,
        })
    }

    /// The rows.
    pub fn as_slice(&self) -> &[Row]
        ensures { result.now ≡ self.now }
    {
        self.shared.as_ref().as_slice()
    }

    /// How many rows there are.
    pub fn len(&self) -> usize
        ensures { result ≡ length self.now }
    {
        self.as_slice().len()
    }

    /// Equal rows, which are the same in memory.
    pub fn copy(&self) -> Result<Rows, Memory>
        ensures { IfOk result (λ c. c ≡ self.now) }
    {
        Ok(Rows {
            shared: self.shared.clone()?,
        })
    }
}
