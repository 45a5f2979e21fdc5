ghost use Rattle.std.specs.Prelude.{◌≡◌, IfOk, map};

use mv_base::{Items, Memory, Value};
use std::alloc::Global;
use std::marker::Model;

/// Values of some nets, one a net, in the order of the nets. Contracts see them as their positions.
#[derive(Debug, Drop)]
pub struct Values {
    list: Items<Value>,
}

impl Model for Values {
    ghost use Rattle.std.specs.Prelude.{List, ℕ, map};

    ghost Value = { List ℕ };

    ghost view = { λ a. map (λ v. v.0) a.list };
}

impl Values {
    /// The list of these values.
    pub fn new(alloc: Global, values: &[Value]) -> Result<Values, Memory>
        ensures { IfOk result (λ list. list ≡ map (λ v. v.0) values.now) }
    {
        Ok(Values {
            list: Items::of(Vec::from_slice(alloc, values)?),
        })
    }

    /// The values. It takes no memory.
    pub fn list(&self) -> &[Value]
        ensures { map (λ v. v.0) result.now ≡ self.now }
    {
        self.list.as_slice()
    }
}
