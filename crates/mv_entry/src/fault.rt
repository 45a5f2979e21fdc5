use mv_base::Memory;
use std::alloc::{AllocError, AllocFailed};
use thiserror::Error;

/// Why a rule isn't applied to a network.
#[derive(Clone, Copy, Debug, PartialEq, Eq, Error)]
pub enum RuleFault {
    /// A net that the rule names isn't there, or has no table.
    #[error("there is no such net")]
    NoNet,
    /// The net is seen from outside.
    #[error("the net is seen from outside")]
    Visible,
    /// The net is read.
    #[error("the net is read")]
    Read,
    /// The net isn't read.
    #[error("the net isn't read")]
    Unread,
    /// The net has two readers or more, and may have one of several values.
    #[error("the net has several readers")]
    Shared,
    /// The table, or one below it, doesn't allow something everywhere.
    #[error("a table isn't total")]
    Partial,
    /// The table may allow several values.
    #[error("the table isn't plainly deterministic")]
    Varied,
    /// The name of a new net is taken, or no lawful name.
    #[error("the name isn't fresh")]
    NotFresh,
    /// The new table isn't of the form that the rule asks for.
    #[error("the tables aren't the same")]
    NotSame,
    /// A net would be above itself.
    #[error("a net would be above itself")]
    Loop,
    /// The body isn't tidy.
    #[error("the body isn't tidy")]
    Form,
    /// Something is allowed that wasn't, or a net is read that wasn't.
    #[error("something new would be allowed")]
    Outside,
    /// Nothing is left where something was allowed.
    #[error("nothing would be allowed")]
    Lost,
    /// A table would be too large.
    #[error("a table would be too large")]
    Wide,
    /// The numbers of nets are used up.
    #[error("there are too many nets")]
    Nets,
    /// The window is too large.
    #[error("the window is too large")]
    Window,
    /// The rule leaves more choices than there were, and only those that keep to them are asked for.
    #[error("the rule isn't among those that are asked for")]
    Strict,
    /// The table allows something everywhere.
    #[error("the table is total")]
    Total,
    /// The nodes of diagrams are used up.
    #[error("there are too many nodes")]
    Nodes,
    /// Want of memory, which says nothing of the rule.
    #[error("out of memory")]
    Memory,
}

impl From<Memory> for RuleFault {
    ghost use Rattle.std.specs.Prelude.{◌≡◌};
    ghost use Rattle.mv_entry.specs.declared.fault.RuleFault.TheVariants.{Memory as out_of_memory};

    ghost from_gives = { λ _ e. e ≡ out_of_memory };

    fn from(_memory: Memory) -> RuleFault {
        RuleFault::Memory
    }
}

impl From<AllocError> for RuleFault {
    ghost use Rattle.std.specs.Prelude.{◌≡◌};
    ghost use Rattle.mv_entry.specs.declared.fault.RuleFault.TheVariants.{Memory as out_of_memory};

    ghost from_gives = { λ _ e. e ≡ out_of_memory };

    fn from(_error: AllocError) -> RuleFault {
        RuleFault::Memory
    }
}

impl<T: Drop> From<AllocFailed<T>> for RuleFault {
    ghost use Rattle.std.specs.Prelude.{◌≡◌};
    ghost use Rattle.mv_entry.specs.declared.fault.RuleFault.TheVariants.{Memory as out_of_memory};

    ghost from_gives = { λ _ e. e ≡ out_of_memory };

    fn from(_failed: AllocFailed<T>) -> RuleFault {
        RuleFault::Memory
    }
}
