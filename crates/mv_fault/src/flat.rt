ghost use Rattle.std.specs.Prelude.{◌≡◌};
ghost use Rattle.mv_fault.specs.declared.flat.FlatFault.TheVariants.{Memory as out_of_memory};

use crate::fault::Which;
use mv_base::{Memory, Name};
use thiserror::Error;

/// Why a design gives no network. A net, an instance and a latch are told by their flat names: their own names with those of
/// the instances that they stand in, and full stops, before them.
#[derive(Debug, Drop, Error)]
pub enum FlatFault {
    /// No model has the name that an instance gives.
    #[error("no model has the name that an instance gives")]
    NoSuchModel { model: Name },
    /// An instance stands in another of its own model.
    #[error("an instance stands in another of its own model")]
    Recursive { model: Name },
    /// A binding's formal is neither an input nor an output of the model.
    #[error("a formal is neither an input nor an output of its model")]
    NoFormal { formal: Name },
    /// A formal and its actual have different numbers of values.
    #[error("a formal and its actual have different numbers of values")]
    PortValues { formal: Name, actual: Name },
    /// An input of an instance has no binding.
    #[error("an input of an instance has no binding")]
    PortOpen { formal: Name },
    /// Two nets would have this name.
    #[error("two nets would have one name")]
    NameClash { net: Name },
    /// The net has more than one driver.
    #[error("a net has more than one driver")]
    DrivenTwice { net: Name },
    /// Nothing drives the net.
    #[error("nothing drives a net")]
    Undriven { net: Name },
    /// The net is above itself.
    #[error("a net is above itself")]
    Cycle { net: Name },
    /// A latch's output is above the reset value of a latch.
    #[error("the output of a latch is above the reset value of a latch")]
    ResetReadsLatch { latch: Name, reached: Name },
    /// The latch has a second reset table.
    #[error("a latch has a second reset table")]
    ResetTwice { latch: Name },
    /// A reset table's output is no latch of its model.
    #[error("the output of a reset table is no latch of its model")]
    NoLatch { net: Name },
    /// The outputs of a table take too many values together: the limit and one more.
    #[error("the outputs of a table take too many values together: {number}")]
    JointWide { number: u64 },
    /// The network would pass this limit: the limit and one more, or how long a name is.
    #[error("the network would pass a limit: {number}")]
    Limit { which: Which, number: u64 },
    /// Want of memory, which says nothing of the design.
    #[error("out of memory")]
    Memory,
}

impl From<Memory> for FlatFault {
    ghost from_gives = { λ _ e. e ≡ out_of_memory };

    fn from(_error: Memory) -> FlatFault {
        FlatFault::Memory
    }
}
