//! Whether a net of a model without instances is above itself, and whether reset values stand apart from the latches; how the
//! nets of a model are gathered and numbered; and the faults of its reset tables. It knows of files alone, and nothing of
//! covers and networks.
#![tactic(auto)]

mod alone;
mod checking;
mod columns;
mod drivers;
mod naming;
mod nets;
mod numbers;
mod resets;
mod seen;

pub use checking::check;
pub use drivers::{add_latches, add_names};
pub use naming::{Naming, front_before, namings};
pub use nets::{add_named, add_net, add_nets};
pub use numbers::Numbers;
pub use resets::check_resets;
pub use seen::sound;
