//! The line of an instance, `.subckt MODEL INSTANCE F=A ..`, to the instance with its bindings, or its first fault.
#![tactic(auto)]

mod binding;
mod laws;
mod line;

pub use laws::{binding_laws, instance_laws};
pub use line::{add_instance, check_instance, read_instance};
