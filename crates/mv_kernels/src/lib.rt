//! All kernels of a cover, from which common divisors are taken.
#![tactic(auto)]

mod kernel;
mod order;
mod quotient;
mod stop;
mod symbols;
mod walk;

pub use kernel::Kernel;
pub use order::{compare_cubes, compare_lists, in_order, order_laws};
pub use stop::KernelStop;
pub use symbols::{cube_quotient, has_each};
pub use walk::kernels;
