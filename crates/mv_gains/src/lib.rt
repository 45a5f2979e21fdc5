//! Which common divisor of a network's tables, a kernel or a cube, saves the most literals.
#![tactic(auto)]

mod answers;
mod best;
mod cube_gains;
mod cubes;
mod gains;
mod holders;
mod kernels;
mod law;
mod leader;
mod marks;
mod tables;
mod worth;

pub use best::{best_cube, best_kernel};
pub use cube_gains::CubeGains;
pub use gains::Gains;
pub use kernels::has_many_kernels;
pub use law::{candidate_laws, table_law};
