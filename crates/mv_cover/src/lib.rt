//! Tables of a network as covers: lines of a cube of literals and an output set, and a default.
#![tactic(auto)]

mod absorb;
mod absorber;
mod alike;
mod busiest;
mod complement;
mod contain;
mod count;
mod cover;
mod covers;
mod cube;
mod left;
mod lies;
mod line;
mod literal;
mod marks;
mod meet;
mod overlap;
mod plain;
mod sharp;
mod spell;
mod stop;
mod suit;
mod wide;

pub use absorber::Absorber;
pub use cover::Cover;
pub use cube::Cube;
pub use line::Line;
pub use literal::Lit;
pub use stop::CoverStop;
