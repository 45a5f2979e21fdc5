//! What each rule asks of a network, in what order its checks fail, and the change that carries it out.
#![tactic(auto)]

mod add;
mod collapse;
mod composites;
mod divide;
mod encode;
mod expand;
mod fill;
mod fresh;
mod lawful;
mod lookup;
mod merge;
mod narrow;
mod order;
mod remove;
mod wire;

pub use add::plan_add;
pub use collapse::{inner_of, is_unshared, plan_collapse};
pub use composites::composite_literals;
pub use divide::plan_divide;
pub use encode::plan_encode;
pub use fill::plan_fill;
pub use merge::plan_merge;
pub use mv_composite::Inner;
pub use mv_cover::CoverStop;
pub use narrow::{plan_narrow, plan_narrow_next, plan_narrow_with, plan_narrow_within};
pub use remove::plan_remove;
pub use wire::plan_wire;
