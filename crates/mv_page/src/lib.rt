//! A text on its way to a sink: its pieces are gathered in a page, which is handed on where the next one doesn't fit.
#![tactic(auto)]

mod held;
mod page;

pub use held::PAGE_BYTES;
pub use page::Page;
