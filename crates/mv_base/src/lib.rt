//! What every crate of mvopt speaks of: numbers of nets and values, sets of values, names, lists,
//! want of memory, the limits, and the outside world as objects that are handed in.
#![tactic(auto)]

mod host;
mod inline_bytes;
mod items;
mod limits;
mod memory;
mod memory_files;
mod memory_sink;
mod name;
mod name_set;
mod number;
mod outside;
mod packed_set;
mod pieces;
mod value_set;

pub use host::{HostErr, HostFiles, HostOut, HostSink};
pub use items::Items;
pub use limits::{
    DEFAULT_BUDGET, MAX_BRACKETED_BYTES, MAX_BUDGET, MAX_CERTIFICATE_BYTES, MAX_CODE_BITS,
    MAX_COLUMNS, MAX_COMPLEMENT_CUBES, MAX_COMPOSED_LINES, MAX_DEPTH, MAX_FANINS, MAX_FLAT_LINES,
    MAX_FLAT_LITERALS, MAX_FLAT_NAME_BYTES, MAX_FLAT_NETS, MAX_INSTANCES, MAX_JOINT_ROWS,
    MAX_KERNELS, MAX_MODELS, MAX_NETS, MAX_NETWORK_BYTES, MAX_SCRIPT_BRACES, MAX_SCRIPT_BYTES,
    MAX_SCRIPT_COMMANDS, MAX_TABLE_LINES, MAX_VALUES, MAX_WINDOW_LEVELS, MAX_WINDOW_POINTS,
    MAX_WINDOW_STEPS, MAX_WORD_BYTES, MIN_BUDGET,
};
pub use memory::Memory;
pub use memory_files::MemoryFiles;
pub use memory_sink::MemorySink;
pub use name::{Name, same_bytes};
pub use name_set::NameSet;
pub use number::{NetId, Value};
pub use outside::{Failed, Files, Sink};
pub use packed_set::{PackedSet, has_bit};
pub use pieces::put_both;
pub use value_set::{ValueSet, set_laws};
