//! The limits of the program. The grammar of the files has none: what passes a limit is refused by name.

/// Bytes of a network file.
pub const MAX_NETWORK_BYTES: u64 = 16_777_216;
/// Bytes of a script.
pub const MAX_SCRIPT_BYTES: u64 = 65_536;
/// Commands of a script, with its repetitions unfolded.
pub const MAX_SCRIPT_COMMANDS: u64 = 10_000;
/// Bytes of a word that isn't bracketed.
pub const MAX_WORD_BYTES: u64 = 1_024;
/// Bytes of a bracketed word, its blanks left out.
pub const MAX_BRACKETED_BYTES: u64 = 1_100_000;
/// Values of a net.
pub const MAX_VALUES: u16 = 1_024;
/// Columns of a table.
pub const MAX_COLUMNS: u64 = 256;
/// Rows of a table.
pub const MAX_TABLE_LINES: u64 = 65_536;
/// Nets of an unfolded network, with those that are made for it.
pub const MAX_FLAT_NETS: u64 = 200_000;
/// Net numbers ever used in one run.
pub const MAX_NETS: u64 = 16_000_000;
/// Kernels of a cover.
pub const MAX_KERNELS: u64 = 4_096;
/// Cubes of a complement.
pub const MAX_COMPLEMENT_CUBES: u64 = 4_096;
/// Bytes of a certificate.
pub const MAX_CERTIFICATE_BYTES: u64 = 67_108_864;
/// Braces of a script that are open at one place.
pub const MAX_SCRIPT_BRACES: u64 = 32;
/// Models of a network file.
pub const MAX_MODELS: u64 = 4_096;
/// Depth of instances within instances.
pub const MAX_DEPTH: u64 = 64;
/// Instances that are unfolded.
pub const MAX_INSTANCES: u64 = 100_000;
/// Bytes of the name of a net of an unfolded network.
pub const MAX_FLAT_NAME_BYTES: u64 = 1_000;
/// Lines of all tables of an unfolded network.
pub const MAX_FLAT_LINES: u64 = 1_000_000;
/// Literals of all tables of an unfolded network.
pub const MAX_FLAT_LITERALS: u64 = 8_000_000;
/// Lines of a table that a rule composes or encodes.
pub const MAX_COMPOSED_LINES: u64 = 4_096;
/// Fanins of a table that a rule composes or encodes.
pub const MAX_FANINS: u64 = 255;
/// Distinct rows of outputs of a table with several.
pub const MAX_JOINT_ROWS: u64 = 1_024;

// The limits of parts that aren't built yet: no command asks them in this version.

/// Bits of the nets that take the place of one whose values are encoded.
pub const MAX_CODE_BITS: u64 = 10;
/// Steps from a net to the tables of its window, below and above.
pub const MAX_WINDOW_STEPS: u64 = 8;
/// Points of a window that is decided point by point.
pub const MAX_WINDOW_POINTS: u64 = 4_096;
/// Levels of a window that is decided by diagrams: the sum over its nets of the values less one.
pub const MAX_WINDOW_LEVELS: u64 = 2_048;
/// The least budget of diagram nodes.
pub const MIN_BUDGET: u64 = 1_000;
/// The greatest budget of diagram nodes.
pub const MAX_BUDGET: u64 = 4_000_000;
/// The budget of diagram nodes where none is given.
pub const DEFAULT_BUDGET: u64 = 200_000;
