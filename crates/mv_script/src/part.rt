use mv_entry::Command;

/// What runs its inside more than once.
#[derive(Clone, Copy, Debug, PartialEq, Eq)]
pub enum Braces {
    /// So many runs.
    Repeat(u16),
    /// Runs while the literals fall.
    Better,
}

/// What a part of a script is.
#[derive(Drop)]
pub enum PartKind {
    /// A command.
    Do(Command),
    /// How an item with braces begins, up to its `{`.
    Open(Braces),
    /// The `}` that ends such an item.
    Close,
}

/// A part of a script, and the place of its first byte.
#[derive(Drop)]
pub struct Part {
    pub place: u64,
    pub kind: PartKind,
}
