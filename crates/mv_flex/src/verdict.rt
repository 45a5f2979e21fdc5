/// What becomes of a net whose table gives way to a new cover.
#[derive(Clone, Copy, Debug, PartialEq, Eq)]
pub enum Verdict {
    /// The new cover allows a pair outside the flexibility.
    Outside,
    /// The new cover allows nothing where the old table allows something.
    Lost,
    /// Neither.
    Lawful,
}
