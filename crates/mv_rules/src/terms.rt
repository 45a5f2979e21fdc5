/// On what terms rules are applied.
#[derive(Clone, Copy, Debug)]
pub struct Terms {
    /// Whether values under which the network allows nothing may be given any meaning.
    pub free: bool,
    /// How many nodes of diagrams may be made.
    pub budget: u32,
}
