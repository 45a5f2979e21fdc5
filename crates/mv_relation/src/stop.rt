use mv_diagram::Nodes;

/// Why a relation isn't there.
#[derive(Clone, Copy, Debug, PartialEq, Eq)]
pub enum RelationStop {
    /// The pool of nodes is full.
    Nodes(Nodes),
    /// Want of memory.
    Memory,
}
