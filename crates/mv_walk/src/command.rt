use mv_base::Name;
use mv_design::{Bind, Instance};

/// Why the bindings of a command don't fit its model, without where the instance stands.
#[derive(Clone, Copy)]
pub enum PortFault<'a> {
    /// What is bound is no formal.
    NoFormal(&'a Bind),
    /// The two nets haven't as many values.
    PortValues(&'a Bind),
    /// The input isn't bound.
    PortOpen(&'a Name),
}

/// What the model of a command is: its place among the design's, and the first fault of the bindings.
#[derive(Clone, Copy)]
pub struct Found<'a> {
    pub place: usize,
    pub fault: Option<PortFault<'a>>,
}

/// A command with its model, if there is one of that name.
#[derive(Clone, Copy)]
pub struct Command<'a> {
    pub instance: &'a Instance,
    pub found: Option<Found<'a>>,
}
