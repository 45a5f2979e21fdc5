use mv_trace::Values;

/// Values of the inputs and of the outputs of the latches, each in the order of the interface.
#[derive(Debug, Drop)]
pub struct Point {
    pub inputs: Values,
    pub latches: Values,
}

/// Values of the outputs, of the inputs of the latches, and of their resets, each in the order of the interface. A latch
/// without a reset table has the reset value 0.
#[derive(Debug, Drop)]
pub struct Choice {
    pub outputs: Values,
    pub next: Values,
    pub resets: Values,
}

/// Whether a network refines another one.
#[derive(Debug, Drop)]
pub enum Answer {
    /// It does.
    Yes,
    /// They look different from outside.
    Interface,
    /// At this point it allows this choice, and the other one doesn't.
    Extra(Point, Choice),
    /// At this point it allows nothing, and the other one allows something.
    Lost(Point),
}
