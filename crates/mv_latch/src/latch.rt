use mv_base::Name;

/// When a latch takes its input, as BLIF has it: at a falling or a rising edge of its control, while the control is 1, while
/// it is 0, or at any time.
#[derive(Clone, Copy, Debug, PartialEq, Eq)]
pub enum LatchKind {
    Fe,
    Re,
    Ah,
    Al,
    As,
}

/// What is said of a latch besides its nets: when it takes its input, the input that controls it, and how it begins: at 0,
/// at 1, at any value (2), or not known (3).
#[derive(Drop)]
pub struct BlifLatch {
    pub kind: Option<LatchKind>,
    pub control: Option<Name>,
    pub init: u8,
}
