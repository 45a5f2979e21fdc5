/// An instance of a design: the place of its model among the design's, the number of the instance round it, and the place of
/// the command that makes it among those of that instance's model. The root of a design has the number 0, and the instance at
/// place k of a walk's list the number k + 1.
#[derive(Clone, Copy, Debug, PartialEq, Eq)]
pub struct Opened {
    pub model: usize,
    pub round: u32,
    pub instance: u32,
}
