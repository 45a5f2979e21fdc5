/// A variable to eliminate, and the place of the set that may give its value, if there is one.
#[derive(Clone, Copy, Debug)]
pub struct Inner {
    pub var: u32,
    pub given: Option<usize>,
}
