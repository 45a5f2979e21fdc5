use mv_entry::Command;

/// A script: its first item, and the script behind it.
pub enum Script {
    /// No item.
    End,
    /// A command.
    Do(Command, Box<Script>),
    /// `repeat K { .. }`: so many runs of what stands inside, from 1 to 1,000.
    Repeat(u16, Box<Script>, Box<Script>),
    /// `better { .. }`: runs of what stands inside, while the literals fall.
    Better(Box<Script>, Box<Script>),
}

/// A loop along the items: only braces within braces take stack.
impl Drop for Script {
    fn drop(mut self) {
        loop {
            match self {
                Script::End => return,
                Script::Do(_, rest) => self = Box::into_inner(rest),
                Script::Repeat(_, _, rest) => self = Box::into_inner(rest),
                Script::Better(_, rest) => self = Box::into_inner(rest),
            }
        }
    }
}
