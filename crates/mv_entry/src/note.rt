ghost use Rattle.std.specs.Prelude.{◌≡◌, IfOk};

use mv_base::{Memory, Name};

/// A command of a script. The numbers of `Simplify` are how many steps its window goes down and up.
#[derive(Drop)]
pub enum Command {
    Drop,
    Sweep,
    Eliminate,
    Collapse(Name),
    Kernel,
    Cube,
    Simplify(u8, u8),
    Merge,
    Default,
    Determinize,
    Encode,
    Fill,
}

/// Why a command leaves a net as it is.
#[derive(Clone, Copy, Debug, PartialEq, Eq)]
pub enum Why {
    /// The literals would rise from `before` to `after`.
    Literals { before: u128, after: u128 },
    /// A table would have too many lines or fanins.
    Lines,
    /// The nodes of diagrams are used up.
    Nodes,
    /// The window is too large.
    Window,
    /// The cover has too many kernels.
    Kernels,
    /// The net has several readers, and may have one of several values.
    Shared,
    /// The net is seen from outside.
    Seen,
    /// A table isn't total.
    Partial,
    /// There is no such net with a table.
    Absent,
    /// The table isn't plainly deterministic.
    Varied,
    /// The net isn't read.
    Unread,
    /// The numbers of nets are used up.
    Nets,
    /// The table isn't total, and may not be filled.
    Strict,
}

/// What a run says of its course, beside the rules.
#[derive(Drop)]
pub enum Note {
    /// A command begins.
    Begin(Command),
    /// A step at the named net is dropped.
    Dropped(Why, Name),
    /// A command ends with so many literals.
    End(u128),
    /// The run ends: the literals before it and after it.
    Done(u128, u128),
}

impl Command {
    /// An equal command.
    pub fn copy(&self) -> Result<Command, Memory>
        ensures { IfOk result (λ command. command ≡ self.now) }
    {
        match self {
            Command::Drop => Ok(Command::Drop),
            Command::Sweep => Ok(Command::Sweep),
            Command::Eliminate => Ok(Command::Eliminate),
            Command::Collapse(net) => Ok(Command::Collapse(net.copy()?)),
            Command::Kernel => Ok(Command::Kernel),
            Command::Cube => Ok(Command::Cube),
            Command::Simplify(down, up) => Ok(Command::Simplify(*down, *up)),
            Command::Merge => Ok(Command::Merge),
            Command::Default => Ok(Command::Default),
            Command::Determinize => Ok(Command::Determinize),
            Command::Encode => Ok(Command::Encode),
            Command::Fill => Ok(Command::Fill),
        }
    }
}

impl Note {
    /// An equal note.
    pub fn copy(&self) -> Result<Note, Memory>
        ensures { IfOk result (λ note. note ≡ self.now) }
    {
        match self {
            Note::Begin(command) => Ok(Note::Begin(command.copy()?)),
            Note::Dropped(why, net) => Ok(Note::Dropped(*why, net.copy()?)),
            Note::End(literals) => Ok(Note::End(*literals)),
            Note::Done(before, after) => Ok(Note::Done(*before, *after)),
        }
    }
}
