ghost use Rattle.std.specs.Prelude.{◌≡◌, ◌≤◌, length, IfOk};

/// The one way in which the outside fails. What it was is not told.
#[derive(Clone, Copy, Debug, PartialEq, Eq)]
pub struct Failed;

/// Files by name, of which one at a time is read from its first byte on.
pub trait Files {
    ghost use Rattle.mv_base.specs.Outside.{Stored, HasCause, Begins, Continues, StillTell, counted};

    /// What the object tells of itself, if it does, and its counts of starts and of faults.
    ghost state: { Self → Stored };

    /// Begins the named file at its first byte. A missing file is a fault.
    fn start(&mut self, name: &str) -> Result<(), Failed>
        ensures begun { StillTell (state self.old) (state self.new)
            (λ old new. Begins old new name.now result) }
        ensures starts { (state self.new).starts ≡ counted (state self.old).starts }
        ensures cause { HasCause (state self.old).faults (state self.new).faults result };

    /// Puts the next bytes into `room` and answers how many. Zero, for room that isn't empty, is the end of the file.
    fn next(&mut self, room: &mut [u8]) -> Result<usize, Failed>
        ensures bound { IfOk result (λ n. n ≤ length room.new) }
        ensures given { StillTell (state self.old) (state self.new)
            (λ old new. Continues old new room.new result) }
        ensures starts { (state self.new).starts ≡ (state self.old).starts }
        ensures cause { HasCause (state self.old).faults (state self.new).faults result };
}

/// A place that takes bytes in order.
pub trait Sink {
    ghost use Rattle.mv_base.specs.Outside.{Written, Appends};

    /// The bytes taken so far, if the object tells them, and its count of faults.
    ghost state: { Self → Written };

    /// Takes the whole piece, or fails and takes some first part of it.
    fn put(&mut self, piece: &[u8]) -> Result<(), Failed>
        ensures { Appends (state self.old) (state self.new) piece.now result };
}
