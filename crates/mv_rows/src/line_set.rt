ghost use Rattle.std.specs.Prelude.{◌≡◌, ◌∷◌, [], OnOk, IfErr};
ghost use Rattle.mv_cover.specs.Absorb.{firsts};
ghost use Rattle.mv_rows.specs.Once.{IsRoom, Puts, StopsPut};

use crate::stop::RowStop;
use indexmap::IndexSet;
use mv_cover::Line;
use std::alloc::Global;

/// Lines of which none is equal to an earlier one, and for how many more that have an output there is room.
#[derive(Drop)]
pub struct LineSet {
    pub lines: IndexSet<Line>,
    pub room: usize,
}

impl LineSet {
    /// No lines, with room for so many that have an output.
    pub fn new(alloc: Global, most: usize) -> LineSet
        ensures { IsRoom most result }
    {
        LineSet {
            lines: IndexSet::new(alloc),
            room: most,
        }
    }

    /// Adds those of the lines that are new.
    pub fn put_all(&mut self, lines: Vec<Line>) -> Result<(), RowStop>
        ensures ok { OnOk result (Puts lines.items self.old self.new) }
        ensures stop { IfErr result (λ stop. StopsPut lines.items self.old stop) }
    {
        for line in lines {
            match self.put(line) {
                Ok(()) => {}
                Err(stop) => return Err(stop),
            }
        }
        Ok(())
    }

    /// Adds the line, if it is new.
    pub fn put(&mut self, line: Line) -> Result<(), RowStop>
        ensures ok { OnOk result (Puts (line ∷ []) self.old self.new) }
        ensures stop { IfErr result (λ stop. StopsPut (line ∷ []) self.old stop) }
    {
        let is_silent = line.out.is_empty();
        let is_new = match self.lines.insert(line) {
            Ok(is_new) => is_new,
            Err(_refused) => return Err(RowStop::Memory),
        };
        if is_silent || !is_new {
            return Ok(());
        }
        if self.room == 0 {
            return Err(RowStop::Many);
        }
        self.room -= 1;
        Ok(())
    }
}
