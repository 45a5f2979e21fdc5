ghost use Rattle.std.specs.Prelude.{OnOk};
ghost use Rattle.mv_codes.specs.Tables.{line_coded};
ghost use Rattle.mv_codes.specs.Rewriting.{IsCoding};

use crate::Coding;
use crate::cubes::set_cubes;
use mv_base::Memory;
use mv_composite::{Giver, Taker, literal_on, put_all, without};
use mv_cover::Line;

/// What makes of a reader's line what it becomes by the coding.
#[derive(Drop)]
pub struct LineCoder<'a> {
    pub coding: &'a Coding,
    ghost formed: { IsCoding coding.now },
}

impl<'a> Giver for LineCoder<'a> {
    ghost use Rattle.mv_codes.specs.Tables.{line_coded};

    ghost gives = { λ coder. line_coded coder.coding.now };

    fn give<T: Taker>(&self, line: &Line, taker: &mut T) -> Result<(), Memory> {
        put_coded(taker, self.coding, line)
    }
}

/// Puts what the reader's line becomes to the taker.
fn put_coded<T: Taker>(taker: &mut T, coding: &Coding, line: &Line) -> Result<(), Memory>
    requires { IsCoding coding.now }
    ensures { OnOk result (T.takes taker.old taker.new (line_coded coding.now line.now)) }
{
    let Some(set) = literal_on(line.cube.lits(), coding.net) else {
        taker.take(line.copy()?)?;
        return Ok(());
    };
    let rest = without(&line.cube, coding.net)?;
    let cubes = set_cubes(line.cube.allocator(), coding, set)?;
    put_all(taker, &rest, cubes.as_slice(), &line.out)?;
    Ok(())
}
