use crate::Inner;
use crate::giver::Giver;
use crate::put::put_given;
use crate::taker::Taker;
use mv_base::Memory;
use mv_cover::{Cube, Line};

/// A net's table put in for the net, line by line: the table, and the cubes outside all of its lines.
#[derive(Clone, Copy)]
pub struct Insertion<'a> {
    pub inner: &'a Inner,
    pub outside: &'a [Cube],
}

impl<'a> Giver for Insertion<'a> {
    ghost use Rattle.mv_composite.specs.Composite.{line_given};

    ghost gives = { λ insertion. line_given insertion.outside.now insertion.inner.now };

    fn give<T: Taker>(&self, line: &Line, taker: &mut T) -> Result<(), Memory> {
        put_given(taker, self.inner, self.outside, line)
    }
}
