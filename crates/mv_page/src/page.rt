ghost use Rattle.std.specs.Prelude.{◌≡◌, ◌≤◌, ◌++◌, [], length};
ghost use Rattle.mv_base.specs.Outside.{Appends};
ghost use Rattle.mv_page.specs.Page.{AddsPiece, paged};

use crate::held::{Held, PAGE_BYTES};
use mv_base::{Failed, Sink};
use std::marker::Model;

/// The bytes of a text that are to come behind those that its sink took. They are handed on in large pieces, the first
/// of which has at least `LEAST` bytes. It takes no memory.
#[derive(Drop)]
pub struct Page<const LEAST: usize> {
    held: Held,
    is_first: bool,
}

impl<const LEAST: usize> Model for Page<LEAST> {
    ghost use Rattle.std.specs.Prelude.{◌≤◌, ℕ, List, IsTrue, take};

    ghost Value = { List ℕ };

    ghost view = { λ p. take p.held.len p.held.bytes };

    ghost invariant = { λ p. IsTrue p.is_first → LEAST ≤ p.held.len };
}

impl<const LEAST: usize> Page<LEAST> {
    /// The page of a text that begins with these bytes, at least `LEAST`, which it holds.
    pub fn of(first: &[u8]) -> Page<LEAST>
        requires least { LEAST ≤ length first.now }
        requires room { length first.now ≤ PAGE_BYTES }
        ensures { result ≡ first.now }
    {
        let mut held = Held {
            bytes: [0; PAGE_BYTES],
            len: 0,
        };
        held.add(first);
        Page {
            held,
            is_first: true,
        }
    }

    /// Hands on the first piece of a text, which has at least `LEAST` bytes.
    fn put_first<K: Sink>(piece: &[u8], out: &mut K) -> Result<(), Failed>
        requires { LEAST ≤ length piece.now }
        ensures { Appends (K.state out.old) (K.state out.new) piece.now result }
    {
        out.put(piece)
    }

    /// Hands on what is held.
    pub fn hand_on<K: Sink>(&mut self, out: &mut K) -> Result<(), Failed>
        ensures appends { Appends (K.state out.old) (K.state out.new) self.old result }
        ensures empty { self.new ≡ [] }
    {
        let piece = &self.held.bytes[..self.held.len];
        let answer = if self.is_first {
            Self::put_first(piece, out)
        } else {
            out.put(piece)
        };
        self.is_first = false;
        self.held.len = 0;
        answer
    }

    /// Holds a piece behind nothing, or hands it on where it is larger than a page.
    #[tactic(auto, using(crate::proofs::Paging::paging))]
    fn put_alone<K: Sink>(&mut self, piece: &[u8], out: &mut K) -> Result<(), Failed>
        requires { self.old ≡ [] }
        ensures { AddsPiece (paged (K.state out.old) [])
            (paged (K.state out.new) self.new) piece.now result }
    {
        if piece.len() <= self.held.room() {
            self.held.add(piece);
            return Ok(());
        }
        out.put(piece)
    }

    /// Puts a piece behind what is held, and hands on what was held where there is no room. At Failed the sink took some
    /// first part of what was held and the piece, and nothing is held any more.
    #[tactic(auto, using(crate::proofs::Paging::paging))]
    pub fn put<K: Sink>(&mut self, piece: &[u8], out: &mut K) -> Result<(), Failed>
        ensures { AddsPiece (paged (K.state out.old) self.old)
            (paged (K.state out.new) self.new) piece.now result }
    {
        if piece.len() <= self.held.room() {
            self.held.add(piece);
            return Ok(());
        }
        match self.hand_on(out) {
            Ok(()) => {}
            Err(failed) => return Err(failed),
        }
        self.put_alone(piece, out)
    }

    /// Puts both pieces behind what is held.
    pub fn put_both<K: Sink>(
        &mut self,
        first: &[u8],
        second: &[u8],
        out: &mut K,
    ) -> Result<(), Failed>
        ensures { AddsPiece (paged (K.state out.old) self.old) (paged (K.state out.new) self.new)
            (first.now ++ second.now) result }
    {
        self.put(first, out)?;
        self.put(second, out)
    }
}
