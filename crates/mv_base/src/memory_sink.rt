ghost use Rattle.std.specs.Prelude.{◌≡◌, [], length, is_ok, IfOk};
ghost use Rattle.mv_base.specs.Memory.{written_of, allowed_at, takes_all, after_put};
ghost use Rattle.mv_base.specs.Outside.{Appends};

use crate::{Failed, Memory, Sink};
use std::alloc::Global;
use std::marker::Model;

/// A sink in memory that tells its bytes, with a bounded room, which fails at the puts that it is told.
#[derive(Drop)]
pub struct MemorySink {
    bytes: Vec<u8>,
    room: usize,
    fails: Vec<(u64, usize)>,
    calls: u64,
    faults: u64,
}

impl Model for MemorySink {
    ghost use Rattle.std.specs.Prelude.{◌≤◌, vec_len, vec_capacity};
    ghost use Rattle.mv_base.specs.Memory.{Taken};

    ghost Value = { Taken };

    ghost view = { λ s. record { bytes = s.bytes.items; room = s.room; fails = s.fails.items; calls = s.calls; faults = s.faults } };

    ghost invariant = { λ s. (vec_len s.bytes ≤ s.room) × (s.room ≤ vec_capacity s.bytes) };
}

/// What the first entry for this call allows, if there is one.
fn allowed_at(fails: &[(u64, usize)], call: u64) -> Option<usize>
    ensures { result ≡ allowed_at fails.now call }
{
    for at in fails {
        if at.0 == call {
            return Some(at.1);
        }
    }
    None
}

impl MemorySink {
    /// An empty sink that takes `room` bytes in all. The put with the number `n`, counted from 0, takes at most `k` bytes
    /// and fails, where `(n, k)` is the first entry of `fails` for it. The counter of puts ends at its greatest number.
    pub fn new(alloc: Global, room: usize, fails: Vec<(u64, usize)>) -> Result<MemorySink, Memory>
        ensures { IfOk result
            (λ s. s ≡ record {
              bytes = [];
              room = room;
              fails = fails.items;
              calls = 0;
              faults = 0;
            }) }
    {
        let bytes = Vec::with_capacity(alloc, room)?;
        Ok(MemorySink {
            bytes,
            room,
            fails,
            calls: 0,
            faults: 0,
        })
    }

    /// The bytes taken so far.
    pub fn bytes(&self) -> &[u8]
        ensures { result.now ≡ self.now.bytes }
    {
        self.bytes.as_slice()
    }
}

impl Sink for MemorySink {
    ghost use Rattle.mv_base.specs.Memory.{written_of};

    ghost state = { λ s. written_of s };

    fn put(&mut self, piece: &[u8]) -> Result<(), Failed>
        ensures appends { Appends (written_of self.old) (written_of self.new) piece.now result }
        ensures answer { is_ok result ≡ takes_all self.old (length piece.now) }
        ensures after { self.new ≡ after_put self.old piece.now }
    {
        let fitting = piece.len().min(self.room - self.bytes.len());
        let allowed = allowed_at(self.fails.as_slice(), self.calls);
        let count = fitting.min(allowed.unwrap_or(piece.len()));
        self.calls = self.calls.saturating_add(1);
        self.bytes.extend_from_slice(&piece[..count]).unwrap();
        if allowed.is_none() && fitting == piece.len() {
            return Ok(());
        }
        self.faults = self.faults.saturating_add(1);
        Err(Failed)
    }
}
