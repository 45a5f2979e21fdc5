ghost use Rattle.std.specs.Prelude.{◌≡◌, ◌==◌, ◌-◌, ◌≤◌, [], ◌++◌, None, Some, length, take, drop, min, map, not, is_ok, IfOk, IfSome, IfNone, OnOk, OnErr};
ghost use Rattle.std.specs.List.{list_any};
ghost use Rattle.mv_base.specs.Memory.{stored_of, is_listed, starts, after_fault, after_failed_start, after_start, after_next};
ghost use Rattle.mv_base.specs.Entries.{entry_of, IsFirstNamed};
ghost use Rattle.mv_base.specs.Outside.{HasCause, StillTell, Begins, Continues, counted, file_named};

use crate::{Failed, Files};
use std::marker::Model;

/// Files in memory that tell their contents, and fail at the calls that they are told.
#[derive(Drop)]
pub struct MemoryFiles {
    files: Vec<(String, Vec<u8>)>,
    fails: Vec<u64>,
    current: Option<usize>,
    at: usize,
    calls: u64,
    starts: u64,
    faults: u64,
}

impl Model for MemoryFiles {
    ghost use Rattle.std.specs.Prelude.{map};
    ghost use Rattle.mv_base.specs.Memory.{Kept};

    ghost Value = { Kept };

    ghost use Rattle.mv_base.specs.Entries.{entry_of, name_at, rest_at, IsPlace};

    ghost view = { λ k. record {
      files = map entry_of k.files.items;
      current = name_at (map entry_of k.files.items) k.current;
      rest = rest_at (map entry_of k.files.items) k.current k.at;
      fails = k.fails.items;
      calls = k.calls;
      starts = k.starts;
      faults = k.faults;
    } };

    ghost invariant = { λ k. IsPlace (map entry_of k.files.items) k.current k.at };
}

/// The place of the first file with this name.
fn place_of(files: &[(String, Vec<u8>)], name: &str) -> Option<usize>
    ensures none { IfNone result (file_named name.now (map entry_of files.now) ≡ None) }
    ensures some { IfSome result (IsFirstNamed name.now (map entry_of files.now)) }
{
    for place in 0..files.len() {
        if name == files[place].0.as_str() {
            return Some(place);
        }
    }
    None
}

/// Whether this call is listed.
fn is_listed(fails: &[u64], call: u64) -> bool
    ensures { result ≡ list_any (λ n. n == call) fails.now }
{
    fails.iter().any(|n| *n == call)
}

/// Puts what of the content stands from `at` on into the room, as far as it goes, and answers how many bytes.
fn give(content: &[u8], at: usize, room: &mut [u8]) -> usize
    requires { at ≤ length content.now }
    ensures count { result ≡ min (length room.old) (length content.now - at) }
    ensures room { room.new ≡ take result (drop at content.now) ++ drop result room.old }
{
    let count = room.len().min(content.len() - at);
    room[..count].copy_from_slice(&content[at..at + count]);
    count
}

impl MemoryFiles {
    /// These files by name, of which the first with a name counts. The calls of `start` and `next` are counted together
    /// from 0, those listed in `fails` fail, and the counter ends at its greatest number.
    pub fn new(files: Vec<(String, Vec<u8>)>, fails: Vec<u64>) -> MemoryFiles
        ensures { result
            ≡ record {
              files = map entry_of files.items;
              current = None;
              rest = [];
              fails = fails.items;
              calls = 0;
              starts = 0;
              faults = 0;
            } }
    {
        MemoryFiles {
            files,
            fails,
            current: None,
            at: 0,
            calls: 0,
            starts: 0,
            faults: 0,
        }
    }
}

impl Files for MemoryFiles {
    ghost use Rattle.mv_base.specs.Memory.{stored_of};

    ghost state = { λ k. stored_of k };

    fn start(&mut self, name: &str) -> Result<(), Failed>
        ensures begun { StillTell (stored_of self.old) (stored_of self.new)
            (λ old new. Begins old new name.now result) }
        ensures starts { self.new.starts ≡ counted self.old.starts }
        ensures cause { HasCause self.old.faults self.new.faults result }
        ensures answer { is_ok result ≡ starts self.old name.now }
        ensures ok { OnOk result (self.new ≡ after_start self.old name.now) }
        ensures err { OnErr result (self.new ≡ after_failed_start self.old) }
    {
        let listed = is_listed(self.fails.as_slice(), self.calls);
        self.calls = self.calls.saturating_add(1);
        self.starts = self.starts.saturating_add(1);
        if listed {
            self.faults = self.faults.saturating_add(1);
            return Err(Failed);
        }
        let Some(place) = place_of(self.files.as_slice(), name) else {
            self.faults = self.faults.saturating_add(1);
            return Err(Failed);
        };
        self.current = Some(place);
        self.at = 0;
        Ok(())
    }

    fn next(&mut self, room: &mut [u8]) -> Result<usize, Failed>
        ensures bound { IfOk result (λ n. n ≤ length room.new) }
        ensures given { StillTell (stored_of self.old) (stored_of self.new)
            (λ old new. Continues old new room.new result) }
        ensures starts { self.new.starts ≡ self.old.starts }
        ensures cause { HasCause self.old.faults self.new.faults result }
        ensures answer { is_ok result ≡ not (is_listed self.old) }
        ensures count { IfOk result (λ n. n ≡ min (length room.old) (length self.old.rest)) }
        ensures bytes { IfOk result (λ n. room.new ≡ take n self.old.rest ++ drop n room.old) }
        ensures ok { IfOk result (λ n. self.new ≡ after_next self.old n) }
        ensures err { OnErr result (self.new ≡ after_fault self.old) }
        ensures kept { OnErr result (room.new ≡ room.old) }
    {
        let listed = is_listed(self.fails.as_slice(), self.calls);
        self.calls = self.calls.saturating_add(1);
        if listed {
            self.faults = self.faults.saturating_add(1);
            return Err(Failed);
        }
        let Some(place) = self.current else {
            return Ok(0);
        };
        let count = give(self.files[place].1.as_slice(), self.at, room);
        self.at += count;
        Ok(count)
    }
}
