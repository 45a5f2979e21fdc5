//! The real outside: files by path, standard input, standard output and standard error. None of them tells its bytes.
ghost use Rattle.std.specs.Prelude.{◌≤◌, ◌≡◌, length, IfOk, None};
ghost use Rattle.mv_base.specs.Outside.{Rose};

use crate::{Failed, Files, Sink};
use std::io::Read;
use std::marker::Model;
use std::rt::Files as Disk;
use std::{fs, io};

/// Counts a fault.
fn counted(faults: &mut u64) -> Failed
    ensures rose { Rose faults.old faults.new }
    ensures later { faults.old ≤ faults.new }
{
    *faults = faults.saturating_add(1);
    Failed
}

/// How often a read or a write that a signal interrupted is made again, each time in a row.
const TRIES: usize = 1_000;

/// Whether a signal interrupted the call before anything was moved.
fn was_interrupted(answer: &io::Result<usize>) -> bool {
    match answer {
        Ok(_count) => false,
        Err(error) => error.kind() == io::ErrorKind::Interrupted,
    }
}

/// What is being read.
#[derive(Drop)]
enum Source<F, I> {
    Nothing,
    File(F),
    Input(I),
}

impl<F: Read + Drop, I: Read + Drop> Source<F, I> {
    /// The next bytes, none at the end.
    fn read(&mut self, room: &mut [u8]) -> io::Result<usize>
        ensures { IfOk result (λ n. n ≤ length room.new) }
    {
        for _try in 0..TRIES {
            let answer = self.read_once(room);
            if !was_interrupted(&answer) {
                return answer;
            }
        }
        self.read_once(room)
    }

    /// The same, unless a signal interrupts it.
    fn read_once(&mut self, room: &mut [u8]) -> io::Result<usize>
        ensures { IfOk result (λ n. n ≤ length room.new) }
    {
        match self {
            Source::Nothing => Ok(0),
            Source::File(file) => file.read(room),
            Source::Input(input) => input.read(room),
        }
    }

    /// Fills the room as far as there are bytes, and answers how many came.
    fn fill(&mut self, room: &mut [u8]) -> io::Result<usize>
        ensures { IfOk result (λ n. n ≤ length room.new) }
    {
        let mut filled = 0;
        while filled < room.len() {
            let count = self.read(&mut room[filled..])?;
            if count == 0 {
                return Ok(filled);
            }
            filled += count;
        }
        Ok(filled)
    }
}

/// Files by path, and standard input for the name `-`, seen by contracts as the counts of their starts and faults.
#[derive(Drop)]
pub struct HostFiles<R: Disk + Input> {
    rt: R,
    source: Source<R::File, R::Reader>,
    starts: u64,
    faults: u64,
}

impl<R: Disk + Input> Model for HostFiles<R> {
    ghost use Rattle.std.specs.Prelude.{None};
    ghost use Rattle.mv_base.specs.Outside.{Stored};

    ghost Value = { Stored };

    ghost view = { λ f. record { held = None; starts = f.starts; faults = f.faults } };
}

impl<R: Disk + Input> HostFiles<R> {
    /// The files that the runtime reaches.
    pub fn new(rt: R) -> Self
        ensures { result ≡ record { held = None; starts = 0; faults = 0 } }
    {
        HostFiles {
            rt,
            source: Source::Nothing,
            starts: 0,
            faults: 0,
        }
    }
}

impl<R: Disk + Input> Files for HostFiles<R> {
    ghost state = { λ f. f };

    fn start(&mut self, name: &str) -> Result<(), Failed> {
        self.starts = self.starts.saturating_add(1);
        if name == "-" {
            self.source = Source::Input(self.rt.reader());
            return Ok(());
        }
        let Ok(file) = fs::open(&self.rt, name) else {
            return Err(counted(&mut self.faults));
        };
        self.source = Source::File(file);
        Ok(())
    }

    fn next(&mut self, room: &mut [u8]) -> Result<usize, Failed> {
        let Ok(count) = self.source.fill(room) else {
            return Err(counted(&mut self.faults));
        };
        Ok(count)
    }
}

/// Writes some of the piece, and answers how many bytes.
fn write_some(out: &impl Print, piece: &[u8]) -> io::Result<usize>
    ensures { IfOk result (λ n. n ≤ length piece.now) }
{
    for _try in 0..TRIES {
        let answer = out.write_some(piece);
        if !was_interrupted(&answer) {
            return answer;
        }
    }
    out.write_some(piece)
}

/// Writes the whole piece, piece by piece. False where a write fails or takes nothing.
fn write_whole(out: &impl Print, piece: &[u8]) -> bool {
    let mut done = 0;
    while done < piece.len() {
        let Ok(count) = write_some(out, &piece[done..]) else {
            return false;
        };
        if count == 0 {
            return false;
        }
        done += count;
    }
    true
}

/// A stream of the process that takes each piece at once, seen by contracts as the count of its faults.
#[derive(Drop)]
pub struct HostSink<P: Print> {
    stream: P,
    faults: u64,
}

/// Standard output.
pub type HostOut<P> = HostSink<P>;

/// Standard error.
pub type HostErr<P> = HostSink<P>;

impl<P: Print> Model for HostSink<P> {
    ghost use Rattle.std.specs.Prelude.{ℕ};

    ghost Value = { ℕ };

    ghost view = { λ s. s.faults };
}

impl<P: Print> HostSink<P> {
    /// The sink over the handle of a stream.
    pub fn new(stream: P) -> Self
        ensures { result ≡ 0 }
    {
        HostSink { stream, faults: 0 }
    }
}

impl<P: Print> Sink for HostSink<P> {
    ghost use Rattle.std.specs.Prelude.{None};

    ghost state = { λ s. record { told = None; faults = s } };

    fn put(&mut self, piece: &[u8]) -> Result<(), Failed> {
        if write_whole(&self.stream, piece) {
            return Ok(());
        }
        Err(counted(&mut self.faults))
    }
}
