//! A run over files and sinks in memory, and how it has to end.
use mv_base::{MemoryFiles, MemorySink};
use mv_run::run;
use std::alloc::Global;
use std::process::Abort;
use std::test::Fail;

/// More than any text written here has.
pub const ROOM: usize = 65_536;

/// The call that fails.
#[derive(Clone, Copy)]
pub enum Fault {
    Never,
    /// The call of the files with this number.
    Files(u64),
    /// The put to the output with this number, of which so many bytes are taken.
    Out(u64, usize),
    /// The same of the notes.
    Notes(u64, usize),
}

impl Fault {
    /// The calls of the files that fail.
    fn of_files(self, alloc: Global) -> Result<Vec<u64>, Fail> {
        let mut fails = Vec::new(alloc);
        if let Fault::Files(call) = self {
            fails.push(call)?;
        }
        Ok(fails)
    }

    /// The puts to the output that fail.
    fn of_out(self, alloc: Global) -> Result<Vec<(u64, usize)>, Fail> {
        let mut fails = Vec::new(alloc);
        if let Fault::Out(call, taken) = self {
            fails.push((call, taken))?;
        }
        Ok(fails)
    }

    /// The puts to the notes that fail.
    fn of_notes(self, alloc: Global) -> Result<Vec<(u64, usize)>, Fail> {
        let mut fails = Vec::new(alloc);
        if let Fault::Notes(call, taken) = self {
            fails.push((call, taken))?;
        }
        Ok(fails)
    }
}

/// What a run is given: its words, and an option behind them unless it is empty, the network in the file `n`, the script or the certificate in the
/// file `s`, or the run file there, and the call that fails.
#[derive(Clone, Copy)]
pub struct Given<'a> {
    pub words: &'a str,
    pub option: &'a str,
    pub net: &'a [u8],
    pub script: &'a [u8],
    pub fault: Fault,
}

impl<'a> Given<'a> {
    /// The same run with this fault.
    pub fn failing(self, fault: Fault) -> Given<'a> {
        Given { fault, ..self }
    }
}

/// What a sink has to have: a text, some first part of it, or such a part that isn't all of it; or whatever it has.
#[derive(Clone, Copy)]
pub enum Text<'a> {
    Any,
    Whole(&'a [u8]),
    Front(&'a [u8]),
    Part(&'a [u8]),
}

/// How a run has to end.
#[derive(Clone, Copy)]
pub struct End<'a> {
    pub status: u8,
    pub out: Text<'a>,
    pub notes: Text<'a>,
}

/// What a run left.
#[derive(Drop)]
pub struct Ended {
    pub status: u8,
    pub out: MemorySink,
    pub notes: MemorySink,
}

/// A run of the script on the network, in which no call fails.
pub fn opt<'a>(net: &'a [u8], script: &'a [u8]) -> Given<'a> {
    Given {
        words: "opt n s",
        option: "",
        net,
        script,
        fault: Fault::Never,
    }
}

/// A check of the certificate on the network, in which no call fails.
pub fn checked<'a>(net: &'a [u8], certificate: &'a [u8]) -> Given<'a> {
    Given {
        words: "check n s",
        ..opt(net, certificate)
    }
}

/// The question whether the network allows the run, in which no call fails.
pub fn traced<'a>(net: &'a [u8], run: &'a [u8]) -> Given<'a> {
    Given {
        words: "trace n s",
        ..opt(net, run)
    }
}

/// The answer is this one, yes or no, and the notes have nothing.
pub fn answered(out: &[u8]) -> End<'_> {
    let status = if out.starts_with(b"yes") { 0 } else { 9 };
    End {
        status,
        ..written(out, b"")
    }
}

/// The work is done, with this output and these notes.
pub fn written<'a>(out: &'a [u8], notes: &'a [u8]) -> End<'a> {
    End {
        status: 0,
        out: Text::Whole(out),
        notes: Text::Whole(notes),
    }
}

/// The work is done, with these notes.
pub fn noted<'a>(notes: &'a [u8]) -> End<'a> {
    End {
        out: Text::Any,
        ..written(b"", notes)
    }
}

/// The run is refused with this status and this line, and nothing is written.
pub fn refused(status: u8, line: &[u8]) -> End<'_> {
    End {
        status,
        out: Text::Whole(b""),
        notes: Text::Whole(line),
    }
}

/// The bytes, if they are what the sink has to have, and else the text.
fn wanted<'a>(text: Text<'a>, bytes: &'a [u8]) -> &'a [u8] {
    match text {
        Text::Any => bytes,
        Text::Whole(text) => text,
        Text::Front(text) if text.starts_with(bytes) => bytes,
        Text::Front(text) => text,
        Text::Part(text) if text.starts_with(bytes) && bytes.len() < text.len() => bytes,
        Text::Part(text) => text,
    }
}

/// The words, parted by blanks.
pub fn words_of(alloc: Global, text: &str) -> Result<Vec<String>, Fail> {
    let mut words = Vec::new(alloc);
    for word in text.split_whitespace() {
        words.push(String::from_str(alloc, word)?)?;
    }
    Ok(words)
}

/// The words of a run, with the option behind them if there is one.
fn all_words(alloc: Global, given: Given) -> Result<Vec<String>, Fail> {
    let mut words = words_of(alloc, given.words)?;
    if !given.option.is_empty() {
        words.push(String::from_str(alloc, given.option)?)?;
    }
    Ok(words)
}

/// Adds a file with this name and content.
fn add_file(
    alloc: Global,
    files: &mut Vec<(String, Vec<u8>)>,
    name: &str,
    content: &[u8],
) -> Result<(), Fail> {
    let name = String::from_str(alloc, name)?;
    files.push((name, Vec::from_slice(alloc, content)?))?;
    Ok(())
}

/// The files `n`, the network, and `s`, the script or the certificate.
fn files_of(alloc: Global, given: Given) -> Result<MemoryFiles, Fail> {
    let mut files = Vec::new(alloc);
    add_file(alloc, &mut files, "n", given.net)?;
    add_file(alloc, &mut files, "s", given.script)?;
    Ok(MemoryFiles::new(files, given.fault.of_files(alloc)?))
}

/// The run.
pub fn run_on(alloc: Global, given: Given) -> Result<Ended, Fail> {
    let words = all_words(alloc, given)?;
    let mut files = files_of(alloc, given)?;
    let mut out = MemorySink::new(alloc, ROOM, given.fault.of_out(alloc)?)?;
    let mut notes = MemorySink::new(alloc, ROOM, given.fault.of_notes(alloc)?)?;
    let status = run(alloc, words.as_slice(), &mut files, &mut out, &mut notes);
    Ok(Ended { status, out, notes })
}

/// The run ends so.
pub fn ends(rt: &impl Abort, alloc: Global, given: Given, end: End) -> Result<(), Fail> {
    let ended = run_on(alloc, given)?;
    check(rt, given, &ended, end);
    Ok(())
}

/// What the run left is what it has to leave.
fn check(rt: &impl Abort, given: Given, ended: &Ended, end: End) {
    let (words, script, net) = (given.words, given.script, given.net);
    let (out, notes) = (ended.out.bytes(), ended.notes.bytes());
    assert_eq!(rt; ended.status, end.status, "{words}: {script:?} on {net:?}");
    assert_eq!(rt; out, wanted(end.out, out), "{words}: {script:?} on {net:?}");
    assert_eq!(rt;
        notes,
        wanted(end.notes, notes),
        "{words}: {script:?} on {net:?}"
    );
}

/// So many times the same piece.
pub fn repeated(alloc: Global, piece: &[u8], times: usize) -> Result<Vec<u8>, Fail> {
    let mut text = Vec::new(alloc);
    for _time in 0..times {
        text.extend_from_slice(piece)?;
    }
    Ok(text)
}
