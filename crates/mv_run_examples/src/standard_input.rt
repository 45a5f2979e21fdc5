//! Standard input as one of the two files, by the name `-`.
use crate::networks::{KEPT, NOTED, UNREAD};
use crate::runs::{ROOM, words_of};
use mv_base::{MemoryFiles, MemorySink};
use mv_run::run;
use std::alloc::Global;
use std::process::Abort;
use std::test::Fail;

/// What a run is given: its words, and two files, each with its name and its content.
#[derive(Clone, Copy)]
struct Named<'a> {
    words: &'a str,
    first: (&'a str, &'a [u8]),
    second: (&'a str, &'a [u8]),
}

/// The files.
fn files_named(alloc: Global, given: Named) -> Result<MemoryFiles, Fail> {
    let mut files = Vec::new(alloc);
    for (name, content) in [given.first, given.second] {
        files.push((
            String::from_str(alloc, name)?,
            Vec::from_slice(alloc, content)?,
        ))?;
    }
    Ok(MemoryFiles::new(files, Vec::new(alloc)))
}

/// The run leaves the network without the net that nobody reads, and these notes.
fn drops(rt: &impl Abort, alloc: Global, given: Named, told: &[u8]) -> Result<(), Fail> {
    let words = words_of(alloc, given.words)?;
    let mut files = files_named(alloc, given)?;
    let mut out = MemorySink::new(alloc, ROOM, Vec::new(alloc))?;
    let mut notes = MemorySink::new(alloc, ROOM, Vec::new(alloc))?;
    let status = run(alloc, words.as_slice(), &mut files, &mut out, &mut notes);
    assert_eq!(rt; status, 0, "{}", given.words);
    assert_eq!(rt; out.bytes(), KEPT, "{}", given.words);
    assert_eq!(rt; notes.bytes(), told, "{}", given.words);
    Ok(())
}

#[test]
fn a_script_runs_on_standard_input(rt: HostRuntime) -> Result<(), Fail> {
    let given = Named {
        words: "opt - s",
        first: ("-", UNREAD),
        second: ("s", b"drop".as_slice()),
    };
    drops(&rt, rt.alloc(), given, NOTED)
}

#[test]
fn a_certificate_is_standard_input(rt: HostRuntime) -> Result<(), Fail> {
    let given = Named {
        words: "check n -",
        first: ("n", UNREAD),
        second: ("-", NOTED),
    };
    drops(&rt, rt.alloc(), given, b"# done 4 2\n")
}
