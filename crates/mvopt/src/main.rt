//! mvopt reads a network in BLIF-MV and a script, and writes a network that may take its place.
#![tactic(auto)]

use mv_base::{HostErr, HostFiles, HostOut, Memory, Sink};
use mv_run::run;
use std::process::ExitCode;
use std::{env, io};

/// The status where the words can't be made for want of memory.
const NO_MEMORY: u8 = 6;

/// The line that is noted then, as wherever memory is short.
const MEMORY_LINE: &[u8] = b"# fault memory\n";

/// The words behind the program's name, or none where they aren't text.
fn words_given(rt: &HostRuntime) -> Result<Vec<String>, Memory> {
    match env::args(rt) {
        Ok(args) => Ok(args.skip(1).collect(rt.alloc())?),
        Err(error) if error.kind() == io::ErrorKind::OutOfMemory => Err(Memory),
        Err(_error) => Ok(Vec::new(rt.alloc())),
    }
}

fn main(rt: HostRuntime) -> ExitCode {
    let mut notes = HostErr::new(rt.stderr());
    let words = match words_given(&rt) {
        Ok(words) => words,
        Err(_memory) => {
            let _put = notes.put(MEMORY_LINE);
            return ExitCode::from(NO_MEMORY);
        }
    };
    let mut files = HostFiles::new(rt);
    let mut out = HostOut::new(rt.stdout());
    let status = run(
        rt.alloc(),
        words.as_slice(),
        &mut files,
        &mut out,
        &mut notes,
    );
    ExitCode::from(status)
}
