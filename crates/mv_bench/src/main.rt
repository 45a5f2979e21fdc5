//! mv_bench runs single calls on drawn input, so that their time can be taken alone.
//!
//! Its words come by threes, a task, a size and a seed, and each task prints one line: `mv_bench covers 500 1 absorb
//! 4000 1`. The one word `lex` cuts standard input into lines of words, and prints how many there are; the one word `parse`
//! reads it as a network file, and prints how many models, tables and rows its design has. The words `rules KIND COUNT`
//! read it as a network, apply so many rules of a kind, and print how many were applied, the literals that are left, and the
//! time that the rules took. The words `flex D U TIMES` read it as a network, work out the flexibility of each net with a table in the
//! window of so many steps down and up, so many times, and print how many were found, how many windows were too wide, and the time.
#![tactic(auto)]

mod draw;
mod flexing;
mod lexing;
mod meets;
mod pairs;
mod parsing;
mod ruling;
mod stop;
mod symbols;
mod task;
mod tasks;

use std::env;
use std::process::ExitCode;
use stop::Stop;
use task::Task;

/// Does the tasks that the words name, in order, and prints what each found.
fn run(rt: &HostRuntime) -> Result<(), Stop> {
    let words: Vec<String> = env::args(rt)?.skip(1).collect(rt.alloc())?;
    if matches!(words.as_slice(), [word] if word.as_str() == "lex") {
        println!(rt; "lex {}", lexing::lexed(rt)?)?;
        return Ok(());
    }
    if matches!(words.as_slice(), [word] if word.as_str() == "parse") {
        println!(rt; "parse {}", parsing::parsed(rt)?)?;
        return Ok(());
    }
    if let [word, kind, count] = words.as_slice() {
        if word.as_str() == "rules" {
            let applied = ruling::ruled(rt, kind.as_str(), count.as_str())?;
            println!(rt; "rules {kind} {applied}")?;
            return Ok(());
        }
    }
    if let [word, down, up, times] = words.as_slice() {
        if word.as_str() == "flex" {
            let found = flexing::flex_input(rt, down.as_str(), up.as_str(), times.as_str())?;
            println!(rt; "flex {down} {up} {found}")?;
            return Ok(());
        }
    }
    for three in words.as_slice().chunks(3) {
        let task = Task::parse(three)?;
        let found = task.run(rt.alloc())?;
        println!(rt; "{task} {found}")?;
    }
    Ok(())
}

fn main(rt: HostRuntime) -> ExitCode {
    match run(&rt) {
        Ok(()) => ExitCode::SUCCESS,
        Err(stop) => {
            let _ = eprintln!(rt; "mv_bench: {stop}");
            ExitCode::FAILURE
        }
    }
}
