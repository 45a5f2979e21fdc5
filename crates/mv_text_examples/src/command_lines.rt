//! The words of command lines, and what they ask for.
use mv_command_line::{Options, Task, WordsStop, read_words};
use std::alloc::Global;
use std::process::Abort;
use std::test::Fail;

/// The words, parted by `|`.
fn words_of(alloc: Global, line: &str) -> Result<Vec<String>, Fail> {
    let mut words = Vec::new(alloc);
    for word in line.split('|') {
        words.push(String::from_str(alloc, word)?)?;
    }
    Ok(words)
}

/// Each line asks for its task.
fn are_asked(rt: &impl Abort, alloc: Global, lines: &[(&str, Task<'_>)]) -> Result<(), Fail> {
    for (line, task) in lines {
        let words = words_of(alloc, line)?;
        assert!(rt; read_words(alloc, words.as_slice()) == Ok(*task), "{line}");
    }
    Ok(())
}

/// Each line is refused.
fn are_refused(rt: &impl Abort, alloc: Global, lines: &str) -> Result<(), Fail> {
    for line in lines.split('\n') {
        let words = words_of(alloc, line)?;
        assert!(rt;
            read_words(alloc, words.as_slice()) == Err(WordsStop::Refused),
            "{line}"
        );
    }
    Ok(())
}

fn opt(net: &'static str, script: &'static str, free: bool, budget: u32) -> Task<'static> {
    Task::Opt {
        net,
        script,
        blif: false,
        options: Options { free, budget },
    }
}

/// The budget where none is given.
const USUAL: u32 = 200_000;

#[test]
fn tasks_are_asked_for(rt: HostRuntime) -> Result<(), Fail> {
    let check = Task::Check {
        net: "-",
        certificate: "c",
        blif: false,
        options: Options {
            free: true,
            budget: 4_000_000,
        },
    };
    let work = Task::Work {
        size: 20_000,
        seed: 18_446_744_073_709_551_615,
        script: "-",
        options: Options {
            free: false,
            budget: 1_000,
        },
    };
    let lines = [
        ("opt|n|s", opt("n", "s", false, USUAL)),
        ("opt||s", opt("", "s", false, USUAL)),
        ("opt|--budget|1000|n|s", opt("n", "s", false, 1_000)),
        ("opt|n|--budget=0001000|s", opt("n", "s", false, 1_000)),
        ("opt|n|s|--", opt("n", "s", false, USUAL)),
        (
            "opt|n|--|--budget=1000",
            opt("n", "--budget=1000", false, USUAL),
        ),
        ("opt|--|--|-x", opt("--", "-x", false, USUAL)),
        ("opt|n|-", opt("n", "-", false, USUAL)),
        ("opt|--free|n|s", opt("n", "s", true, USUAL)),
        ("opt|n|--budget|1000|--free|s", opt("n", "s", true, 1_000)),
        ("opt|n|s|--free|--", opt("n", "s", true, USUAL)),
        ("opt|n|--|--free", opt("n", "--free", false, USUAL)),
        ("opt|n|--free|--|--free", opt("n", "--free", true, USUAL)),
        ("check|-|c|--budget|4000000|--free", check),
        ("work|20000|18446744073709551615|-|--budget=1000", work),
    ];
    are_asked(&rt, rt.alloc(), lines.as_slice())
}

#[test]
fn network_files_are_blif(rt: HostRuntime) -> Result<(), Fail> {
    let options = Options {
        free: false,
        budget: USUAL,
    };
    let opt_blif = Task::Opt {
        net: "a",
        script: "b",
        blif: true,
        options,
    };
    let check_blif = Task::Check {
        net: "a",
        certificate: "b",
        blif: true,
        options,
    };
    let lines = [
        ("opt|--blif|a|b", opt_blif),
        ("opt|a|--|--blif", opt("a", "--blif", false, USUAL)),
        ("check|a|b|--blif", check_blif),
    ];
    are_asked(&rt, rt.alloc(), lines.as_slice())
}

/// Words that ask for nothing, a line each, parted by `|`. The first is one empty word.
const REFUSED: &str = "
opt
opt|n
opt|n|s|x
help
Opt|n|s
opt|-|-
check|-|--|-
--|opt|n|s
opt|n|s|-x
opt|n|s|--help
opt|n|s|-h
opt|n|s|--budgets=1000
opt|n|s|--budget
opt|n|s|--budget=
opt|n|s|--budget|
opt|n|s|--budget|--|1000
opt|n|s|--budget|-1
opt|n|s|--budget|999
opt|n|s|--budget=4000001
opt|n|s|--budget=00001000
opt|n|s|--budget=+1000
opt|n|s|--budget=1000|--budget=1000
--free|opt|n|s
opt|--free|n
opt|n|s|--free|--free
opt|--free|n|s|--free
opt|n|s|--free=
opt|n|s|--free=x
opt|n|s|--free=true
opt|n|s|--fre
opt|n|s|--freed
opt|n|s|-free
opt|n|s|--Free
opt|n|s|--budget|--free
opt|n|s|--free|true
check|n|c|--free|--budget=1000|--free
opt|--blif|a
opt|--blif|--blif|a|b
check|--blif|a|b|--blif
opt|--blif=1|a|b
opt|a|b|--blifs
opt|a|b|--bli
work|--blif|1|1|s
trace|--blif|a|b
work|1|1|s|--free|--free
work|0|1|s
work|20001|1|s
work|000001|1|s
work|1|18446744073709551616|s
work|1|000000000000000000001|s
work|1||s
work|1|s
work|1|1|s|s";

#[test]
fn words_are_refused(rt: HostRuntime) -> Result<(), Fail> {
    are_refused(&rt, rt.alloc(), REFUSED)
}
