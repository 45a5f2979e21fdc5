ghost use Rattle.std.specs.Prelude.{◌≡◌, ◌<◌, false, Some, [], IfOk, MatchResult, length, map, slice_index_or, string_bytes};
ghost use Rattle.std.specs.Prelude.{option_map, option_and_then};
ghost use Rattle.clap.specs.Words.{app_of, rule_of};
ghost use Rattle.mv_command_line.specs.Commands.{budget_option, flag_option, command_given, two_given, word_given};
ghost use Rattle.mv_command_line.specs.CommandLine.{opt, check, work, trace, asked_by, files_asked, draw_asked, names_asked, task_of};
ghost use Rattle.mv_command_line.specs.Answers.{Answers, IsRefusedBy};
ghost use Rattle.mv_command_line.specs.Given.{AreMatched, files_of, draw_of, names_of, rest_parts};

use crate::given::{Draw, Files, Names, draw_by, files_by, is_text, names_by};
use crate::{Task, WordsStop};
use clap::error::ErrorKind;
use clap::{Arg, ArgAction, ArgMatches, Command};
use std::alloc::{AllocError, Global};

/// The option `--budget`, whose value is a text.
fn budget_option<'a>(alloc: Global) -> Arg<'a>
    ensures rule { rule_of result ≡ budget_option }
    ensures local { result.global ≡ false }
{
    Arg::new(alloc, "budget")
        .action(ArgAction::Set)
        .long("budget")
}

/// An option without a value.
fn flag_option(alloc: Global, name: &str) -> Arg<'_>
    ensures rule { rule_of result ≡ flag_option name.entry.now }
    ensures local { result.global ≡ false }
{
    Arg::new(alloc, name).action(ArgAction::SetTrue).long(name)
}

/// A positional word, which has to be there.
fn word_given(alloc: Global, id: &str) -> Arg<'_>
    ensures rule { rule_of result ≡ word_given id.entry.now }
    ensures local { result.global ≡ false }
{
    Arg::new(alloc, id).action(ArgAction::Set).required(true)
}

/// The command that reads the words behind a task's name, where they are two positional ones and the options.
fn two_words<'a>(alloc: Global) -> Result<Command<'a>, AllocError>
    ensures { IfOk result (λ c. app_of c ≡ two_given) }
{
    let command = Command::new(alloc, "mvopt")
        .disable_help_flag(true)
        .arg(budget_option(alloc))?
        .arg(flag_option(alloc, "free"))?
        .arg(flag_option(alloc, "blif"))?
        .arg(word_given(alloc, "first"))?
        .arg(word_given(alloc, "second"))?;
    Ok(command)
}

/// The same with a third word, or without.
fn command<'a>(alloc: Global, third: bool) -> Result<Command<'a>, AllocError>
    ensures { IfOk result (λ c. app_of c ≡ command_given third) }
{
    let command = two_words(alloc)?;
    if third {
        command.arg(word_given(alloc, "third"))
    } else {
        Ok(command)
    }
}

/// The matches of the words, of which the first is the task's name.
fn matches<'a>(alloc: Global, third: bool, words: &'a [String]) -> Result<ArgMatches<'a>, WordsStop>
    ensures { AreMatched third words.now result }
{
    let command = command(alloc, third)?;
    match command.try_get_matches_from(words) {
        Ok(matches) => Ok(matches),
        Err(error) => match error.kind() {
            ErrorKind::OutOfMemory => Err(WordsStop::Memory),
            _ => Err(WordsStop::Refused),
        },
    }
}

/// The files that the words behind the first one ask for.
fn files<'a>(alloc: Global, words: &'a [String]) -> Result<Files<'a>, WordsStop>
    ensures { let asked = option_and_then files_asked (rest_parts words.now) in
        MatchResult result (λ f. asked ≡ Some (files_of f)) (IsRefusedBy asked) }
{
    let matches = match matches(alloc, false, words) {
        Ok(matches) => matches,
        Err(stop) => return Err(stop),
    };
    let net = matches.get_str("first");
    let other = matches.get_str("second");
    let blif = matches.get_flag("blif");
    let free = matches.get_flag("free");
    let budget = matches.get_str("budget");
    match files_by(net, other, blif, free, budget) {
        Some(files) => Ok(files),
        None => Err(WordsStop::Refused),
    }
}

/// The draw that the words behind the first one ask for.
fn draw<'a>(alloc: Global, words: &'a [String]) -> Result<Draw<'a>, WordsStop>
    ensures { let asked = option_and_then draw_asked (rest_parts words.now) in
        MatchResult result (λ d. asked ≡ Some (draw_of d)) (IsRefusedBy asked) }
{
    let matches = match matches(alloc, true, words) {
        Ok(matches) => matches,
        Err(stop) => return Err(stop),
    };
    let size = matches.get_str("first");
    let seed = matches.get_str("second");
    let script = matches.get_str("third");
    let blif = matches.get_flag("blif");
    let free = matches.get_flag("free");
    let budget = matches.get_str("budget");
    match draw_by(size, seed, script, blif, free, budget) {
        Some(draw) => Ok(draw),
        None => Err(WordsStop::Refused),
    }
}

/// The names of files that the words behind the first one ask for, without an option.
fn names<'a>(alloc: Global, words: &'a [String]) -> Result<Names<'a>, WordsStop>
    ensures { let asked = option_and_then names_asked (rest_parts words.now) in
        MatchResult result (λ n. asked ≡ Some (names_of n)) (IsRefusedBy asked) }
{
    let matches = match matches(alloc, false, words) {
        Ok(matches) => matches,
        Err(stop) => return Err(stop),
    };
    let net = matches.get_str("first");
    let other = matches.get_str("second");
    let blif = matches.get_flag("blif");
    let free = matches.get_flag("free");
    let budget = matches.get_str("budget");
    match names_by(net, other, blif, free, budget) {
        Some(names) => Ok(names),
        None => Err(WordsStop::Refused),
    }
}

/// The task `opt`.
fn opt<'a>(alloc: Global, words: &'a [String]) -> Result<Task<'a>, WordsStop>
    ensures { Answers (option_map opt (option_and_then files_asked (rest_parts words.now))) result }
{
    match files(alloc, words) {
        Ok(files) => Ok(Task::Opt {
            net: files.net,
            script: files.other,
            blif: files.blif,
            options: files.options,
        }),
        Err(stop) => Err(stop),
    }
}

/// The task `check`.
fn check<'a>(alloc: Global, words: &'a [String]) -> Result<Task<'a>, WordsStop>
    ensures { Answers
        (option_map check (option_and_then files_asked (rest_parts words.now))) result }
{
    match files(alloc, words) {
        Ok(files) => Ok(Task::Check {
            net: files.net,
            certificate: files.other,
            blif: files.blif,
            options: files.options,
        }),
        Err(stop) => Err(stop),
    }
}

/// The task `work`.
fn work<'a>(alloc: Global, words: &'a [String]) -> Result<Task<'a>, WordsStop>
    ensures { Answers (option_map work (option_and_then draw_asked (rest_parts words.now))) result }
{
    match draw(alloc, words) {
        Ok(draw) => Ok(Task::Work {
            size: draw.size,
            seed: draw.seed,
            script: draw.script,
            options: draw.options,
        }),
        Err(stop) => Err(stop),
    }
}

/// The task `trace`.
fn trace<'a>(alloc: Global, words: &'a [String]) -> Result<Task<'a>, WordsStop>
    ensures { Answers
        (option_map trace (option_and_then names_asked (rest_parts words.now))) result }
{
    match names(alloc, words) {
        Ok(names) => Ok(Task::Trace {
            net: names.net,
            run: names.other,
        }),
        Err(stop) => Err(stop),
    }
}

/// The task of this name, by the words behind the first one.
fn task_named<'a>(alloc: Global, name: &[u8], words: &'a [String]) -> Result<Task<'a>, WordsStop>
    ensures { Answers (asked_by name.now (rest_parts words.now)) result }
{
    if is_text(name, b"opt") {
        return opt(alloc, words);
    }
    if is_text(name, b"check") {
        return check(alloc, words);
    }
    if is_text(name, b"work") {
        return work(alloc, words);
    }
    if is_text(name, b"trace") {
        return trace(alloc, words);
    }
    Err(WordsStop::Refused)
}

/// The first word.
fn first_word(words: &[String]) -> &str
    requires { 0 < length words.now }
    ensures { result.now ≡ slice_index_or (map string_bytes words.now) 0 [] }
{
    words[0].as_str()
}

/// The task that the words ask for, without the program's name: `trace NET RUN` without an option, or `opt NET SCRIPT`,
/// `check NET CERTIFICATE` or `work SIZE SEED SCRIPT`, with `--free` at most once, `--budget N` or `--budget=N` at most once and, except at `work`, `--blif` at
/// most once among the words behind the first one, before any `--`, which ends options. Behind it every word is positional. N has up to seven digits and
/// is from 1,000 to 4,000,000, SIZE up to five and is from 1 to 20,000, SEED up to twenty and is below 2^64. With `--blif` the network files are BLIF, not BLIF-MV. One name
/// of a file at most is `-`. All else is refused.
pub fn read_words<'a>(alloc: Global, words: &'a [String]) -> Result<Task<'a>, WordsStop>
    ensures { Answers (task_of (map string_bytes words.now)) result }
{
    if words.is_empty() {
        return Err(WordsStop::Refused);
    }
    task_named(alloc, first_word(words).as_bytes(), words)
}
