ghost use Rattle.std.specs.Prelude.{◌≡◌, map, string_bytes, None};
ghost use Rattle.mv_base.specs.Outside.{Rose};
ghost use Rattle.mv_task.specs.Ends.{Ends, seen};
ghost use Rattle.mv_task.specs.Exact.{IsComplete, IsExact};
ghost use Rattle.mv_task.specs.Stages.{starts_behind};
ghost use Rattle.mv_command_line.specs.CommandLine.{task_of};
ghost use Rattle.mv_run.specs.Doing.{format_asked, task_asked, terms_of};
ghost use Rattle.mv_run.specs.Replacing.{ReplacesFile};
ghost use Rattle.mv_run.specs.Tracing.{AnswersRun, IsStatusOf};

use mv_base::{Files, Sink};
use mv_check::check;
use mv_command_line::{Options, Task, WordsStop, read_words};
use mv_format::FileFormat;
use mv_opt::{optimise, work};
use mv_rules::Terms;
use mv_task::tell;
use mv_tracing::trace;
use std::alloc::Global;

/// The terms that the options ask for.
fn terms(options: Options) -> Terms
    ensures { result ≡ terms_of options.free options.budget }
{
    let Options { free, budget } = options;
    Terms { free, budget }
}

/// The format of the network files, by whether `--blif` is given.
fn format(blif: bool) -> FileFormat
    ensures { result ≡ format_asked blif }
{
    if blif {
        FileFormat::Blif
    } else {
        FileFormat::BlifMv
    }
}

/// Does what the words ask for. Where they are refused, or memory is short for them, no file is begun.
fn perform<F: Files, O: Sink, E: Sink>(
    alloc: Global,
    words: &[String],
    files: &mut F,
    out: &mut O,
    notes: &mut E,
) -> u8
    ensures does { Ends (task_asked (task_of (map string_bytes words.now)))
        (seen (F.state files.old) (O.state out.old) (E.state notes.old))
        (seen (F.state files.new) (O.state out.new) (E.state notes.new)) result }
    ensures unread { task_of (map string_bytes words.now) ≡ None
        → F.state files.new ≡ F.state files.old }
{
    match read_words(alloc, words) {
        Ok(
            Task::Opt {
                net,
                script,
                blif,
                options,
            },
        ) => {
            let format = format(blif);
            let terms = terms(options);
            optimise(alloc, format, net, script, terms, files, out, notes)
        }
        Ok(
            Task::Check {
                net,
                certificate,
                blif,
                options,
            },
        ) => {
            let format = format(blif);
            let terms = terms(options);
            check(alloc, format, net, certificate, terms, files, out, notes)
        }
        Ok(
            Task::Work {
                size,
                seed,
                script,
                options,
            },
        ) => { work(alloc, size, seed, script, terms(options), files, out, notes) }
        Ok(Task::Trace { net, run }) => trace(alloc, net, run, files, out, notes),
        Err(WordsStop::Refused) => {
            tell(b"# fault words\n", notes);
            1
        }
        Err(WordsStop::Memory) => {
            tell(b"# fault memory\n", notes);
            6
        }
    }
}

/// Does what the words ask for. `opt NET SCRIPT` reads a script and a network file, runs the script on the network, and writes to
/// `out` a network that may take the place of the one read; `check NET CERT` reads a certificate in place of the script, and applies
/// its rules in turn; `work SIZE SEED SCRIPT` runs the script on a network that it draws, and writes a summary of the run; `trace NET RUN`
/// reads a run file behind the network, and tells whether the network allows the run, with the values of all nets. With the
/// option `--free` what is written may give values under which the network allows nothing any meaning; without it nothing is allowed
/// that wasn't. The option `--budget N` says how many nodes a diagram may have; nothing that is built makes one yet. With `--blif`, at
/// `opt` and `check`, the network files are BLIF: the two then allow the same, and say the same of each latch, for every script and
/// every certificate.
///
/// The answer is the status that a process ends with: 0 where the work is done, 1 where the words are refused, 2 the network, 3 the
/// script, 4 where a file couldn't be read, 5 where the output or the notes couldn't be written, 6 for want of memory, 7 where the
/// certificate is refused, 9 where the network doesn't allow the run, 11 where the run file is refused. What the commands do is put to `notes` as they do it, and then the line that says how it ended: for 0
/// before `out` is begun, so that it is there too where `out` fails; 5 has no line, nor has what `trace` answers.
pub fn run<F: Files, O: Sink, E: Sink>(
    alloc: Global,
    words: &[String],
    files: &mut F,
    out: &mut O,
    notes: &mut E,
) -> u8
    ensures replaced { result ≡ 0 → ReplacesFile (task_of (map string_bytes words.now))
        (seen (F.state files.old) (O.state out.old) (E.state notes.old))
        (seen (F.state files.new) (O.state out.new) (E.state notes.new)) }
    ensures traced { AnswersRun (task_of (map string_bytes words.now)) result
        (seen (F.state files.old) (O.state out.old) (E.state notes.old))
        (seen (F.state files.new) (O.state out.new) (E.state notes.new)) }
    ensures words { result ≡ 1 → task_of (map string_bytes words.now) ≡ None }
    ensures does { Ends (task_asked (task_of (map string_bytes words.now)))
        (seen (F.state files.old) (O.state out.old) (E.state notes.old))
        (seen (F.state files.new) (O.state out.new) (E.state notes.new)) result }
    ensures exact { IsExact (task_asked (task_of (map string_bytes words.now))).stages
        (F.state files.old) result }
    ensures complete { IsComplete (task_asked (task_of (map string_bytes words.now)))
        (seen (F.state files.old) (O.state out.old) (E.state notes.old))
        (seen (F.state files.new) (O.state out.new) (E.state notes.new)) result }
    ensures begun { result ≡ 0 → (F.state files.new).starts
        ≡ starts_behind (task_asked (task_of (map string_bytes words.now))).stages
        (F.state files.old).starts }
    ensures unread { result ≡ 1 → F.state files.new ≡ F.state files.old }
    ensures read { result ≡ 4 → Rose (F.state files.old).faults (F.state files.new).faults }
    ensures untouched { (result ≡ 0 → ⊥) → (result ≡ 5 → ⊥) → (result ≡ 9 → ⊥)
        → O.state out.new ≡ O.state out.old }
    ensures known { IsStatusOf (task_of (map string_bytes words.now)) result }
{
    perform(alloc, words, files, out, notes)
}
