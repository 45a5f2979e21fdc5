//! Runs on networks that are drawn.
use crate::runs::{Given, ends, opt, run_on, written};
use mv_work::work_text;
use std::test::Fail;

/// Words, a script, the summary, and what the notes say.
const SUMMARIES: &[(&str, &[u8], &[u8], &[u8])] = &[
    (
        "work 1 7 s",
        b"",
        b"nets 17\nliterals 1 1\ncommands 0\nrules 0\ndropped 0\n",
        b"# done 1 1\n",
    ),
    (
        "work 20000 1 s",
        b"",
        b"nets 20016\nliterals 86183 86183\ncommands 0\nrules 0\ndropped 0\n",
        b"# done 86183 86183\n",
    ),
    (
        "work --budget 4000000 1 7 -- s",
        b"drop; collapse g1",
        b"nets 17\nliterals 1 1\ncommands 2\nrules 0\ndropped 1\n",
        b"# begin drop\n# end 1\n# begin collapse g1\n# note absent g1\n# end 1\n# done 1 1\n",
    ),
];

#[test]
fn runs_on_drawn_networks_are_summed_up(rt: HostRuntime) -> Result<(), Fail> {
    for (words, script, summary, notes) in SUMMARIES {
        let given = Given {
            words,
            ..opt(b"", script)
        };
        ends(&rt, rt.alloc(), given, written(summary, notes))?;
    }
    Ok(())
}

/// A script of which the drawn network below leaves 64 nets.
const SCRIPT: &[u8] = b"sweep; eliminate; simplify 0 0; kernel; cube";

/// What is told of that run.
const SUMMARY: &[u8] = b"nets 64\nliterals 1249 13\ncommands 5\nrules 285\ndropped 0\n";

#[test]
fn a_drawn_network_is_worked_on_as_its_text_is(rt: HostRuntime) -> Result<(), Fail> {
    let text = work_text(rt.alloc(), 300, 1)?;
    let told = run_on(rt.alloc(), opt(text.as_slice(), SCRIPT))?;
    for _time in 0..2 {
        let given = Given {
            words: "work 300 1 s",
            ..opt(b"", SCRIPT)
        };
        ends(&rt, rt.alloc(), given, written(SUMMARY, told.notes.bytes()))?;
    }
    Ok(())
}
