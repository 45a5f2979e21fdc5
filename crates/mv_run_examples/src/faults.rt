//! Each call of the files, of the output and of the notes that fails in turn.
use crate::cases::parts_of;
use crate::runs::{End, Fault, Given, ROOM, Text, ends, opt, repeated, words_of, written};
use mv_base::{HostFiles, MemorySink};
use mv_run::run;
use std::alloc::Global;
use std::process::Abort;
use std::test::Fail;

/// Runs of which a call fails: the kind of call, the number of the first one that fails and of the one behind the last, in turn, then
/// the words and the status, and a network, the other file, what the output has then and what the notes have.
type Failing = (Fault, u64, u64, &'static str, u8, &'static str);

/// The fault at another call.
fn at(fault: Fault, call: u64) -> Fault {
    match fault {
        Fault::Never => Fault::Never,
        Fault::Files(_call) => Fault::Files(call),
        Fault::Out(_call, taken) => Fault::Out(call, taken),
        Fault::Notes(_call, taken) => Fault::Notes(call, taken),
    }
}

/// Each of these calls fails in turn, and the run ends so each time.
fn each_ends(
    rt: &impl Abort,
    alloc: Global,
    calls: (u64, u64),
    given: Given,
    end: End,
) -> Result<(), Fail> {
    for call in calls.0..calls.1 {
        let fault = at(given.fault, call);
        ends(rt, alloc, Given { fault, ..given }, end)?;
    }
    Ok(())
}

/// What a sink has to have: behind `=` the whole text, behind `<` a first part of it.
fn text_in(part: &[u8]) -> Text<'_> {
    match part {
        [b'=', text @ ..] => Text::Whole(text),
        [b'<', text @ ..] => Text::Front(text),
        _ => Text::Whole(part),
    }
}

/// Each run ends as its row says.
fn all_fail(rt: &impl Abort, alloc: Global, rows: &[Failing]) -> Result<(), Fail> {
    for row in rows {
        let parts = parts_of(alloc, b';', row.5)?;
        row_ends(rt, alloc, row, parts.as_slice())?;
    }
    Ok(())
}

/// The run ends as the row with these parts of its text says.
fn row_ends(rt: &impl Abort, alloc: Global, row: &Failing, parts: &[Vec<u8>]) -> Result<(), Fail> {
    match parts {
        [net, script, out, notes] => {
            let given = Given {
                words: row.3,
                option: "",
                net,
                script,
                fault: row.0,
            };
            let end = End {
                status: row.4,
                out: text_in(out),
                notes: text_in(notes),
            };
            each_ends(rt, alloc, (row.1, row.2), given, end)
        }
        _ => Err(Fail::from("a row of another form")),
    }
}

/// The network stands behind a comment, so that its file takes two pieces. The calls are the start of the script or certificate, its
/// piece and its end, and the start of the network, its two pieces and its end.
const FILES: &[Failing] = &[
    (
        Fault::Files(0),
        0,
        7,
        "opt n s",
        4,
        "~5000*#~;.model inv;.inputs a;.outputs z;.table a -> z;0 1;1 0;.end; | drop | = | =# fault read;",
    ),
    (
        Fault::Files(0),
        7,
        8,
        "opt n s",
        0,
        "~5000*#~;.model inv;.inputs a;.outputs z;.table a -> z;0 1;1 0;.end; | drop | =.model inv;.inputs a;.outputs z;.table a -> z;0 1;1 0;.end; | =# begin drop;# end 2;# done 2 2;",
    ),
    (
        Fault::Files(0),
        0,
        7,
        "check n s",
        4,
        "~5000*#~;.model inv;.inputs a;.outputs z;.table a -> z;0 1;1 0;.end; | # begin drop;remove d;# end 2;# done 4 2; | = | =# fault read;",
    ),
];

#[test]
fn each_call_of_the_files_fails_in_turn(rt: HostRuntime) -> Result<(), Fail> {
    all_fail(&rt, rt.alloc(), FILES)
}

#[test]
fn a_file_that_the_host_lacks_is_told(rt: HostRuntime) -> Result<(), Fail> {
    let alloc = rt.alloc();
    let words = words_of(alloc, "opt missing missing")?;
    let mut out = MemorySink::new(alloc, ROOM, Vec::new(alloc))?;
    let mut notes = MemorySink::new(alloc, ROOM, Vec::new(alloc))?;
    let status = run(
        alloc,
        words.as_slice(),
        &mut HostFiles::new(&rt),
        &mut out,
        &mut notes,
    );
    assert_eq!(rt; status, 4);
    assert_eq!(rt; notes.bytes(), b"# fault read\n".as_slice());
    Ok(())
}

/// A short text is one put, a first part of which stays where it fails.
const OUTPUT: &[Failing] = &[
    (
        Fault::Out(0, 0),
        0,
        1,
        "opt n s",
        5,
        ".model inv;.inputs a;.outputs z;.table a -> z;0 1;1 0;.end; |  | = | =# done 2 2;",
    ),
    (
        Fault::Out(0, 2),
        0,
        1,
        "opt n s",
        5,
        ".model inv;.inputs a;.outputs z;.table a -> z;0 1;1 0;.end; |  | =.m | =# done 2 2;",
    ),
    (
        Fault::Out(0, 3),
        0,
        1,
        "opt n s",
        5,
        ".model inv;.inputs a;.outputs z;.table a -> z;0 1;1 0;.end; |  | =.mo | =# done 2 2;",
    ),
    (
        Fault::Out(0, 6),
        0,
        1,
        "opt n s",
        5,
        ".model inv;.inputs a;.outputs z;.table a -> z;0 1;1 0;.end; |  | =.model | =# done 2 2;",
    ),
    (
        Fault::Out(0, 57),
        0,
        1,
        "opt n s",
        5,
        ".model inv;.inputs a;.outputs z;.table a -> z;0 1;1 0;.end; |  | =.model inv;.inputs a;.outputs z;.table a -> z;0 1;1 0;.en | =# done 2 2;",
    ),
    (
        Fault::Out(0, 0),
        1,
        2,
        "opt n s",
        0,
        ".model inv;.inputs a;.outputs z;.table a -> z;0 1;1 0;.end; |  | =.model inv;.inputs a;.outputs z;.table a -> z;0 1;1 0;.end; | =# done 2 2;",
    ),
    (
        Fault::Out(0, 9),
        0,
        1,
        "opt n s",
        5,
        ".model d;.inputs a;.outputs z;.table a -> z;0 1;1 0;.table a -> d;0 0;1 -;.end; | drop | =.model d; | =# begin drop;remove d;# end 2;# done 4 2;",
    ),
    (
        Fault::Out(0, 9),
        0,
        1,
        "check n s",
        5,
        ".model d;.inputs a;.outputs z;.table a -> z;0 1;1 0;.table a -> d;0 0;1 -;.end; | # begin drop;remove d;# end 2;# done 4 2; | =.model d; | =# done 4 2;",
    ),
];

#[test]
fn a_prefix_stays_where_a_put_of_the_output_fails(rt: HostRuntime) -> Result<(), Fail> {
    all_fail(&rt, rt.alloc(), OUTPUT)
}

/// A network of forty inputs with names of a thousand bytes.
fn wide(alloc: Global) -> Result<Vec<u8>, Fail> {
    let mut text = Vec::new(alloc);
    text.extend_from_slice(b".model m\n.inputs")?;
    for input in 0..40u8 {
        text.extend_from_slice(&[b' ', b'A' + input])?;
        text.extend_from_slice(repeated(alloc, b"x", 999)?.as_slice())?;
    }
    text.extend_from_slice(b"\n.outputs\n.end\n")?;
    Ok(text)
}

#[test]
fn each_put_of_a_long_text_fails_in_turn(rt: HostRuntime) -> Result<(), Fail> {
    let net = wide(rt.alloc())?;
    let end = End {
        status: 5,
        out: Text::Part(net.as_slice()),
        notes: Text::Whole(b"# done 0 0\n"),
    };
    let given = opt(net.as_slice(), b"").failing(Fault::Out(0, 0));
    each_ends(&rt, rt.alloc(), (0, 3), given, end)?;
    let whole = written(net.as_slice(), b"# done 0 0\n");
    ends(&rt, rt.alloc(), opt(net.as_slice(), b""), whole)
}

/// Each entry of the notes is one put, and no output is begun where one fails. A refusal stands all the same.
const NOTES: &[Failing] = &[
    (
        Fault::Notes(0, 0),
        0,
        1,
        "opt n s",
        5,
        ".model inv;.inputs a;.outputs z;.table a -> z;0 1;1 0;.end; |  | = | <# done 2 2;",
    ),
    (
        Fault::Notes(0, 3),
        0,
        1,
        "check n s",
        5,
        ".model inv;.inputs a;.outputs z;.table a -> z;0 1;1 0;.end; |  | = | <# done 2 2;",
    ),
    (
        Fault::Notes(0, 0),
        0,
        4,
        "opt n s",
        5,
        ".model d;.inputs a;.outputs z;.table a -> z;0 1;1 0;.table a -> d;0 0;1 -;.end; | drop | = | <# begin drop;remove d;# end 2;# done 4 2;",
    ),
    (
        Fault::Notes(0, 1),
        0,
        4,
        "opt n s",
        5,
        ".model d;.inputs a;.outputs z;.table a -> z;0 1;1 0;.table a -> d;0 0;1 -;.end; | drop | = | <# begin drop;remove d;# end 2;# done 4 2;",
    ),
    (
        Fault::Notes(0, 2),
        0,
        4,
        "opt n s",
        5,
        ".model d;.inputs a;.outputs z;.table a -> z;0 1;1 0;.table a -> d;0 0;1 -;.end; | drop | = | <# begin drop;remove d;# end 2;# done 4 2;",
    ),
    (
        Fault::Notes(0, 1),
        0,
        11,
        "opt n s",
        5,
        ".model b;.inputs a;.outputs z;.table a -> p;0 0;1 1;.table p -> q;0 1;1 0;.table q -> z;0 1;1 0;.end; | ~sweep? eliminate? collapse z | = | <# begin sweep;wire p;remove p;# end 4;# begin eliminate;collapse q;# end 2;# begin collapse z;# note seen z;# end 2;# done 6 2;",
    ),
    (Fault::Notes(0, 4), 0, 1, "opt", 1, " |  | = | =# fa"),
];

#[test]
fn each_put_of_the_notes_fails_in_turn(rt: HostRuntime) -> Result<(), Fail> {
    all_fail(&rt, rt.alloc(), NOTES)
}

#[test]
fn the_line_of_a_fault_is_cut_where_the_notes_fail(rt: HostRuntime) -> Result<(), Fail> {
    let end = End {
        status: 2,
        out: Text::Whole(b""),
        notes: Text::Front(b"# fault network 1 BadByte line 2 128\n"),
    };
    for taken in 0..3usize {
        let given = opt(b"\n\x80", b"").failing(Fault::Notes(0, taken));
        each_ends(&rt, rt.alloc(), (0, 5), given, end)?;
    }
    Ok(())
}
