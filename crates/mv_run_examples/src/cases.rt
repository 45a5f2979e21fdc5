//! Tables of runs: each line of a text is a case, whose parts stand between bars.
use crate::runs::{
    End, Given, answered, checked, ends, noted, opt, refused, run_on, traced, written,
};
use std::alloc::Global;
use std::process::Abort;
use std::test::Fail;

/// What the parts of a case are.
#[derive(Clone, Copy)]
pub enum Form<'a> {
    /// A network, what this script leaves of it, and the notes, which are a certificate by which a check does the same.
    Written(&'a [u8]),
    /// The same, and behind it a run that the network allows, what is told of it, one that it doesn't allow, and what is told of that.
    Example(&'a [u8]),
    /// A script, and then the same as for `Written`.
    Run,
    /// A network and what this script notes, which is a certificate by which a check does the same.
    Noted(&'a [u8]),
    /// A network that stays as it stands under this script, and the notes.
    Kept(&'a [u8]),
    /// A network, what is written of it, which stays as it stands too, and the notes.
    Again,
    /// A network of which this text is written, with these notes.
    Alike(&'a [u8], &'a [u8]),
    /// A network, a certificate, what is written, and the notes.
    Replayed,
    /// A network that is refused, and the end of the line that tells why.
    Network,
    /// A script that is refused, and the same.
    Script,
    /// A network, a certificate that is refused, and the same.
    Certificate,
    /// A certificate that is refused on this network, and the same.
    CertificateOn(&'a [u8]),
    /// A run file, and what is written of it on this network: `yes` and more, or `no` and the step.
    Traced(&'a [u8]),
    /// A run file that is refused on this network, and the end of the line that tells why.
    RunOn(&'a [u8]),
}

/// The byte that stands for a line feed: scripts of which `;` is a part have one line.
fn feed_of(form: Form) -> u8 {
    match form {
        Form::Script => b'\n',
        _ => b';',
    }
}

/// Each case ends as it says. Lines that begin with two dashes say what the next cases show.
pub fn all_end(rt: &impl Abort, alloc: Global, form: Form, cases: &str) -> Result<(), Fail> {
    all_end_with(rt, alloc, "", form, cases)
}

/// The same, where each run has this option, or none where it is empty.
pub fn all_end_with(
    rt: &impl Abort,
    alloc: Global,
    option: &str,
    form: Form,
    cases: &str,
) -> Result<(), Fail> {
    for case in cases.split('\n') {
        if !case.is_empty() && !case.starts_with("--") {
            let parts = parts_of(alloc, feed_of(form), case)?;
            case_ends(rt, alloc, option, form, parts.as_slice())?;
        }
    }
    Ok(())
}

/// The parts of a case as texts, in which this byte stands for a line feed.
pub fn parts_of(alloc: Global, feed: u8, case: &str) -> Result<Vec<Vec<u8>>, Fail> {
    let mut parts = Vec::new(alloc);
    for part in case.split(" | ") {
        parts.push(text_of(alloc, feed, part)?)?;
    }
    Ok(parts)
}

/// The case ends as it says.
fn case_ends(
    rt: &impl Abort,
    alloc: Global,
    option: &str,
    form: Form,
    parts: &[Vec<u8>],
) -> Result<(), Fail> {
    if let Form::Example(script) = form {
        return example_ends(rt, alloc, script, parts);
    }
    if let Some((given, end)) = run_of(form, parts) {
        return is_done(rt, alloc, form, Given { option, ..given }, end);
    }
    match refusal_of(form, parts) {
        Some((given, status, fault)) => {
            is_refused(rt, alloc, Given { option, ..given }, status, fault)
        }
        None => Err(Fail::from("a case of another form")),
    }
}

/// The example is written as it says, and allows the first run, but not the second.
fn example_ends(
    rt: &impl Abort,
    alloc: Global,
    script: &[u8],
    parts: &[Vec<u8>],
) -> Result<(), Fail> {
    let [net, out, notes, run, yes, other, no] = parts else {
        return Err(Fail::from("an example of another form"));
    };
    let given = opt(net, script);
    is_done(rt, alloc, Form::Written(script), given, written(out, notes))?;
    ends(rt, alloc, traced(net, run), answered(yes))?;
    ends(rt, alloc, traced(net, other), answered(no))
}

/// The run of a case whose work is done, and how it ends.
fn run_of<'a>(form: Form<'a>, parts: &'a [Vec<u8>]) -> Option<(Given<'a>, End<'a>)> {
    match (form, parts) {
        (Form::Written(script), [net, out, notes]) => Some((opt(net, script), written(out, notes))),
        (Form::Run, [script, net, out, notes]) => Some((opt(net, script), written(out, notes))),
        (Form::Noted(script), [net, notes]) => Some((opt(net, script), noted(notes))),
        (Form::Kept(script), [net, notes]) => Some((opt(net, script), written(net, notes))),
        (Form::Again, [_net, out, notes]) => Some((opt(out, b""), written(out, notes))),
        (Form::Alike(out, notes), [net]) => Some((opt(net, b""), written(out, notes))),
        (Form::Traced(net), [run, out]) => Some((traced(net, run), answered(out))),
        (Form::Replayed, [net, rules, out, notes]) => Some((
            checked(net, rules),
            written(out, notes),
        )),
        _ => None,
    }
}

/// The run of a case that is refused, its status, and the end of its line.
fn refusal_of<'a>(form: Form<'a>, parts: &'a [Vec<u8>]) -> Option<(Given<'a>, u8, &'a [u8])> {
    match (form, parts) {
        (Form::Network, [net, fault]) => Some((opt(net, b""), 2, fault)),
        (Form::Script, [script, fault]) => Some((opt(b"", script), 3, fault)),
        (Form::Certificate, [net, rules, fault]) => Some((checked(net, rules), 7, fault)),
        (Form::CertificateOn(net), [rules, fault]) => Some((checked(net, rules), 7, fault)),
        (Form::RunOn(net), [run, fault]) => Some((traced(net, run), 11, fault)),
        _ => None,
    }
}

/// The run ends so, and where the form says it checks back.
fn is_done(rt: &impl Abort, alloc: Global, form: Form, given: Given, end: End) -> Result<(), Fail> {
    ends(rt, alloc, given, end)?;
    match form {
        Form::Written(_) | Form::Run | Form::Noted(_) => checks_back(rt, alloc, given),
        _ => Ok(()),
    }
}

/// What a run notes is a certificate, by which a check writes the same.
fn checks_back(rt: &impl Abort, alloc: Global, given: Given) -> Result<(), Fail> {
    let (net, script, option) = (given.net, given.script, given.option);
    let first = run_on(alloc, given)?;
    let check = Given {
        option,
        ..checked(net, first.notes.bytes())
    };
    let again = run_on(alloc, check)?;
    assert_eq!(rt; again.status, 0, "{script:?} on {net:?}");
    assert_eq!(rt;
        again.out.bytes(),
        first.out.bytes(),
        "{script:?} on {net:?}"
    );
    Ok(())
}

/// The run is refused with this status, by the line that ends so.
fn is_refused(
    rt: &impl Abort,
    alloc: Global,
    given: Given,
    status: u8,
    fault: &[u8],
) -> Result<(), Fail> {
    let mut line = Vec::from_slice(alloc, front_of(status))?;
    line.extend_from_slice(fault)?;
    line.push(b'\n')?;
    ends(rt, alloc, given, refused(status, line.as_slice()))
}

/// How the line of a refusal with this status begins.
fn front_of(status: u8) -> &'static [u8] {
    match status {
        2 => b"# fault network ",
        3 => b"# fault script ",
        11 => b"# fault trace ",
        _ => b"# fault certificate ",
    }
}

/// A part of a case as a text. One that begins with `~` is made of pieces.
fn text_of(alloc: Global, feed: u8, part: &str) -> Result<Vec<u8>, Fail> {
    match part.strip_prefix('~') {
        Some(pieces) => long_text_of(alloc, pieces),
        None => short_text_of(alloc, feed, part),
    }
}

/// The part with its line feeds.
fn short_text_of(alloc: Global, feed: u8, part: &str) -> Result<Vec<u8>, Fail> {
    let mut text = Vec::from_slice(alloc, part.as_bytes())?;
    for byte in text.iter_mut() {
        if *byte == feed {
            *byte = b'\n';
        }
    }
    Ok(text)
}

/// The text of pieces, which are parted by `~`: a piece with a `*` stands as often as the number before that says.
fn long_text_of(alloc: Global, pieces: &str) -> Result<Vec<u8>, Fail> {
    let mut text = Vec::new(alloc);
    for piece in pieces.split('~') {
        let (times, piece) = times_of(piece)?;
        for turn in 0..times {
            add_turn(alloc, &mut text, piece.as_bytes(), turn)?;
        }
    }
    Ok(text)
}

/// How often a piece stands, and what it says.
fn times_of(piece: &str) -> Result<(u32, &str), Fail> {
    match piece.split_once('*') {
        Some((times, piece)) => Ok((times.parse::<u32>()?, piece)),
        None => Ok((1, piece)),
    }
}

/// Adds what the piece says at this turn, the first of which is 0.
fn add_turn(alloc: Global, text: &mut Vec<u8>, piece: &[u8], turn: u32) -> Result<(), Fail> {
    for byte in piece {
        if *byte == b'^' {
            add_code(text, turn)?;
        } else {
            match number_at(*byte, turn) {
                Some(number) => add_number(alloc, text, number)?,
                None => text.push(plain(*byte))?,
            }
        }
    }
    Ok(())
}

/// What the places of ten bits count, the highest first.
const PLACES: [u32; 10] = [512, 256, 128, 64, 32, 16, 8, 4, 2, 1];

/// Adds the lowest ten bits of the turn's number, for which `^` stands, the highest of them first.
fn add_code(text: &mut Vec<u8>, turn: u32) -> Result<(), Fail> {
    for place in PLACES.as_slice() {
        if turn & *place == 0 {
            text.push(b'0')?;
        } else {
            text.push(b'1')?;
        }
    }
    Ok(())
}

/// The number that this byte of a piece stands for: `@` for that of the turn, `%` for its last two digits, `/` for those before
/// them; `$` and `&` for the digits of the next turn's number, which has two at most.
fn number_at(byte: u8, turn: u32) -> Option<u32> {
    match byte {
        b'@' => Some(turn),
        b'%' => Some(turn % 100),
        b'/' => Some(turn / 100),
        b'$' => Some(turn.saturating_add(1) / 10),
        b'&' => Some(turn.saturating_add(1) % 10),
        _ => None,
    }
}

/// The byte that any other byte of a piece stands for: `;` for a line feed, and `?` for a semicolon.
fn plain(byte: u8) -> u8 {
    match byte {
        b';' => b'\n',
        b'?' => b';',
        byte => byte,
    }
}

/// Adds a number in digits.
fn add_number(alloc: Global, text: &mut Vec<u8>, number: u32) -> Result<(), Fail> {
    let digits = format!(in alloc; "{number}")?;
    text.extend_from_slice(digits.as_bytes())?;
    Ok(())
}
