//! Certificates, and the rules that they list.
use mv_base::{MemorySink, Sink};
use mv_entry::put_rule;
use mv_lex::{Lexer, Lines};
use mv_step::{StepFault, read_cert};
use std::alloc::Global;
use std::test::Fail;

/// The text in which `;` stands for a line feed.
fn text_of(alloc: Global, line: &str) -> Result<Vec<u8>, Fail> {
    let mut text = Vec::from_slice(alloc, line.as_bytes())?;
    for byte in text.iter_mut() {
        if *byte == b';' {
            *byte = b'\n';
        }
    }
    Ok(text)
}

/// The lines of a text.
fn lines_of(alloc: Global, text: &[u8]) -> Result<Lines, Fail> {
    let mut lines = Lines::new(alloc);
    let mut lexer = Lexer::new(alloc, 4096);
    lexer.feed(text, &mut lines)?;
    lexer.finish(&mut lines)?;
    Ok(lines)
}

/// The rules that lines list, each printed behind the number of its line, or the first fault of the lines.
fn listed(alloc: Global, lines: &Lines) -> Result<MemorySink, Fail> {
    let mut sink = MemorySink::new(alloc, 4096, Vec::new(alloc))
        .ok()
        .ok_or("memory")?;
    match read_cert(lines) {
        Ok(steps) => {
            for step in steps.as_slice() {
                let number = format!(in alloc; "{} ", step.line)?;
                sink.put(number.as_bytes()).ok().ok_or("a full sink")?;
                put_rule(&step.rule, &mut sink).ok().ok_or("a full sink")?;
            }
        }
        Err(StepFault::Memory) => return Err(Fail::from("memory")),
        Err(StepFault::Syntax { line }) => {
            let text = format!(in alloc; "Syntax {line}")?;
            sink.put(text.as_bytes()).ok().ok_or("a full sink")?;
        }
    }
    Ok(sink)
}

/// Certificates, and what they list.
const CERTIFICATES: &str = "\
# a note;;# more|
;|
remove a;# x;wire b;;collapse c|1 remove a;3 wire b;5 collapse c;
remove (0);wire ->;collapse line|1 remove (0);2 wire ->;3 collapse line;
add x;line a 1 b (0,2) -> 1;line -> 0;default (0,1);end;remove y|1 add x;line a 1 b (0,2) -> 1;line -> 0;default (0,1);end;6 remove y;
divide z x;end;add w;default 1;end|1 divide z x;end;3 add w;default 1;end;
add x;line -> 0 -> 0;end|1 add x;line -> 0 -> 0;end;
add x;line a (127,00003,3,00) -> 00127;default (1);end|1 add x;line a (0,3,127) -> 127;default 1;end;
add x;line a (1023,64) -> 1023;default 01000;end|1 add x;line a (64,1023) -> 1023;default 1000;end;
add x;line a (1023,00003,3,00) -> 00128;default (1);end|1 add x;line a (0,3,1023) -> 128;default 1;end;
remove a;frob a|Syntax 2
line -> 0|Syntax 1
default 0|Syntax 1
# x;end|Syntax 2
remove|Syntax 1
remove a b|Syntax 1
wire|Syntax 1
collapse a b|Syntax 1
add;end|Syntax 1
add x y;end|Syntax 1
divide z;end|Syntax 1
divide z x y;end|Syntax 1
add x;end e|Syntax 2
add x;remove y;end|Syntax 2
add x;narrow y 0 0;end|Syntax 2
add x;default 0;line -> 0;end|Syntax 3
add x;default 0;default 0;end|Syntax 3
add x;default;end|Syntax 2
add x;default 0 1;end|Syntax 2
add x;line;end|Syntax 2
add x;line ->;end|Syntax 2
add x;line a 0 ->;end|Syntax 2
add x;line a 0 1;end|Syntax 2
add x;line a 0 b 1;end|Syntax 2
add x;line a - -> 0;end|Syntax 2
remove a;add x;line -> 0;# y|Syntax 2
remove a;;divide x y;default 0|Syntax 3
add x|Syntax 1
add x;default ();end|Syntax 2
add x;default (0,);end|Syntax 2
add x;default (,0);end|Syntax 2
add x;default {0};end|Syntax 2
add x;default !(0);end|Syntax 2
add x;default 1024;end|Syntax 2
add x;default (0,1024);end|Syntax 2
add x;default 000000;end|Syntax 2
add x;default 4294967296;end|Syntax 2
add x;default -;end|Syntax 2
add x;default +1;end|Syntax 2
narrow b 0 0;end|1 narrow b 0 0;end;
narrow b 65535 00009;line a 1 -> 0;default 1;end|1 narrow b 65535 9;line a 1 -> 0;default 1;end;
narrow b 0 0;end;x|Syntax 3
narrow b 0 0|Syntax 1
narrow b 65536 0;end|Syntax 1
narrow b 0 000000;end|Syntax 1
narrow b 0;end|Syntax 1
narrow b 0 0 0;end|Syntax 1
remove a;merge b 300 0;wire c|1 remove a;2 merge b 300 0;3 wire c;
merge b 00|1 merge b 0;
remove a;encode b 1 c 0 1;wire c|1 remove a;2 encode b 1 c 0 1;3 wire c;
merge|Syntax 1
merge b|Syntax 1
merge b x|Syntax 1
merge b 0 65536|Syntax 1
merge b 0 1 2|Syntax 1
encode b 2 c d 00 01 10|1 encode b 2 c d 00 01 10;
encode b 00002 c d|1 encode b 2 c d;
encode b 0|1 encode b 0;
encode b 1 c 0 1;end|Syntax 2
encode b 1 c 0 2|Syntax 1
encode b 1 c 0 01|Syntax 1
encode b 2 c|Syntax 1
encode b x c|Syntax 1
encode b|Syntax 1
fill b (0,1)|1 fill b (0,1);
fill b 1024|Syntax 1
fill b|Syntax 1
fill b 0 1|Syntax 1
wire a;fill b 0;merge c 1|1 wire a;2 fill b 0;3 merge c 1;
fill b 0;wire|Syntax 2
x;narrow b|Syntax 1
";

#[test]
fn a_certificate_lists_its_rules_or_its_first_fault(rt: HostRuntime) -> Result<(), Fail> {
    for line in CERTIFICATES.lines() {
        let (text, expected) = line.split_once('|').ok_or("a case of one part")?;
        let lines = lines_of(rt.alloc(), text_of(rt.alloc(), text)?.as_slice())?;
        let sink = listed(rt.alloc(), &lines)?;
        let wanted = text_of(rt.alloc(), expected)?;
        assert!(&rt; sink.bytes() == wanted.as_slice(), "{text}");
    }
    Ok(())
}
