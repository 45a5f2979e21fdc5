ghost use Rattle.std.specs.Prelude.{◌≡◌};
ghost use Rattle.mv_base.specs.Outside.{Appends};
ghost use Rattle.mv_check.specs.Tellings.{told_line, fault_name, rule_line, text_line};

use crate::fault::CertificateFault;
use itoa::Buffer;
use mv_base::{Failed, Sink, put_both};
use mv_cert::StepFault;
use mv_entry::RuleFault;
use mv_lex::LexFault;

/// The name of a fault of a rule.
fn fault_name(fault: RuleFault) -> &'static [u8]
    ensures { result.now ≡ fault_name fault }
{
    match fault {
        RuleFault::NoNet => b"NoNet",
        RuleFault::Visible => b"Visible",
        RuleFault::Read => b"Read",
        RuleFault::Unread => b"Unread",
        RuleFault::Shared => b"Shared",
        RuleFault::Partial => b"Partial",
        RuleFault::Varied => b"Varied",
        RuleFault::NotFresh => b"NotFresh",
        RuleFault::NotSame => b"NotSame",
        RuleFault::Loop => b"Loop",
        RuleFault::Form => b"Form",
        RuleFault::Outside => b"Outside",
        RuleFault::Lost => b"Lost",
        RuleFault::Wide => b"Wide",
        RuleFault::Nets => b"Nets",
        RuleFault::Window => b"Window",
        RuleFault::Strict => b"Strict",
        RuleFault::Total => b"Total",
        RuleFault::Nodes => b"Nodes",
        RuleFault::Memory => b"Memory",
    }
}

/// Puts the line that tells this cause at a line of the certificate.
fn put_told<E: Sink>(line: u32, cause: &[u8], notes: &mut E) -> Result<(), Failed>
    ensures { Appends (E.state notes.old) (E.state notes.new) (told_line line cause.now) result }
{
    let mut buffer = Buffer::new();
    put_both(
        b"# fault certificate ",
        buffer.format(line).as_bytes(),
        notes,
    )?;
    put_both(b" ", cause, notes)?;
    notes.put(b"\n")
}

/// Puts the line of a fault of a certificate's bytes or lines. It takes no memory.
pub fn put_text_line<E: Sink>(fault: CertificateFault, notes: &mut E) -> Result<(), Failed>
    ensures { Appends (E.state notes.old) (E.state notes.new) (text_line fault) result }
{
    match fault {
        CertificateFault::Lex(LexFault::BadByte { line, .. }) => put_told(line, b"Lex 1", notes),
        CertificateFault::Lex(LexFault::LongWord { line }) => put_told(line, b"Lex 2", notes),
        CertificateFault::Lex(LexFault::OpenBracket { line }) => put_told(line, b"Lex 3", notes),
        CertificateFault::Lex(LexFault::TooLarge { line }) => put_told(line, b"Lex 4", notes),
        CertificateFault::Lex(LexFault::Memory) => notes.put(b"# fault memory\n"),
        CertificateFault::Step(StepFault::Syntax { line }) => put_told(line, b"Syntax", notes),
        CertificateFault::Step(StepFault::Memory) => notes.put(b"# fault memory\n"),
    }
}

/// Puts the line that the rule at this line doesn't apply. It takes no memory.
pub fn put_rule_line<E: Sink>(line: u32, fault: RuleFault, notes: &mut E) -> Result<(), Failed>
    ensures { Appends (E.state notes.old) (E.state notes.new) (rule_line line fault) result }
{
    put_told(line, fault_name(fault), notes)
}
