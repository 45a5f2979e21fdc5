ghost use Rattle.mv_base.specs.Outside.{Appends};
ghost use Rattle.mv_work.specs.Summing.{numbers_text, number_line, summary_text};

use itoa::Buffer;
use mv_base::{Failed, Sink, put_both};

/// What a run on a work network tells: the nets that are left but for those of reset values, the literals before it and
/// after it, and how many commands began, rules were applied and nets were passed over.
#[derive(Clone, Copy, Debug, PartialEq, Eq)]
pub struct Summary {
    pub nets: u64,
    pub literals_before: u128,
    pub literals_after: u128,
    pub commands: u64,
    pub rules: u64,
    pub dropped: u64,
}

/// Puts these numbers, each behind a blank.
fn put_numbers<K: Sink>(numbers: &[u128], out: &mut K) -> Result<(), Failed>
    ensures { Appends (K.state out.old) (K.state out.new) (numbers_text numbers.now) result }
{
    for number in numbers {
        let mut buffer = Buffer::new();
        put_both(b" ", buffer.format(*number).as_bytes(), out)?;
    }
    Ok(())
}

/// Puts a line of a word and numbers.
fn put_line<K: Sink>(word: &[u8], numbers: &[u128], out: &mut K) -> Result<(), Failed>
    ensures { Appends (K.state out.old) (K.state out.new)
        (number_line word.now numbers.now) result }
{
    out.put(word)?;
    put_numbers(numbers, out)?;
    out.put(b"\n")
}

/// Puts the lines of a summary. It takes no memory.
#[tactic(auto, unfolding(crate::specs::Summing::summary_text))]
pub fn put_summary<K: Sink>(summary: &Summary, out: &mut K) -> Result<(), Failed>
    ensures { Appends (K.state out.old) (K.state out.new) (summary_text summary.now) result }
{
    put_line(b"nets", &[summary.nets as u128], out)?;
    put_line(
        b"literals",
        &[summary.literals_before, summary.literals_after],
        out,
    )?;
    put_line(b"commands", &[summary.commands as u128], out)?;
    put_line(b"rules", &[summary.rules as u128], out)?;
    put_line(b"dropped", &[summary.dropped as u128], out)
}
