ghost use Rattle.std.specs.Prelude.{◌≡◌, option_map};
ghost use Rattle.mv_base.specs.Names.{same_word};
ghost use Rattle.mv_command_line.specs.CommandLine.{is_stdin};
ghost use Rattle.mv_command_line.specs.Given.{text_of, files_of, draw_of, names_of, budget_by, files_by, draw_by, names_by};

use crate::Options;
use crate::number::{budget_of, seed_of, size_of};
use mv_base::DEFAULT_BUDGET;

/// Two names of files, and what the options say.
#[derive(Clone, Copy)]
pub struct Files<'a> {
    pub net: &'a str,
    pub other: &'a str,
    /// Whether the network files are BLIF, not BLIF-MV.
    pub blif: bool,
    pub options: Options,
}

/// What is drawn, the name of a script, and what the options say.
#[derive(Clone, Copy)]
pub struct Draw<'a> {
    pub size: u32,
    pub seed: u64,
    pub script: &'a str,
    pub options: Options,
}

/// Two names of files.
#[derive(Clone, Copy)]
pub struct Names<'a> {
    pub net: &'a str,
    pub other: &'a str,
}

/// Whether the word is this text.
pub fn is_text(word: &[u8], text: &[u8]) -> bool
    ensures { result ≡ same_word word.now text.now }
{
    word == text
}

/// Whether the word names standard input.
fn is_stdin(word: &[u8]) -> bool
    ensures { result ≡ is_stdin word.now }
{
    is_text(word, b"-")
}

/// The budget that the value of `--budget` says, or the usual one; None where it says none.
fn budget_by(value: Option<&str>) -> Option<u32>
    ensures { result ≡ budget_by (text_of value.entry) }
{
    match value {
        None => Some(DEFAULT_BUDGET as u32),
        Some(text) => budget_of(text.as_bytes()),
    }
}

/// Two names of files, of which one at most is standard input, with what the options say.
pub fn files_by<'a>(
    net: Option<&'a str>,
    other: Option<&'a str>,
    blif: bool,
    free: bool,
    budget: Option<&'a str>,
) -> Option<Files<'a>>
    ensures { option_map files_of result
        ≡ files_by (text_of net.entry) (text_of other.entry) blif free (text_of budget.entry) }
{
    let net = net?;
    let other = other?;
    if is_stdin(net.as_bytes()) && is_stdin(other.as_bytes()) {
        return None;
    }
    let budget = budget_by(budget)?;
    let options = Options { free, budget };
    Some(Files {
        net,
        other,
        blif,
        options,
    })
}

/// Two names of files, of which one at most is standard input, where no option is given.
pub fn names_by<'a>(
    net: Option<&'a str>,
    other: Option<&'a str>,
    blif: bool,
    free: bool,
    budget: Option<&'a str>,
) -> Option<Names<'a>>
    ensures { option_map names_of result
        ≡ names_by (text_of net.entry) (text_of other.entry) blif free (text_of budget.entry) }
{
    let net = net?;
    let other = other?;
    if blif || free || budget.is_some() || is_stdin(net.as_bytes()) && is_stdin(other.as_bytes()) {
        return None;
    }
    Some(Names { net, other })
}

/// A size, a seed and the name of a script, with what the options say, of which `--blif` is none.
pub fn draw_by<'a>(
    size: Option<&'a str>,
    seed: Option<&'a str>,
    script: Option<&'a str>,
    blif: bool,
    free: bool,
    budget: Option<&'a str>,
) -> Option<Draw<'a>>
    ensures { option_map draw_of result
        ≡ draw_by (text_of size.entry) (text_of seed.entry) (text_of script.entry) blif free
        (text_of budget.entry) }
{
    if blif {
        return None;
    }
    let size = size_of(size?.as_bytes())?;
    let seed = seed_of(seed?.as_bytes())?;
    let script = script?;
    let budget = budget_by(budget)?;
    let options = Options { free, budget };
    Some(Draw {
        size,
        seed,
        script,
        options,
    })
}
