ghost use Rattle.std.specs.Prelude.{◌≡◌};
ghost use Rattle.mv_step.specs.Lines.{keyword_of};

use mv_base::same_bytes;

/// What the first word of a line is.
#[derive(Clone, Copy, Debug, PartialEq, Eq)]
pub enum Keyword {
    Remove,
    Add,
    Divide,
    Wire,
    Collapse,
    Narrow,
    Merge,
    Encode,
    Fill,
    Line,
    Default,
    End,
    Unknown,
}

/// What this first word is.
#[tactic(auto, unfolding(crate::specs::Lines::keyword_of))]
pub fn keyword_of(word: &[u8]) -> Keyword
    ensures { result ≡ keyword_of word.now }
{
    if same_bytes(word, b"remove") {
        Keyword::Remove
    } else if same_bytes(word, b"add") {
        Keyword::Add
    } else if same_bytes(word, b"divide") {
        Keyword::Divide
    } else if same_bytes(word, b"wire") {
        Keyword::Wire
    } else if same_bytes(word, b"collapse") {
        Keyword::Collapse
    } else if same_bytes(word, b"narrow") {
        Keyword::Narrow
    } else if same_bytes(word, b"merge") {
        Keyword::Merge
    } else if same_bytes(word, b"encode") {
        Keyword::Encode
    } else if same_bytes(word, b"fill") {
        Keyword::Fill
    } else if same_bytes(word, b"line") {
        Keyword::Line
    } else if same_bytes(word, b"default") {
        Keyword::Default
    } else if same_bytes(word, b"end") {
        Keyword::End
    } else {
        Keyword::Unknown
    }
}
