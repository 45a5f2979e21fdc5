/// Where the next byte stands in its physical line.
#[derive(Clone, Copy, Debug, PartialEq, Eq)]
pub enum Place {
    /// In the text of the line, of which each byte before it is certain.
    Text,
    /// Behind a `\`, which joins the next line to this one if this one ends here.
    Backslash,
    /// Behind a `\` and a carriage return, of which the same is true.
    Return,
    /// In a comment.
    Comment,
}

/// What the word at the end of a text is, as far as one can tell.
#[derive(Clone, Copy, Debug, PartialEq, Eq)]
pub enum Kind {
    /// No byte yet, or nothing but `!`: it may still become a bracketed word.
    Start,
    /// A word that ends at a blank.
    Plain,
    /// A bracketed word, which ends with this byte.
    Bracketed(u8),
}
