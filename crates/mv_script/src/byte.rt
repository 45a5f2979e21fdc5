ghost use Rattle.std.specs.Prelude.{◌≡◌};
ghost use Rattle.mv_script.specs.Texts.{is_blank, is_mark, is_letter, is_strange};

/// Whether the byte is a blank.
fn is_blank(byte: u8) -> bool
    ensures { result ≡ is_blank byte }
{
    byte == b' ' || byte == b'\t' || byte == b'\r' || byte == b'\n'
}

/// Whether the byte is a token of its own.
pub fn is_mark(byte: u8) -> bool
    ensures { result ≡ is_mark byte }
{
    byte == b';' || byte == b'{' || byte == b'}'
}

/// Whether the byte may stand in a word.
pub fn is_letter(byte: u8) -> bool
    ensures { result ≡ is_letter byte }
{
    !(is_blank(byte) || is_mark(byte))
}

/// Whether the byte has no place outside comments.
pub fn is_strange(byte: u8) -> bool
    ensures { result ≡ is_strange byte }
{
    !(is_blank(byte) || byte >= b'!' && byte <= b'~')
}
