ghost use Rattle.std.specs.Prelude.{◌≡◌, ◌⊎◌, ◌∷◌, ◌++◌, [], nat_le, length, true, false, IfOk, IfErr};
ghost use Rattle.std.specs.Bool.{OnTrue};
ghost use Rattle.std.specs.Prelude.{OnOk, OnErr, MatchResult, ◌≤◌, ◌<◌, ◌+◌, take, None, Some};
ghost use Rattle.mv_lex.specs.declared.fault.LexFault.{LexFault};
ghost use Rattle.std.specs.List.{list_all};
ghost use Rattle.mv_lex.specs.Steps.{is_letter as letter, begins_plain, begins_one};
ghost use Rattle.mv_lex.specs.Words.{is_blank as blank, opens as opens_word, closer as closer_of, finished, no_words};

use crate::LexFault;
use crate::parts::Kind;
use mv_base::{Items, MAX_BRACKETED_BYTES, MAX_WORD_BYTES, Memory, Name};
use std::alloc::Global;
use std::marker::Model;

/// Which bytes are ordinary ones of a word.
const LETTERS: [bool; 256] = [
    false, false, false, false, false, false, false, false, false, false, false, false, false,
    false, false, false, false, false, false, false, false, false, false, false, false, false,
    false, false, false, false, false, false, false, true, true, false, true, true, true, true,
    true, true, true, true, true, true, true, true, true, true, true, true, true, true, true, true,
    true, true, true, true, true, true, true, true, true, true, true, true, true, true, true, true,
    true, true, true, true, true, true, true, true, true, true, true, true, true, true, true, true,
    true, true, true, true, false, true, true, true, true, true, true, true, true, true, true,
    true, true, true, true, true, true, true, true, true, true, true, true, true, true, true, true,
    true, true, true, true, true, true, true, true, false, false, false, false, false, false,
    false, false, false, false, false, false, false, false, false, false, false, false, false,
    false, false, false, false, false, false, false, false, false, false, false, false, false,
    false, false, false, false, false, false, false, false, false, false, false, false, false,
    false, false, false, false, false, false, false, false, false, false, false, false, false,
    false, false, false, false, false, false, false, false, false, false, false, false, false,
    false, false, false, false, false, false, false, false, false, false, false, false, false,
    false, false, false, false, false, false, false, false, false, false, false, false, false,
    false, false, false, false, false, false, false, false, false, false, false, false, false,
    false, false, false, false, false, false, false, false, false, false, false, false, false,
    false, false, false, false, false, false,
];

/// Cuts a text, which comes byte by byte, into words.
#[derive(Drop)]
pub struct Cutter {
    alloc: Global,
    /// The words that have ended, with room that stays from line to line.
    words: Vec<Name>,
    /// The bytes of the last word, which may go on.
    word: Vec<u8>,
    /// What that word is.
    kind: Kind,
}

impl Model for Cutter {
    ghost use Rattle.mv_lex.specs.Words.{Cut};

    ghost Value = { Cut };

    ghost view = { λ s. record { words = s.words.items; word = s.word.items; kind = s.kind } };
}

impl Cutter {
    ghost use Rattle.mv_lex.specs.Steps.{ended_word, start_byte, plain_byte, bracketed_byte, with_byte, kind_long, long_with, end_fault_of};

    /// Nothing cut yet. It takes no memory.
    pub fn new(alloc: Global) -> Self
        ensures { result ≡ no_words }
    {
        Cutter {
            alloc,
            words: Vec::new(alloc),
            word: Vec::new(alloc),
            kind: Kind::Start,
        }
    }

    /// Takes the next byte of the text, which stands on this line.
    #[tactic(auto, unfolding(crate::specs::Steps::with_byte, crate::specs::Steps::long_with))]
    pub fn take(&mut self, b: u8, line: u32) -> Result<(), LexFault>
        ensures ok { OnOk result (self.new ≡ with_byte self.old b) }
        ensures short { OnOk result (long_with self.old b ≡ false) }
        ensures err { IfErr result
            (λ f. (f ≡ LexFault.Memory)
            ⊎ ((f ≡ LexFault.LongWord line) × (long_with self.old b ≡ true))) }
    {
        match self.kind {
            Kind::Start => self.take_first(b, line),
            Kind::Plain => self.take_plain(b, line),
            Kind::Bracketed(end) => self.take_bracketed(b, end, line),
        }
    }

    /// Takes a byte behind no word, or behind one of nothing but `!`.
    #[tactic(auto, unfolding(crate::specs::Steps::long_with))]
    fn take_first(&mut self, b: u8, line: u32) -> Result<(), LexFault>
        requires { self.old.kind ≡ Kind.Start }
        ensures ok { OnOk result (self.new ≡ start_byte self.old.words self.old.word b) }
        ensures short { OnOk result (kind_long (length self.old.word) Kind.Start b ≡ false) }
        ensures err { IfErr result
            (λ f. (f ≡ LexFault.Memory)
            ⊎ ((f ≡ LexFault.LongWord line)
            × (kind_long (length self.old.word) Kind.Start b ≡ true))) }
    {
        if is_blank(b) {
            self.check_run(line)?;
            return self.end_word();
        }
        if is_opening(b) {
            return self.add(b, Kind::Bracketed(closer(b)), MAX_BRACKETED_BYTES, line);
        }
        if b == b'!' {
            return self.add(b, Kind::Start, MAX_BRACKETED_BYTES, line);
        }
        self.add(b, Kind::Plain, MAX_WORD_BYTES, line)
    }

    /// Takes a byte behind a part of a word that isn't bracketed.
    fn take_plain(&mut self, b: u8, line: u32) -> Result<(), LexFault>
        requires { self.old.kind ≡ Kind.Plain }
        ensures ok { OnOk result (self.new ≡ plain_byte self.old.words self.old.word b) }
        ensures short { OnOk result (kind_long (length self.old.word) Kind.Plain b ≡ false) }
        ensures err { IfErr result
            (λ f. (f ≡ LexFault.Memory)
            ⊎ ((f ≡ LexFault.LongWord line)
            × (kind_long (length self.old.word) Kind.Plain b ≡ true))) }
    {
        if is_blank(b) {
            return self.end_word();
        }
        self.add(b, Kind::Plain, MAX_WORD_BYTES, line)
    }

    /// Takes a byte behind a part of a bracketed word that ends with `end`.
    fn take_bracketed(&mut self, b: u8, end: u8, line: u32) -> Result<(), LexFault>
        requires { self.old.kind ≡ Kind.Bracketed end }
        ensures ok { OnOk result (self.new ≡ bracketed_byte self.old.words self.old.word end b) }
        ensures short { OnOk result
            (kind_long (length self.old.word) (Kind.Bracketed end) b ≡ false) }
        ensures err { IfErr result (λ f. (f ≡ LexFault.Memory)
            ⊎ ((f ≡ LexFault.LongWord line)
            × (kind_long (length self.old.word) (Kind.Bracketed end) b ≡ true))) }
    {
        if is_blank(b) {
            return Ok(());
        }
        self.add(b, Kind::Bracketed(end), MAX_BRACKETED_BYTES, line)?;
        if b == end {
            return self.end_word();
        }
        Ok(())
    }

    /// Adds a byte to the last word, which is of this kind with it and has at most so many bytes.
    fn add(&mut self, b: u8, kind: Kind, most: u64, line: u32) -> Result<(), LexFault>
        ensures ok { OnOk result
            (self.new ≡ record self.old { word = self.old.word ++ b ∷ []; kind = kind }) }
        ensures short { OnOk result (nat_le most (length self.old.word) ≡ false) }
        ensures err { IfErr result
            (λ f. (f ≡ LexFault.Memory)
            ⊎ ((f ≡ LexFault.LongWord line) × (nat_le most (length self.old.word) ≡ true))) }
    {
        if self.word.len() as u64 >= most {
            return Err(LexFault::LongWord { line });
        }
        self.word.push(b)?;
        self.kind = kind;
        Ok(())
    }

    /// Puts the last word, if it has a byte, to those that have ended.
    fn end_word(&mut self) -> Result<(), LexFault>
        ensures ok { OnOk result (self.new ≡ ended_word self.old.words self.old.word) }
        ensures err { IfErr result (λ f. f ≡ LexFault.Memory) }
    {
        self.kind = Kind::Start;
        if self.word.is_empty() {
            return Ok(());
        }
        let word = Name::new(self.alloc, self.word.as_slice())?;
        self.words.push(word)?;
        self.word.clear();
        Ok(())
    }

    /// How many bytes at the front of these are letters of the last word, within its limit: none where it isn't plain.
    pub fn letters_in(&self, bytes: &[u8]) -> usize
        ensures within { result ≤ length bytes.now }
        ensures letters { list_all letter (take result bytes.now) ≡ true }
        ensures plain { 0 < result → self.now.kind ≡ Kind.Plain }
        ensures short { 0 < result → length self.now.word + result ≤ MAX_WORD_BYTES }
    {
        if self.kind != Kind::Plain {
            return 0;
        }
        if self.word.len() >= MAX_WORD_BYTES as usize {
            return 0;
        }
        let left = MAX_WORD_BYTES as usize - self.word.len();
        letters_at_front(&bytes[..left.min(bytes.len())])
    }

    /// Whether the text ends between two words.
    pub fn is_between(&self) -> bool
        ensures kind { OnTrue result (self.now.kind ≡ Kind.Start) }
        ensures none { OnTrue result (self.now.word ≡ []) }
    {
        self.kind == Kind::Start && self.word.is_empty()
    }

    /// Puts a word to those that have ended, behind no other one.
    pub fn add_word(&mut self, word: &[u8]) -> Result<(), LexFault>
        requires kind { self.old.kind ≡ Kind.Start }
        requires none { self.old.word ≡ [] }
        requires some { 0 < length word.now }
        ensures ok { OnOk result (self.new ≡ ended_word self.old.words word.now) }
        ensures err { IfErr result (λ f. f ≡ LexFault.Memory) }
    {
        let word = name_of(self.alloc, word)?;
        self.words.push(word)?;
        Ok(())
    }

    /// Adds these bytes to the last word.
    pub fn add_letters(&mut self, letters: &[u8]) -> Result<(), LexFault>
        ensures ok { OnOk result
            (self.new ≡ record self.old { word = self.old.word ++ letters.now }) }
        ensures err { IfErr result (λ f. f ≡ LexFault.Memory) }
    {
        self.word.extend_from_slice(letters)?;
        Ok(())
    }

    /// Takes a blank, which ends the last word unless that is a bracketed one.
    #[tactic(auto, unfolding(crate::specs::Steps::with_byte))]
    pub fn take_blank(&mut self) -> Result<(), LexFault>
        ensures ok { OnOk result (self.new ≡ with_byte self.old 32) }
        ensures err { IfErr result (λ f. f ≡ LexFault.Memory) }
    {
        match self.kind {
            Kind::Start | Kind::Plain => self.end_word(),
            Kind::Bracketed(_end) => Ok(()),
        }
    }

    /// Whether a run of `!` is short enough for a word, on this line, where it can't become a bracketed one.
    #[tactic(auto, unfolding(crate::specs::Steps::long_with))]
    pub fn check_run(&self, line: u32) -> Result<(), LexFault>
        ensures { MatchResult result (λ _. long_with self.now 32 ≡ false)
            (λ f. (f ≡ LexFault.LongWord line) × (long_with self.now 32 ≡ true)) }
    {
        match self.kind {
            Kind::Start if self.word.len() as u64 > MAX_WORD_BYTES => Err(LexFault::LongWord {
                line,
            }),
            _ => Ok(()),
        }
    }

    /// Whether the text may end here, on this line: no run of `!` is too long for a word, and no bracket is open.
    #[tactic(auto, unfolding(crate::specs::Steps::end_fault_of, crate::specs::Steps::long_with))]
    pub fn check_end(&self, line: u32) -> Result<(), LexFault>
        ensures { MatchResult result (λ _. end_fault_of line self.now ≡ None)
            (λ f. end_fault_of line self.now ≡ Some f) }
    {
        match self.kind {
            Kind::Start => self.check_run(line),
            Kind::Plain => Ok(()),
            Kind::Bracketed(_end) => Err(LexFault::OpenBracket { line }),
        }
    }

    /// Gives all words of the text, in memory of just their size, and begins anew.
    pub fn give(&mut self) -> Result<Items<Name>, LexFault>
        ensures ok { IfOk result (λ words. words ≡ finished self.old) }
        ensures anew { OnOk result (self.new ≡ no_words) }
        ensures err { IfErr result (λ f. f ≡ LexFault.Memory) }
    {
        self.end_word()?;
        let mut words = Vec::with_capacity(self.alloc, self.words.len())?;
        words.append(&mut self.words)?;
        Ok(Items::of(words))
    }
}

/// The name with these bytes. Most words of a table's rows are of one byte, which is copied as a byte where its count is known.
fn name_of(alloc: Global, bytes: &[u8]) -> Result<Name, Memory>
    ensures { IfOk result (λ name. name ≡ bytes.now) }
{
    if bytes.len() == 1 {
        return Name::new(alloc, &bytes[..1]);
    }
    Name::new(alloc, bytes)
}

/// Whether the byte parts words.
pub fn is_blank(b: u8) -> bool
    ensures { result ≡ blank b }
{
    b == b' ' || b == b'\t' || b == b'\r'
}

/// Whether the byte begins a bracketed word.
fn is_opening(b: u8) -> bool
    ensures { result ≡ opens_word b }
{
    b == b'(' || b == b'{'
}

/// The bracket that ends a word that begins with this one.
fn closer(b: u8) -> u8
    ensures { result ≡ closer_of b }
{
    if b == b'(' { b')' } else { b'}' }
}

/// Whether the byte is an ordinary one of a word, wherever it stands in it but at its front.
fn is_letter(b: u8) -> bool
    ensures { result ≡ letter b }
{
    LETTERS[b as usize]
}

/// Whether these begin with a word of one byte and the space behind it.
pub fn begins_one(bytes: &[u8]) -> bool
    ensures { result ≡ begins_one bytes.now }
{
    match bytes {
        [only, b' ', ..] => begins_word(*only) && is_letter(*only),
        _ => false,
    }
}

/// Whether a word that begins with this byte is a plain one from there on.
fn begins_word(b: u8) -> bool
    ensures { result ≡ begins_plain (b ∷ []) }
{
    !is_opening(b) && b != b'!'
}

/// How many bytes at the front of these make a plain word with a byte behind it, within its limit.
pub fn word_in(bytes: &[u8]) -> usize
    requires { 0 < length bytes.now }
    ensures behind { 0 < result → result < length bytes.now }
    ensures begins { 0 < result → begins_plain (take result bytes.now) ≡ true }
    ensures letters { list_all letter (take result bytes.now) ≡ true }
    ensures short { result ≤ MAX_WORD_BYTES }
{
    if !begins_word(bytes[0]) {
        return 0;
    }
    let count = letters_at_front(&bytes[..bytes.len().min(MAX_WORD_BYTES as usize)]);
    if count == bytes.len() { 0 } else { count }
}

/// How many of the bytes up to the first other one are letters.
fn letters_at_front(bytes: &[u8]) -> usize
    ensures within { result ≤ length bytes.now }
    ensures letters { list_all letter (take result bytes.now) ≡ true }
{
    for (at, b) in bytes.iter().enumerate() {
        if !is_letter(*b) {
            return at;
        }
    }
    bytes.len()
}
