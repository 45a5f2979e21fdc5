ghost use Rattle.std.specs.Prelude.{◌≡◌, ◌++◌, OnOk, OnErr, IfErr, IfOk};
ghost use Rattle.mv_lex.specs.Lines.{is_acceptable as acceptable, line_at};
ghost use Rattle.mv_lex.specs.Steps.{ends_plain as ends_plain_word};

use crate::cutter::{Cutter, begins_one, is_blank, word_in};
use crate::parts::Place;
use crate::{LexFault, LexLine, Lines};
use mv_base::{Items, Name};
use std::alloc::Global;
use std::marker::Model;

/// Cuts the bytes of a file, fed in pieces of any size, into lines of words.
#[derive(Drop)]
pub struct Lexer {
    limit: u64,
    /// How many bytes were read.
    size: u64,
    /// The number of the physical line that is still open.
    here: u32,
    /// The number of the first physical line of the joined line that it belongs to.
    start: u32,
    /// Where in the physical line the next byte stands.
    place: Place,
    /// The text of the joined line, cut into words.
    text: Cutter,
    /// The fault that ended the reading.
    failed: Option<LexFault>,
}

impl Model for Lexer {
    ghost use Rattle.std.specs.Prelude.{◌≤◌, ◌<◌, ◌+◌, ◌-◌, ◌^◌};
    ghost use Rattle.mv_lex.specs.Reading.{Reading};

    ghost Value = { Reading };

    ghost view = { λ s. record { limit = s.limit; size = s.size; here = s.here; start = s.start; place = s.place; cut = s.text; failed = s.failed } };

    ghost invariant = { λ s. (s.here ≤ s.size + 1) × (s.size ≤ s.limit) × (s.limit < 2 ^ 32 - 1) };
}

impl Lexer {
    ghost use Rattle.std.specs.Prelude.{ℕ, ◌<◌, ◌≤◌, ◌-◌, ◌^◌, ◌+◌, ◌⊎◌, List, [], ◌∷◌, length, take, drop, true, false, MatchResult, Some, None, Err};
    ghost use Rattle.std.specs.Bool.{OnTrue};
    ghost use Rattle.mv_lex.specs.declared.lines.LexLine.{LexLine};
    ghost use Rattle.mv_lex.specs.declared.fault.LexFault.{LexFault};
    ghost use Rattle.mv_lex.specs.Words.{finished, no_words};
    ghost use Rattle.mv_lex.specs.Lines.{complete, lines_of, first_fault, end_fault, IsTold};
    ghost use Rattle.mv_lex.specs.Reading.{Reading, IsAfter, GainsLines};
    ghost use Rattle.mv_lex.specs.Steps.{HasRead, TakesLetters, with_letters, TakesWord, with_whole, IsBetween, begins_one, ends_plain, long_with, end_fault_of, held, long_with_bytes, settled};
    ghost use Rattle.mv_lex.specs.Steps.{text_fault, text_step, new_line, next_line, fault_now, stepped, ended, end_now, end_cut};

    /// A lexer that has read nothing yet, and will read so many bytes at most. It takes no memory.
    #[tactic(auto, unfolding(crate::specs::Words::cut_of))]
    pub fn new(alloc: Global, limit: u64) -> Self
        requires { limit < 2 ^ 32 - 1 }
        ensures start { IsAfter result [] }
        ensures limit { result.limit ≡ limit }
    {
        Lexer {
            limit,
            size: 0,
            here: 1,
            start: 1,
            place: Place::Text,
            text: Cutter::new(alloc),
            failed: None,
        }
    }

    /// Reads the bytes of a piece, and adds the lines that end in it: for whichever bytes the lexer
    /// stands behind, it then stands behind those and the piece.
    ///
    /// On an error the lines are as before the call, and each later call gives the same error and adds
    /// nothing. The error is want of memory, or the first fault of all bytes fed.
    pub fn feed(&mut self, piece: &[u8], lines: &mut Lines) -> Result<(), LexFault>
        ensures ok { (bytes : List ℕ) → IsAfter self.old bytes
            → OnOk result (IsAfter self.new (bytes ++ piece.now)) }
        ensures lines { OnOk result
            (GainsLines self.old lines.old lines.new (λ bytes. complete (bytes ++ piece.now))) }
        ensures fault { (bytes : List ℕ) → IsAfter self.old bytes
            → IfErr result (IsTold (first_fault self.old.limit [] (bytes ++ piece.now))) }
        ensures limit { OnOk result (self.new.limit ≡ self.old.limit) }
        ensures again { IfErr result (λ f. self.new.failed ≡ Some f) }
        ensures same { (f : LexFault) → self.old.failed ≡ Some f → result ≡ Err f }
        ensures err { OnErr result (lines.new ≡ lines.old) }
    {
        if let Some(fault) = self.failed {
            return Err(fault);
        }
        let before = lines.list.len();
        match self.read_all(piece, lines) {
            Ok(()) => Ok(()),
            Err(fault) => {
                lines.list.truncate(before);
                self.failed = Some(fault);
                Err(fault)
            }
        }
    }

    /// Ends the bytes, and adds the last line, if it has words and no line feed.
    ///
    /// On an error the lines are as before the call. The error is want of memory, or the fault told at
    /// the end of the bytes, or the one that an earlier call gave.
    #[tactic(auto, using(crate::proofs::After::finishing))]
    pub fn finish(mut self, lines: &mut Lines) -> Result<(), LexFault>
        ensures lines { OnOk result (GainsLines self lines.old lines.new lines_of) }
        ensures fault { (bytes : List ℕ) → IsAfter self bytes
            → MatchResult result (λ _. end_fault bytes ≡ None) (IsTold (end_fault bytes)) }
        ensures same { (f : LexFault) → self.failed ≡ Some f → result ≡ Err f }
        ensures err { OnErr result (lines.new ≡ lines.old) }
    {
        if let Some(fault) = self.failed {
            return Err(fault);
        }
        match self.end_text() {
            Ok(()) => self.give_line(lines),
            Err(fault) => Err(fault),
        }
    }

    /// Reads the bytes up to the first fault.
    fn read_all(&mut self, piece: &[u8], lines: &mut Lines) -> Result<(), LexFault>
        ensures ok { OnOk result (HasRead self.old self.new lines.old lines.new piece.now) }
        ensures fault { (bytes : List ℕ) → IsAfter self.old bytes
            → IfErr result (IsTold (first_fault self.old.limit [] (bytes ++ piece.now))) }
        ensures front { OnErr result (take (length lines.old) lines.new ≡ lines.old) }
    {
        let mut at = 0;
        while at < piece.len() {
            at += self.read_some(&piece[at..], lines)?;
        }
        Ok(())
    }

    /// Reads at once words of one byte at the front of the rest of a piece, each with the space behind it, or a whole word there
    /// with the byte that ends it, or all letters there, or the first byte, and answers how many bytes it read.
    fn read_some(&mut self, rest: &[u8], lines: &mut Lines) -> Result<usize, LexFault>
        requires { 0 < length rest.now }
        ensures some { IfOk result (λ count. (0 < count) × (count ≤ length rest.now)) }
        ensures ok { IfOk result
            (λ count. HasRead self.old self.new lines.old lines.new (take count rest.now)) }
        ensures fault { (bytes : List ℕ) → IsAfter self.old bytes
            → IfErr result (IsTold (first_fault self.old.limit [] (bytes ++ rest.now))) }
        ensures unchanged { OnErr result (lines.new ≡ lines.old) }
    {
        if !self.is_between(rest) {
            return self.read_part(rest, lines);
        }
        if begins_one(rest) {
            return self.read_ones(rest);
        }
        let count = word_in(rest);
        if count == 0 || !ends_word(rest[count]) {
            return self.read_part(rest, lines);
        }
        match self.read_word(&rest[..count], rest[count], lines) {
            Ok(()) => Ok(count + 1),
            Err(fault) => Err(fault),
        }
    }

    /// Whether the bytes read end between two words, and these stand within the limit of the file.
    fn is_between(&self, bytes: &[u8]) -> bool
        ensures { OnTrue result (IsBetween self.now bytes.now) }
    {
        self.place == Place::Text
            && self.limit - self.size >= bytes.len() as u64
            && self.text.is_between()
    }

    /// Reads the words of one byte at the front of these, each with the space behind it, and answers how many bytes that
    /// are: the rows of a table are such words.
    fn read_ones(&mut self, bytes: &[u8]) -> Result<usize, LexFault>
        requires { IsBetween self.old bytes.now }
        ensures within { IfOk result (λ count. count ≤ length bytes.now) }
        ensures some { begins_one bytes.now ≡ true → IfOk result (λ count. 0 < count) }
        ensures ok { (lines : List LexLine)
            → IfOk result (λ count. HasRead self.old self.new lines lines (take count bytes.now)) }
        ensures err { IfErr result (λ f. f ≡ LexFault.Memory) }
    {
        let mut at = 0;
        while begins_one(&bytes[at..]) {
            self.read_one(&bytes[at..])?;
            at += 2;
        }
        Ok(at)
    }

    /// Reads the word of one byte at the front of these and the space behind it.
    fn read_one(&mut self, bytes: &[u8]) -> Result<(), LexFault>
        requires between { IsBetween self.old bytes.now }
        requires one { begins_one bytes.now ≡ true }
        ensures ok { (lines : List LexLine)
            → OnOk result (HasRead self.old self.new lines lines (take 2 bytes.now)) }
        ensures between { OnOk result (IsBetween self.new (drop 2 bytes.now)) }
        ensures err { IfErr result (λ f. f ≡ LexFault.Memory) }
    {
        self.add_word(&bytes[..1])?;
        self.pass()
    }

    /// Reads a plain word between words and the byte that ends it.
    fn read_word(&mut self, word: &[u8], end: u8, lines: &mut Lines) -> Result<(), LexFault>
        requires word { TakesWord self.old word.now }
        requires end { ends_plain end ≡ true }
        ensures ok { OnOk result
            (HasRead self.old self.new lines.old lines.new (word.now ++ end ∷ [])) }
        ensures err { IfErr result (λ f. f ≡ LexFault.Memory) }
        ensures unchanged { OnErr result (lines.new ≡ lines.old) }
    {
        self.add_word(word)?;
        if end == b'\n' {
            self.pass_line(lines)?;
            return Ok(());
        }
        self.pass()
    }

    /// Puts a plain word between words to those that have ended.
    fn add_word(&mut self, word: &[u8]) -> Result<(), LexFault>
        requires { TakesWord self.old word.now }
        ensures ok { OnOk result (self.new ≡ with_whole self.old word.now) }
        ensures err { IfErr result (λ f. f ≡ LexFault.Memory) }
    {
        self.text.add_word(word)?;
        self.size += word.len() as u64;
        Ok(())
    }

    /// Reads all letters at the front of the rest of a piece, or the first byte, and answers how many bytes it read.
    fn read_part(&mut self, rest: &[u8], lines: &mut Lines) -> Result<usize, LexFault>
        requires { 0 < length rest.now }
        ensures some { IfOk result (λ count. (0 < count) × (count ≤ length rest.now)) }
        ensures ok { IfOk result
            (λ count. HasRead self.old self.new lines.old lines.new (take count rest.now)) }
        ensures fault { (bytes : List ℕ) → IsAfter self.old bytes
            → IfErr result (IsTold (first_fault self.old.limit [] (bytes ++ rest.now))) }
        ensures unchanged { OnErr result (lines.new ≡ lines.old) }
    {
        let count = self.letters_in(rest);
        if count == 0 {
            return match self.read(rest[0], lines) {
                Ok(()) => Ok(1),
                Err(fault) => Err(fault),
            };
        }
        match self.add_letters(&rest[..count]) {
            Ok(()) => Ok(count),
            Err(fault) => Err(fault),
        }
    }

    /// How many bytes at the front of these are letters of the word that the text ends with, within its limit and the
    /// limit of the file.
    fn letters_in(&self, bytes: &[u8]) -> usize
        ensures within { result ≤ length bytes.now }
        ensures letters { 0 < result → TakesLetters self.now (take result bytes.now) }
    {
        if self.place != Place::Text {
            return 0;
        }
        let left = self.limit - self.size;
        if left < bytes.len() as u64 {
            return 0;
        }
        self.text.letters_in(bytes)
    }

    /// Adds letters to the word that the text ends with.
    fn add_letters(&mut self, letters: &[u8]) -> Result<(), LexFault>
        requires { TakesLetters self.old letters.now }
        ensures ok { OnOk result (self.new ≡ with_letters self.old letters.now) }
        ensures err { IfErr result (λ f. f ≡ LexFault.Memory) }
    {
        self.text.add_letters(letters)?;
        self.size += letters.len() as u64;
        Ok(())
    }

    /// Reads a byte.
    #[tactic(auto, unfolding(crate::specs::Steps::fault_now, crate::specs::Steps::stepped, crate::specs::Steps::ended))]
    fn read(&mut self, b: u8, lines: &mut Lines) -> Result<(), LexFault>
        ensures ok { OnOk result (self.new ≡ stepped self.old b) }
        ensures clean { OnOk result (fault_now self.old b ≡ None) }
        ensures lines { OnOk result (lines.new ≡ lines.old ++ ended self.old b) }
        ensures err { IfErr result (IsTold (fault_now self.old b)) }
        ensures unchanged { OnErr result (lines.new ≡ lines.old) }
    {
        if self.size >= self.limit {
            return Err(LexFault::TooLarge { line: self.here });
        }
        match self.place {
            Place::Text if b == b'\n' => self.end_line(lines),
            Place::Backslash | Place::Return if b == b'\n' => self.join_line(),
            Place::Comment if b == b'\n' => self.pass_line(lines),
            Place::Comment => self.pass(),
            _ => self.read_text(b),
        }
    }

    /// Reads a byte that changes nothing but how many were read, as one of a comment.
    fn pass(&mut self) -> Result<(), LexFault>
        requires { self.old.size < self.old.limit }
        ensures ok { OnOk result (self.new ≡ record self.old { size = self.old.size + 1 }) }
        ensures err { OnErr result ⊥ }
    {
        self.size += 1;
        Ok(())
    }

    /// Reads the line feed that ends a joined line, in whose text no word may end where it doesn't.
    fn end_line(&mut self, lines: &mut Lines) -> Result<(), LexFault>
        requires { self.old.size < self.old.limit }
        ensures ok { OnOk result (self.new ≡ new_line self.old) }
        ensures clean { OnOk result (end_fault_of self.old.here self.old.cut ≡ None) }
        ensures lines { OnOk result
            (lines.new ≡ lines.old ++ line_at self.old.start (finished self.old.cut)) }
        ensures err { IfErr result (IsTold (end_fault_of self.old.here self.old.cut)) }
        ensures unchanged { OnErr result (lines.new ≡ lines.old) }
    {
        self.text.check_end(self.here)?;
        self.pass_line(lines)
    }

    /// Reads the line feed that ends a joined line, whose end was checked.
    fn pass_line(&mut self, lines: &mut Lines) -> Result<(), LexFault>
        requires { self.old.size < self.old.limit }
        ensures ok { OnOk result (self.new ≡ new_line self.old) }
        ensures lines { OnOk result
            (lines.new ≡ lines.old ++ line_at self.old.start (finished self.old.cut)) }
        ensures err { IfErr result (λ f. f ≡ LexFault.Memory) }
        ensures unchanged { OnErr result (lines.new ≡ lines.old) }
    {
        self.give_line(lines)?;
        self.size += 1;
        self.here += 1;
        self.start = self.here;
        self.place = Place::Text;
        Ok(())
    }

    /// Reads a line feed behind a `\`, which joins the next line to this one.
    fn join_line(&mut self) -> Result<(), LexFault>
        requires { self.old.size < self.old.limit }
        ensures ok { OnOk result (self.new ≡ next_line self.old) }
        ensures err { IfErr result (λ f. f ≡ LexFault.Memory) }
    {
        self.text.take_blank()?;
        self.size += 1;
        self.here += 1;
        self.place = Place::Text;
        Ok(())
    }

    /// Ends the text where the bytes end: a `\` at its end counts as a blank.
    #[tactic(auto, unfolding(crate::specs::Steps::end_now, crate::specs::Steps::end_cut))]
    fn end_text(&mut self) -> Result<(), LexFault>
        ensures ok { OnOk result (self.new ≡ record self.old { cut = end_cut self.old }) }
        ensures fault { MatchResult result (λ _. end_now self.old ≡ None)
            (IsTold (end_now self.old)) }
    {
        match self.place {
            Place::Comment => return Ok(()),
            Place::Text => {}
            Place::Backslash | Place::Return => self.text.take_blank()?,
        }
        self.text.check_end(self.here)
    }

    /// Gives the words of the joined line as a line, if there are any.
    fn give_line(&mut self, lines: &mut Lines) -> Result<(), LexFault>
        ensures ok { OnOk result (self.new ≡ record self.old { cut = no_words }) }
        ensures lines { OnOk result
            (lines.new ≡ lines.old ++ line_at self.old.start (finished self.old.cut)) }
        ensures err { IfErr result (λ f. f ≡ LexFault.Memory) }
        ensures unchanged { OnErr result (lines.new ≡ lines.old) }
    {
        let words = self.text.give()?;
        put_line(lines, self.start, words)
    }

    /// Reads a byte that is no line feed, outside a comment.
    #[tactic(auto, unfolding(crate::specs::Steps::text_fault, crate::specs::Steps::text_step))]
    fn read_text(&mut self, b: u8) -> Result<(), LexFault>
        requires { self.old.size < self.old.limit }
        ensures ok { OnOk result (self.new ≡ text_step self.old b) }
        ensures clean { OnOk result (text_fault self.old b ≡ None) }
        ensures err { IfErr result (IsTold (text_fault self.old b)) }
    {
        if !is_acceptable(b) {
            return Err(LexFault::BadByte {
                line: self.here,
                byte: b,
            });
        }
        if b == b'\r' && self.place == Place::Backslash {
            self.place = Place::Return;
            self.size += 1;
            return Ok(());
        }
        self.settle()?;
        match b {
            b'#' => {
                self.text.check_end(self.here)?;
                self.place = Place::Comment;
            }
            b'\\' => {
                self.text.check_run(self.here)?;
                self.place = Place::Backslash;
            }
            _ => {
                self.text.take(b, self.here)?;
                self.place = Place::Text;
            }
        }
        self.size += 1;
        Ok(())
    }

    /// Takes the bytes that were held back into the text: they are ordinary ones.
    #[tactic(auto, unfolding(crate::specs::Steps::settled))]
    fn settle(&mut self) -> Result<(), LexFault>
        ensures ok { OnOk result (self.new ≡ record self.old { cut = settled self.old }) }
        ensures clean { OnOk result (long_with_bytes self.old.cut (held self.old.place) ≡ false) }
        ensures err { IfErr result (λ f. (f ≡ LexFault.Memory)
            ⊎ ((f ≡ LexFault.LongWord self.old.here)
            × (long_with_bytes self.old.cut (held self.old.place) ≡ true))) }
    {
        match self.place {
            Place::Text | Place::Comment => Ok(()),
            Place::Backslash => self.text.take(b'\\', self.here),
            Place::Return => {
                self.text.take(b'\\', self.here)?;
                self.text.take(b'\r', self.here)
            }
        }
    }
}

/// Adds a line with this number and these words, if there are any.
fn put_line(lines: &mut Lines, number: u32, words: Items<Name>) -> Result<(), LexFault>
    ensures lines { OnOk result (lines.new ≡ lines.old ++ line_at number words) }
    ensures err { IfErr result (λ f. f ≡ LexFault.Memory) }
    ensures unchanged { OnErr result (lines.new ≡ lines.old) }
{
    if words.as_slice().is_empty() {
        return Ok(());
    }
    lines.list.push(LexLine { number, words })?;
    Ok(())
}

/// Whether the byte ends a plain word.
fn ends_word(b: u8) -> bool
    ensures { result ≡ ends_plain_word b }
{
    b == b'\n' || is_blank(b)
}

/// Whether the byte may stand outside a comment.
fn is_acceptable(b: u8) -> bool
    ensures { result ≡ acceptable b }
{
    b == b'\n' || is_blank(b) || (b >= b'!' && b <= b'~')
}
