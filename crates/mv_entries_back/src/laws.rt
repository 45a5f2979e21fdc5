ghost use Rattle.std.specs.Prelude.{◌≡◌, ◌≤◌, ℕ, true, None, List, length, All};
ghost use Rattle.mv_base.specs.Names.{is_net_name};
ghost use Rattle.mv_base.specs.declared.limits.TheConstants.{MAX_WORD_BYTES};
ghost use Rattle.mv_lex.specs.Lines.{lines_of, lex_fault};
ghost use Rattle.mv_entry.specs.Entries.{Entry, print};
ghost use Rattle.mv_step.specs.Certificates.{fault_of, steps_of};
ghost use Rattle.mv_entries_back.specs.Printable.{is_text_name, Printable};
ghost use Rattle.mv_entries_back.specs.Told.{steps_told};

/// A lawful name of a net can be printed, if it isn't longer than a word may be.
pub fn name_laws()
    ensures { (w : List ℕ) → is_net_name w ≡ true → length w ≤ MAX_WORD_BYTES
        → is_text_name w ≡ true }
{}

/// The text of entries has no lexical fault where it isn't longer than a limit, and no other entries have the same text. The
/// notes are told from each other too.
pub fn print_laws()
    ensures faultless { (limit : ℕ) (es : List Entry) → All Printable es
        → length (print es) ≤ limit → lex_fault limit (print es) ≡ None }
    ensures apart { (es fs : List Entry) → All Printable es → All Printable fs
        → print es ≡ print fs → es ≡ fs }
{}

/// The lines of the text of entries are a certificate. They list the rules among the entries, in order, each with the number of
/// its first line.
pub fn certificate_laws()
    ensures faultless { (es : List Entry) → All Printable es
        → fault_of (lines_of (print es)) ≡ None }
    ensures steps { (es : List Entry) → All Printable es
        → steps_of (lines_of (print es)) ≡ steps_told 1 es }
{}
