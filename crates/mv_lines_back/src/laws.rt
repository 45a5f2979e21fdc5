ghost use Rattle.std.specs.Prelude.{◌≡◌, ◌≤◌, ℕ, true, false, None, List, length};
ghost use Rattle.std.specs.List.{list_all, list_any, flat_map};
ghost use Rattle.mv_lex.specs.Words.{is_long};
ghost use Rattle.mv_lex.specs.Lines.{lines_of, is_clean, lex_fault};
ghost use Rattle.mv_lex.specs.Text.{line_text};
ghost use Rattle.mv_lines_back.specs.TextWords.{is_text_line, lines_told};

/// A text of lines whose words are read back as they are written, and of comment lines: its lines are those that aren't
/// comments, each with its number; its bytes are accepted, and it has no fault at all where it and its words aren't too long;
/// and no other such lines have the same text.
pub fn text_laws()
    ensures lines { (ls : List (List (List ℕ))) → list_all is_text_line ls ≡ true
        → lines_of (flat_map line_text ls) ≡ lines_told 1 ls }
    ensures clean { (ls : List (List (List ℕ))) → list_all is_text_line ls ≡ true
        → is_clean (flat_map line_text ls) ≡ true }
    ensures faultless { (limit : ℕ) (ls : List (List (List ℕ))) → list_all is_text_line ls ≡ true
        → list_any (list_any is_long) ls ≡ false → length (flat_map line_text ls) ≤ limit
        → lex_fault limit (flat_map line_text ls) ≡ None }
    ensures apart { (ls ms : List (List (List ℕ))) → list_all is_text_line ls ≡ true
        → list_all is_text_line ms ≡ true
        → flat_map line_text ls ≡ flat_map line_text ms → ls ≡ ms }
{}
