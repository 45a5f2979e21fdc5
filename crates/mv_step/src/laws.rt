ghost use Rattle.std.specs.Prelude.{◌≡◌, List, All, map};
ghost use Rattle.std.specs.List.{flat_map};
ghost use Rattle.mv_lex.specs.declared.lines.LexLine.{LexLine};
ghost use Rattle.mv_entry.specs.declared.rule.Rule.{Rule};
ghost use Rattle.mv_entry.specs.Entries.{rule_lines};
ghost use Rattle.mv_step.specs.Printed.{IsSayableRule, Lists};

/// The lines of rules, as they are printed, are a certificate of those rules.
pub fn printed_laws()
    ensures { (lines : List LexLine) (rules : List Rule) → All IsSayableRule rules
        → map (λ (l : LexLine). l.words) lines ≡ flat_map rule_lines rules → Lists lines rules }
{}
