ghost use Rattle.std.specs.Prelude.{◌≡◌, true, List};
ghost use Rattle.mv_entry.specs.Entries.{Entry};
ghost use Rattle.mv_net.specs.declared.parts.NetParts.{NetParts};
ghost use Rattle.mv_net.specs.Formed.{WellFormed};
ghost use Rattle.mv_noted.specs.Noted.{IsCertificateOf};
ghost use Rattle.mv_rules_back.specs.Names.{HasWordNames};
ghost use Rattle.mv_rules.specs.declared.terms.Terms.{Terms};
ghost use Rattle.mv_script_run.specs.Runs.{Runs};
ghost use Rattle.mv_script.specs.Commands.{are_lawful};
ghost use Rattle.mv_script.specs.Scripts.{Items};

/// The notes of a lawful script that led from one network to another are a certificate of it, with the done line behind them, where
/// names of nets are no longer than words and the notes have no more bytes than a certificate may have. Their rules are those that
/// applied, and each other line is a comment to who reads it, since all its words can be seen.
pub fn notes_certify()
    ensures { (terms : Terms) (items : Items) (first net : NetParts) (entries : List Entry)
        → are_lawful items ≡ true → WellFormed first → HasWordNames first.nets
        → Runs terms items first entries net → IsCertificateOf terms.free entries first net }
{}
