ghost use Rattle.std.specs.Prelude.{◌≡◌, ◌≤◌, true, false, List, []};
ghost use Rattle.mv_entry.specs.declared.note.Command.{Command};
ghost use Rattle.mv_entry.specs.Entries.{Entry, rules_of};
ghost use Rattle.mv_net.specs.declared.parts.NetParts.{NetParts};
ghost use Rattle.mv_net.specs.Formed.{WellFormed};
ghost use Rattle.mv_net.specs.Nets.{literals_in};
ghost use Rattle.mv_pass.specs.Courses.{Nothing};
ghost use Rattle.mv_script_run.specs.Commands.{DoesCommand, leaves_no_more};
ghost use Rattle.mv_script_run.specs.Runs.{Runs, RunsTo};
ghost use Rattle.mv_rules.specs.Replaying.{Replays};
ghost use Rattle.mv_rules.specs.declared.terms.Terms.{Terms};
ghost use Rattle.mv_script.specs.Commands.{all_commands, has_command};
ghost use Rattle.mv_script.specs.Scripts.{Items};

/// The rules among the entries of a script apply in turn, where it ran and where it stopped.
pub fn entries_replay()
    ensures runs { (terms : Terms) (items : Items) (old new : NetParts) (entries : List Entry)
        → Runs terms items old entries new
        → Replays terms.free (rules_of entries) old new }
    ensures stops { (terms : Terms) (items : Items) (old new : NetParts) (entries : List Entry)
        → RunsTo terms items old entries new
        → Replays terms.free (rules_of entries) old new }
{}

/// No command but `determinize` and `encode` leaves more literals than there were, and no script without these two does.
pub fn no_more_literals()
    ensures commands { (terms : Terms) (command : Command) (old new : NetParts)
        (entries : List Entry) → leaves_no_more command ≡ true
        → WellFormed old → DoesCommand terms command old entries new
        → literals_in new.nets ≤ literals_in old.nets }
    ensures scripts { (terms : Terms) (items : Items) (old new : NetParts) (entries : List Entry)
        → all_commands leaves_no_more items ≡ true
        → WellFormed old → Runs terms items old entries new
        → literals_in new.nets ≤ literals_in old.nets }
{}

/// A script without a command does nothing, also in braces, and nothing else.
pub fn idle_items()
    ensures does { (terms : Terms) (items : Items) (net : NetParts) → has_command items ≡ false
        → Runs terms items net [] net }
    ensures nothing { (terms : Terms) (items : Items) (old new : NetParts) (entries : List Entry)
        → has_command items ≡ false
        → Runs terms items old entries new → Nothing old entries new }
{}
