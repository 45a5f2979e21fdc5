ghost use Rattle.std.specs.Prelude.{◌≡◌};
ghost use Rattle.mv_script.specs.Commands.{has_command};
ghost use Rattle.mv_script.specs.Scripts.{items_of};

use crate::Script;

/// Whether there is a command in the script, be it within braces.
pub fn has_command(script: &Script) -> bool
    ensures { result ≡ has_command (items_of script.now) }
{
    let mut items = script;
    loop {
        match items {
            Script::End => return false,
            Script::Do(_, _) => return true,
            Script::Repeat(_, inside, rest) => {
                if has_command(inside) {
                    return true;
                }
                items = rest;
            }
            Script::Better(inside, rest) => {
                if has_command(inside) {
                    return true;
                }
                items = rest;
            }
        }
    }
}
