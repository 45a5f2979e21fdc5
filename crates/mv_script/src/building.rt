ghost use Rattle.std.specs.Prelude.{◌≡◌, ◌∷◌, [], length, IfOk, OnOk};
ghost use Rattle.mv_script.specs.Scripts.{items_of};
ghost use Rattle.mv_script.specs.Parts.{parts_of, kinds, braced, spread, IsBalanced, CanStand, height_before};

use crate::Script;
use crate::part::{Braces, Part, PartKind};
use mv_base::{Items, Memory};
use std::alloc::Global;

/// The item with these braces, before the rest.
pub fn braced(alloc: Global, braces: Braces, inside: Script, rest: Script) -> Result<Script, Memory>
    ensures { IfOk result
        (λ script. items_of script ≡ braced braces (items_of inside) (items_of rest)) }
{
    let inside = Box::new(alloc, inside)?;
    let rest = Box::new(alloc, rest)?;
    match braces {
        Braces::Repeat(times) => Ok(Script::Repeat(times, inside, rest)),
        Braces::Better => Ok(Script::Better(inside, rest)),
    }
}

/// Puts a part before what was put together: `inner` within the innermost braces that aren't closed before it, and `outer`
/// behind these and those around them, the innermost last.
#[tactic(auto, using(crate::proofs::Spreads::spreads))]
fn put_before(
    alloc: Global,
    kind: PartKind,
    inner: Script,
    outer: &mut Items<Script>,
) -> Result<Script, Memory>
    requires { CanStand kind (length outer.old) }
    ensures spread { IfOk result
        (λ script. spread (items_of script) outer.new ≡ kind ∷ spread (items_of inner) outer.old) }
    ensures height { OnOk result (length outer.new ≡ height_before kind (length outer.old)) }
{
    match kind {
        PartKind::Do(command) => Ok(Script::Do(command, Box::new(alloc, inner)?)),
        PartKind::Close => {
            outer.push(inner)?;
            Ok(Script::End)
        }
        PartKind::Open(braces) => {
            let Some(rest) = outer.pop() else {
                unreachable!();
            };
            braced(alloc, braces, inner, rest)
        }
    }
}

/// The script of these parts.
pub fn script_of(alloc: Global, mut parts: Items<Part>) -> Result<Script, Memory>
    requires { IsBalanced (kinds parts) 0 }
    ensures { IfOk result (λ script. parts_of (items_of script) ≡ kinds parts) }
{
    let mut inner = Script::End;
    let mut outer = Items::new(alloc);
    while let Some(part) = parts.pop() {
        inner = put_before(alloc, part.kind, inner, &mut outer)?;
    }
    Ok(inner)
}
