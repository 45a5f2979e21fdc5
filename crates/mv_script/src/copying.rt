ghost use Rattle.std.specs.Prelude.{◌≡◌, IfOk};
ghost use Rattle.mv_script.specs.Scripts.{End, items_of};
ghost use Rattle.mv_script.specs.Copies.{item_before, chained};

use crate::Script;
use crate::building::braced;
use crate::part::Braces;
use mv_base::{Items, Memory};
use mv_entry::Command;
use std::alloc::Global;

/// An item of a script, without those behind it.
#[derive(Drop)]
pub enum Item {
    /// A command.
    Do(Command),
    /// So many runs of what stands inside.
    Repeat(u16, Script),
    /// Runs of what stands inside, while the literals fall.
    Better(Script),
}

impl Script {
    /// A script of the same items. A loop along the items: only braces within braces take stack.
    pub fn copy(&self, alloc: Global) -> Result<Script, Memory>
        ensures { IfOk result (λ script. items_of script ≡ items_of self.now) }
    {
        linked(alloc, copied_items(alloc, self)?)
    }
}

/// The item before the rest.
fn link(alloc: Global, item: Item, rest: Script) -> Result<Script, Memory>
    ensures { IfOk result (λ script. items_of script ≡ item_before item (items_of rest)) }
{
    match item {
        Item::Do(command) => Ok(Script::Do(command, Box::new(alloc, rest)?)),
        Item::Repeat(times, inside) => braced(alloc, Braces::Repeat(times), inside, rest),
        Item::Better(inside) => braced(alloc, Braces::Better, inside, rest),
    }
}

/// The script of these items.
fn linked(alloc: Global, mut list: Items<Item>) -> Result<Script, Memory>
    ensures { IfOk result (λ script. items_of script ≡ chained list End) }
{
    let mut rest = Script::End;
    while let Some(item) = list.pop() {
        rest = link(alloc, item, rest)?;
    }
    Ok(rest)
}

/// The items of the script, each copied.
fn copied_items(alloc: Global, script: &Script) -> Result<Items<Item>, Memory>
    ensures { IfOk result (λ list. chained list End ≡ items_of script.now) }
{
    let mut list = Items::new(alloc);
    let mut items = script;
    loop {
        match items {
            Script::End => return Ok(list),
            Script::Do(command, rest) => {
                list.push(Item::Do(command.copy()?))?;
                items = rest;
            }
            Script::Repeat(times, inside, rest) => {
                let inside = linked(alloc, copied_items(alloc, inside)?)?;
                list.push(Item::Repeat(*times, inside))?;
                items = rest;
            }
            Script::Better(inside, rest) => {
                let inside = linked(alloc, copied_items(alloc, inside)?)?;
                list.push(Item::Better(inside))?;
                items = rest;
            }
        }
    }
}
