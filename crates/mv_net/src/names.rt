ghost use Rattle.std.specs.Prelude.{◌≡◌, ℕ, ◌≤◌, [], ◌∷◌, ◌++◌, None, List, length, take, IfOk, OnOk, OnErr, if◌then◌else◌};
ghost use Rattle.mv_base.specs.Names.{same_word};
ghost use Rattle.mv_net.specs.Names.{number_of, named_at, is_named, AreNamed, AreNames, IsFresh};

use crate::FlatNet;
use indexmap::IndexMap;
use mv_base::{MAX_NETS, Memory};
use std::alloc::Global;
use std::marker::Model;

/// The numbers of nets by name, seen as the pairs of a name and a number in the order in which they came.
#[derive(Drop)]
pub struct NameIndex {
    numbers: IndexMap<Vec<u8>, u32>,
}

impl Model for NameIndex {
    ghost use Rattle.std.specs.Prelude.{List, ℕ};

    ghost Value = { List (List ℕ × ℕ) };

    ghost use Rattle.mv_net.specs.Names.{pairs_of};

    ghost view = { λ n. pairs_of n.numbers.entries };
}

impl NameIndex {
    /// No names. It takes no memory.
    pub fn new(alloc: Global) -> Self
        ensures { result ≡ [] }
    {
        NameIndex {
            numbers: IndexMap::new(alloc),
        }
    }

    /// Adds a name that isn't there.
    pub fn add(&mut self, alloc: Global, name: &[u8], number: u32) -> Result<(), Memory>
        requires { number_of self.old name.now ≡ None }
        ensures ok { OnOk result (self.new ≡ self.old ++ (name.now, number) ∷ []) }
        ensures err { OnErr result (self.new ≡ self.old) }
    {
        self.numbers.insert(Vec::from_slice(alloc, name)?, number)?;
        Ok(())
    }

    /// Takes a name out, if it is there.
    pub fn remove(&mut self, name: &[u8])
        ensures { (w : List ℕ)
            → number_of self.new w ≡ (if same_word name.now w then None else number_of self.old w) }
    {
        self.numbers.swap_remove(name);
    }

    /// The number of the net with this name, if there is one.
    pub fn number(&self, name: &[u8]) -> Option<u32>
        ensures { result ≡ number_of self.now name.now }
    {
        self.numbers.get(name).copied()
    }
}

/// Adds the net's name, if it is held.
fn add_net(
    alloc: Global,
    names: &mut NameIndex,
    net: &Option<FlatNet>,
    number: u32,
) -> Result<(), Memory>
    requires { IsFresh names.old net.now }
    ensures ok { OnOk result (names.new ≡ names.old ++ named_at number net.now) }
    ensures err { OnErr result (names.new ≡ names.old) }
{
    match net {
        Some(held) => names.add(alloc, held.name.bytes(), number),
        None => Ok(()),
    }
}

/// Takes the net's name out, if it is held.
pub fn remove_net(names: &mut NameIndex, net: &Option<FlatNet>)
    ensures { (w : List ℕ)
        → number_of names.new w ≡ (if is_named net.now w then None else number_of names.old w) }
{
    if let Some(held) = net {
        names.remove(held.name.bytes());
    }
}

/// Adds the names of the nets from this number on, where no two nets have one name: all, or none on an error.
pub fn add_names(
    alloc: Global,
    names: &mut NameIndex,
    nets: &[Option<FlatNet>],
    long: usize,
) -> Result<(), Memory>
    requires within { long ≤ length nets.now }
    requires few { length nets.now ≤ MAX_NETS }
    requires named { AreNamed nets.now }
    requires known { AreNames (take long nets.now) names.old }
    ensures ok { OnOk result (AreNames nets.now names.new) }
    ensures err { OnErr result (AreNames (take long nets.now) names.new) }
{
    for number in long..nets.len() {
        if let Err(failed) = add_net(alloc, names, &nets[number], number as u32) {
            remove_names(names, &nets[..number], long);
            return Err(failed);
        }
    }
    Ok(())
}

/// Takes the names of the nets from this number on out, the last first.
pub fn remove_names(names: &mut NameIndex, nets: &[Option<FlatNet>], long: usize)
    requires within { long ≤ length nets.now }
    requires known { AreNames nets.now names.old }
    ensures { AreNames (take long nets.now) names.new }
{
    let mut count = nets.len();
    while count > long {
        count -= 1;
        remove_net(names, &nets[count]);
    }
}

/// The numbers of all held nets by name, where no two have one name.
pub fn names_of(alloc: Global, nets: &[Option<FlatNet>]) -> Result<NameIndex, Memory>
    requires named { AreNamed nets.now }
    requires few { length nets.now ≤ MAX_NETS }
    ensures { IfOk result (λ names. AreNames nets.now names) }
{
    let mut names = NameIndex::new(alloc);
    add_names(alloc, &mut names, nets, 0)?;
    Ok(names)
}
