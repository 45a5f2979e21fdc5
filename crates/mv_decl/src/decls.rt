ghost use Rattle.std.specs.Prelude.{◌≡◌, ◌<◌, ◌≤◌, ℕ, List, [], ◌∷◌, ◌++◌, false, length, take, IfOk, OnOk, OnErr};
ghost use Rattle.mv_base.specs.declared.limits.TheConstants.{MAX_VALUES as most_values};
ghost use Rattle.mv_base.specs.Names.{among, place_of};
ghost use Rattle.mv_design.specs.Values.{values_of, declared_of, two_values};
ghost use Rattle.mv_decl.specs.Nets.{with_decl, HasValues};
ghost use Rattle.mv_decl.specs.Line.{same_values, is_redeclared};
ghost use Rattle.mv_design.specs.declared.design.Decl.{Decl};

use indexmap::IndexSet;
use mv_base::{Items, Memory, Name};
use mv_design::Decl;
use std::alloc::Global;
use std::marker::Model;

/// Declared nets in the order of their declarations, with the names of their values. Each has one declaration, which is
/// found by the net's name without a walk along the others.
#[derive(Drop)]
pub struct Decls {
    /// The declared nets, each at the place of its declaration.
    nets: IndexSet<Name>,
    list: Items<Decl>,
    /// The values of a net without a declaration.
    two: Items<Name>,
}

impl Model for Decls {
    ghost use Rattle.std.specs.Prelude.{List};
    ghost use Rattle.mv_decl.specs.Nets.{AreListed};
    ghost use Rattle.mv_design.specs.declared.design.Decl.{Decl};

    ghost Value = { List Decl };

    ghost view = { λ d. d.list };

    ghost invariant = { λ d. AreListed d.nets.keys d.list d.two };
}

impl Decls {
    /// No declared net.
    pub fn new(alloc: Global) -> Result<Decls, Memory>
        ensures { IfOk result (λ decls. decls ≡ []) }
    {
        Ok(Decls {
            nets: IndexSet::new(alloc),
            list: Items::new(alloc),
            two: zero_and_one(alloc)?,
        })
    }

    /// The names of the net's values in declared order: `0` and `1`, if it isn't declared.
    pub fn values_of(&self, net: &Name) -> &[Name]
        ensures value { result.now ≡ values_of self.now net.now }
        ensures some { 0 < length result.now }
        ensures within { length result.now ≤ most_values }
    {
        self.values_at(self.place(net))
    }

    /// Whether the net is declared.
    fn contains(&self, net: &Name) -> bool
        ensures { result ≡ among net.now (declared_of self.now) }
    {
        self.place(net).is_some()
    }

    /// The place of the net's declaration, if it has one.
    pub fn place(&self, net: &Name) -> Option<usize>
        ensures { result ≡ place_of net.now (declared_of self.now) }
    {
        if self.list.is_empty() {
            return None;
        }
        self.nets.get_index_of(net)
    }

    /// The names of the values of the nets with a declaration at this place: for many questions after one net, whose place
    /// is looked up once.
    pub fn values_at(&self, place: Option<usize>) -> &[Name]
        ensures value { (net : List ℕ) → place ≡ place_of net (declared_of self.now)
            → result.now ≡ values_of self.now net }
        ensures some { 0 < length result.now }
        ensures within { length result.now ≤ most_values }
    {
        let Some(at) = place else {
            return self.two.as_slice();
        };
        match self.list.get(at) {
            Some(decl) => decl.values.as_slice(),
            None => self.two.as_slice(),
        }
    }

    /// Whether the net is declared, with a number or names of values other than these.
    #[tactic(auto, unfolding(crate::specs::Line::is_redeclared))]
    pub fn is_redeclared(&self, net: &Name, values: &[Name]) -> bool
        ensures { result ≡ is_redeclared self.now values.now net.now }
    {
        self.contains(net) && !same_values(self.values_of(net), values)
    }

    /// Declares the net with these values, unless it is declared already. On an error nothing has changed.
    #[tactic(auto, unfolding(crate::specs::Nets::with_decl))]
    pub(crate) fn add(&mut self, net: &Name, values: &Items<Name>) -> Result<(), Memory>
        requires some { 0 < length values.now }
        requires within { length values.now ≤ most_values }
        ensures ok { OnOk result
            (self.new ≡ with_decl self.old (record { net = net.now; values = values.now })) }
        ensures err { OnErr result (self.new ≡ self.old) }
    {
        if self.contains(net) {
            return Ok(());
        }
        self.push(Decl {
            net: net.copy()?,
            values: values.copy_names()?,
        })
    }

    /// Puts a declaration behind the others. On an error nothing has changed.
    fn push(&mut self, decl: Decl) -> Result<(), Memory>
        requires new { among decl.net (declared_of self.old) ≡ false }
        requires values { HasValues decl }
        ensures ok { OnOk result (self.new ≡ self.old ++ decl ∷ []) }
        ensures err { OnErr result (self.new ≡ self.old) }
    {
        push_to(&mut self.nets, &mut self.list, decl)
    }

    /// How many nets are declared.
    pub(crate) fn len(&self) -> usize
        ensures { result ≡ length self.now }
    {
        self.list.len()
    }

    /// Keeps the first `len` declarations.
    #[tactic(auto, using(crate::proofs::Kept::listed))]
    pub(crate) fn truncate(&mut self, len: usize)
        ensures { self.new ≡ take len self.old }
    {
        self.nets.truncate(len);
        self.list.truncate(len);
    }

    /// The declarations in order.
    pub fn finish(self) -> Items<Decl>
        ensures { result ≡ self }
    {
        self.list
    }
}

/// The two values of a net without a declaration.
pub(crate) fn zero_and_one(alloc: Global) -> Result<Items<Name>, Memory>
    ensures { IfOk result (λ two. two ≡ two_values) }
{
    let mut two = Items::new(alloc);
    two.push(Name::new(alloc, b"0")?)?;
    two.push(Name::new(alloc, b"1")?)?;
    Ok(two)
}

/// Whether these are the same names in the same order.
fn same_values(a: &[Name], b: &[Name]) -> bool
    ensures { result ≡ same_values a.now b.now }
{
    a == b
}

/// Puts the declaration of a new net behind the others, and the net behind theirs. On an error the declarations are as
/// before, and so are the nets.
#[tactic(auto, using(crate::proofs::Kept::listed))]
fn push_to(nets: &mut IndexSet<Name>, list: &mut Items<Decl>, decl: Decl) -> Result<(), Memory>
    requires listed { nets.old.keys ≡ declared_of list.old }
    requires new { among decl.net (declared_of list.old) ≡ false }
    ensures list { OnOk result (list.new ≡ list.old ++ decl ∷ []) }
    ensures nets { nets.new.keys ≡ declared_of list.new }
    ensures err { OnErr result (list.new ≡ list.old) }
{
    let net = decl.net.copy()?;
    list.push(decl)?;
    match nets.insert(net) {
        Ok(_new) => Ok(()),
        Err(_failed) => {
            list.pop();
            Err(Memory)
        }
    }
}
