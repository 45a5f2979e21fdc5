//! Declarations that stand elsewhere, found by name.
ghost use Rattle.std.specs.Prelude.{◌≡◌, ◌<◌, ◌≤◌, ◌++◌, ◌∷◌, [], length, slice_get, IfOk, IfSome, OnOk, All};
ghost use Rattle.mv_base.specs.Names.{place_of};
ghost use Rattle.mv_base.specs.declared.limits.TheConstants.{MAX_VALUES as most_values};
ghost use Rattle.mv_design.specs.Values.{values_of, declared_of};
ghost use Rattle.mv_decl.specs.Nets.{HasValues, AreFirst};

use crate::decls::zero_and_one;
use indexmap::IndexMap;
use mv_base::{Items, Memory, Name};
use mv_design::Decl;
use std::alloc::Global;
use std::marker::Model;

/// A list of declarations, among which a net may stand more than once, with the place of each net's first one, which counts.
/// It copies the names of nets alone.
#[derive(Drop)]
pub struct Declared<'a> {
    places: IndexMap<Name, usize>,
    decls: &'a [Decl],
    /// The values of a net without a declaration.
    two: Items<Name>,
}

impl<'a> Model for Declared<'a> {
    ghost use Rattle.std.specs.Prelude.{List};
    ghost use Rattle.mv_decl.specs.Nets.{AreIndexed};
    ghost use Rattle.mv_design.specs.declared.design.Decl.{Decl};

    ghost Value = { List Decl };

    ghost view = { λ d. d.decls.now };

    ghost invariant = { λ d. AreIndexed d.places d.decls.now d.two };
}

impl<'a> Declared<'a> {
    /// The places of these declarations.
    pub fn of(alloc: Global, decls: &'a [Decl]) -> Result<Declared<'a>, Memory>
        requires { All (λ d. HasValues d) decls.now }
        ensures { IfOk result (λ declared. declared ≡ decls.now) }
    {
        Ok(Declared {
            places: first_places(alloc, decls)?,
            decls,
            two: zero_and_one(alloc)?,
        })
    }

    /// The names of the net's values in declared order: `0` and `1`, if it isn't declared.
    pub fn values_of(&self, net: &Name) -> &[Name]
        ensures value { result.now ≡ values_of self.now net.now }
        ensures some { 0 < length result.now }
        ensures within { length result.now ≤ most_values }
    {
        match self.place(net) {
            Some(at) => declared_at(self.decls, at),
            None => self.two.as_slice(),
        }
    }

    /// The place of the net's first declaration, if it has one.
    fn place(&self, net: &Name) -> Option<usize>
        ensures { result ≡ place_of net.now (declared_of self.now) }
    {
        if self.decls.is_empty() {
            return None;
        }
        self.places.get(net).copied()
    }
}

/// The values of the declaration at the place.
fn declared_at(list: &[Decl], at: usize) -> &[Name]
    requires { at < length list.now }
    ensures { IfSome (slice_get list.now at) (λ d. result.now ≡ d.values) }
{
    list[at].values.as_slice()
}

/// The place of the first declaration of each net.
#[tactic(auto, using(crate::proofs::Firsts::firsts))]
fn first_places(alloc: Global, decls: &[Decl]) -> Result<IndexMap<Name, usize>, Memory>
    ensures { IfOk result (λ places. AreFirst places decls.now) }
{
    let mut places = IndexMap::new(alloc);
    for (place, decl) in decls.iter().enumerate() {
        put_place(&mut places, &decls[..place], decl)?;
    }
    Ok(places)
}

/// Puts the place of a declaration behind these to the places, if it is its net's first.
#[tactic(auto, using(crate::proofs::Firsts::firsts))]
fn put_place(places: &mut IndexMap<Name, usize>, before: &[Decl], decl: &Decl) -> Result<(), Memory>
    requires { AreFirst places.old before.now }
    ensures { OnOk result (AreFirst places.new (before.now ++ decl.now ∷ [])) }
{
    if !places.contains_key(&decl.net) {
        places.insert(decl.net.copy()?, before.len())?;
    }
    Ok(())
}
