ghost use Rattle.std.specs.Prelude.{◌≡◌, ◌≤◌, length, true, IfOk, IfSome};
ghost use Rattle.mv_base.specs.Names.{among, place_of};
ghost use Rattle.mv_base.specs.declared.limits.TheConstants.{MAX_NETS};
ghost use Rattle.mv_acyclic.specs.Numbers.{net_in, numbers_in};
ghost use Rattle.mv_acyclic.specs.Glance.{are_known};

use mv_base::{Items, MAX_NETS, Memory, Name, NameSet, NetId};
use std::alloc::Global;
use std::marker::Model;

/// Nets by number: each has its place among names as its number.
#[derive(Drop)]
pub struct Numbers {
    names: NameSet,
}

impl Model for Numbers {
    ghost use Rattle.std.specs.Prelude.{List, ℕ};

    ghost Value = { List (List ℕ) };

    ghost view = { λ n. n.names };
}

impl Numbers {
    /// The nets with these names, in their order.
    pub fn of_names(names: NameSet) -> Self
        ensures { result ≡ names }
    {
        Numbers { names }
    }

    /// The number of a net; it is 0 for a name that isn't one of them.
    #[tactic(auto, unfolding(crate::specs::Numbers::number_in))]
    pub fn of(&self, net: &Name) -> NetId
        requires { length self.now ≤ MAX_NETS }
        ensures { result ≡ net_in self.now net.now }
    {
        match self.names.place(net) {
            Some(place) => NetId(place as u32),
            None => NetId(0),
        }
    }

    /// The place of the name among those of the nets, if it is one of them.
    pub fn place(&self, name: &Name) -> Option<usize>
        ensures { result ≡ place_of name.now self.now }
    {
        self.names.place(name)
    }

    /// Whether the name is that of one of the nets.
    pub fn has(&self, name: &Name) -> bool
        ensures { result ≡ among name.now self.now }
    {
        self.names.contains(name)
    }

    /// How many nets there are.
    pub fn len(&self) -> usize
        ensures { result ≡ length self.now }
    {
        self.names.len()
    }

    /// The numbers of nets, in order.
    pub fn list(&self, alloc: Global, nets: &[Name]) -> Result<Items<NetId>, Memory>
        requires { length self.now ≤ MAX_NETS }
        ensures { IfOk result (λ numbers. numbers ≡ numbers_in self.now nets.now) }
    {
        let mut numbers = Items::with_room(alloc, nets.len())?;
        for net in nets {
            numbers.push(self.of(net))?;
        }
        Ok(numbers)
    }

    /// The numbers of nets, in order, if each of them has one.
    pub fn known(&self, alloc: Global, nets: &[Name]) -> Result<Option<Items<NetId>>, Memory>
        requires { length self.now ≤ MAX_NETS }
        ensures numbers { IfOk result
            (λ found. IfSome found (λ numbers. numbers ≡ numbers_in self.now nets.now)) }
        ensures known { IfOk result
            (λ found. IfSome found (λ numbers. are_known self.now nets.now ≡ true)) }
    {
        let mut numbers = Items::with_room(alloc, nets.len())?;
        for net in nets {
            let Some(place) = self.place(net) else {
                return Ok(None);
            };
            numbers.push(numbered(place))?;
        }
        Ok(Some(numbers))
    }
}

/// The net with this number.
fn numbered(number: usize) -> NetId
    requires { number ≤ MAX_NETS }
    ensures { result ≡ record { 0 = number } }
{
    NetId(number as u32)
}
