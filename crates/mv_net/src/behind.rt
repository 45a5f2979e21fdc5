//! The literals that a network would have behind a change.
ghost use Rattle.std.specs.Prelude.{◌≡◌, ◌+◌, ◌*◌, ◌≤◌, ◌^◌, length};
ghost use Rattle.mv_net.specs.Behind.{literals_at, literals_gone, literals_before, literals_given, literals_added};
ghost use Rattle.mv_net.specs.Changes.{changed, Fits};
ghost use Rattle.mv_net.specs.Nets.{literals_in};

use crate::tallies::literals_of_net;
use crate::{Change, FlatNet, Network, NewNet, NewTable};
use mv_base::{MAX_NETS, NetId};

impl Network {
    /// The literals that the network would have behind the change. No memory. It costs what the change names: the tables
    /// that it brings, and those of the nets that get others or go.
    pub fn literals_behind(&self, change: &Change) -> u128
        requires few { length self.now.nets + length change.now.add ≤ MAX_NETS }
        requires fits { Fits self.now change.now }
        ensures { result ≡ literals_in (changed self.now change.now).nets }
    {
        self.few_literals();
        let nets = self.parts().nets.as_slice();
        let set = change.set.as_slice();
        let lost = literals_gone(nets, change.gone.as_slice()) + literals_before(nets, set);
        let won = literals_given(set) + literals_added(change.add.as_slice());
        self.literals() + won - lost
    }
}

/// The literals of the net of this number.
fn literals_at(nets: &[Option<FlatNet>], n: NetId) -> u128
    ensures value { result ≡ literals_at nets.now n }
    ensures few { result ≤ 2 ^ 96 }
{
    match nets.get(n.0 as usize) {
        Some(net) => literals_of_net(net),
        None => 0,
    }
}

/// The literals of the nets of these numbers, of each as often as it is listed.
fn literals_gone(nets: &[Option<FlatNet>], gone: &[NetId]) -> u128
    requires { length gone.now ≤ MAX_NETS }
    ensures value { result ≡ literals_gone nets.now gone.now }
    ensures few { result ≤ 2 ^ 96 * MAX_NETS }
{
    let mut total: u128 = 0;
    for n in gone {
        total += literals_at(nets, *n);
    }
    total
}

/// The literals of the nets that these tables are for, of each as often as it is listed.
fn literals_before(nets: &[Option<FlatNet>], set: &[NewTable]) -> u128
    requires { length set.now ≤ MAX_NETS }
    ensures value { result ≡ literals_before nets.now set.now }
    ensures few { result ≤ 2 ^ 96 * MAX_NETS }
{
    let mut total: u128 = 0;
    for new in set {
        total += literals_at(nets, new.net);
    }
    total
}

/// The literals of these tables.
fn literals_given(set: &[NewTable]) -> u128
    requires { length set.now ≤ MAX_NETS }
    ensures value { result ≡ literals_given set.now }
    ensures few { result ≤ 2 ^ 96 * MAX_NETS }
{
    let mut total: u128 = 0;
    for new in set {
        total += new.table.literals();
    }
    total
}

/// The literals of these nets' tables.
fn literals_added(add: &[NewNet]) -> u128
    requires { length add.now ≤ MAX_NETS }
    ensures value { result ≡ literals_added add.now }
    ensures few { result ≤ 2 ^ 96 * MAX_NETS }
{
    let mut total: u128 = 0;
    for new in add {
        total += new.table.literals();
    }
    total
}
