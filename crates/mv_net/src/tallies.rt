ghost use Rattle.std.specs.Prelude.{◌≡◌, ℕ, ◌<◌, ◌≤◌, ◌^◌, ◌++◌, map, length, take, slice_set, IfOk, OnOk, OnErr};
ghost use Rattle.mv_net.specs.Nets.{slot, values_in, table_in, table_literals, literals_in};
ghost use Rattle.mv_net.specs.Tallies.{AreTallies};

use crate::FlatNet;
use mv_base::{Items, MAX_NETS, Memory};
use std::alloc::Global;

/// How many values each net has, by number, and how many literals all tables have.
#[derive(Drop)]
pub struct Tallies {
    pub counts: Items<u16>,
    pub literals: u128,
}

/// How many values the net has, and 0 where none is held.
fn values_of(net: &Option<FlatNet>) -> u16
    ensures { result ≡ values_in net.now }
{
    match net {
        Some(held) => held.values,
        None => 0,
    }
}

/// Puts the numbers of values of these nets behind the others: all, or none on an error.
fn add_counts(counts: &mut Items<u16>, nets: &[Option<FlatNet>]) -> Result<(), Memory>
    ensures ok { OnOk result (counts.new ≡ counts.old ++ map values_in nets.now) }
    ensures err { OnErr result (counts.new ≡ counts.old) }
{
    let long = counts.len();
    for net in nets {
        if let Err(_) = counts.push(values_of(net)) {
            counts.truncate(long);
            return Err(Memory);
        }
    }
    Ok(())
}

/// The literals of the net's table.
pub fn literals_of_net(net: &Option<FlatNet>) -> u128
    ensures value { result ≡ table_literals (table_in net.now) }
    ensures few { result ≤ 2 ^ 96 }
{
    match net {
        Some(held) => match &held.table {
            Some(cover) => cover.literals(),
            None => 0,
        },
        None => 0,
    }
}

/// The literals of all tables.
fn literals_in(nets: &[Option<FlatNet>]) -> u128
    requires { length nets.now ≤ MAX_NETS }
    ensures value { result ≡ literals_in nets.now }
    ensures few { (n : ℕ) → table_literals (table_in (slot nets.now n)) ≤ 2 ^ 96 }
{
    let mut total: u128 = 0;
    for net in nets {
        total += literals_of_net(net);
    }
    total
}

/// What is counted over these nets.
pub fn tallies_of(alloc: Global, nets: &[Option<FlatNet>]) -> Result<Tallies, Memory>
    requires { length nets.now ≤ MAX_NETS }
    ensures { IfOk result (λ tallies. AreTallies nets.now tallies) }
{
    let mut counts = Items::new(alloc);
    add_counts(&mut counts, nets)?;
    Ok(Tallies {
        counts,
        literals: literals_in(nets),
    })
}

/// Counts the nets from this number on too: all, or none on an error.
pub fn add_tallies(
    tallies: &mut Tallies,
    nets: &[Option<FlatNet>],
    long: usize,
) -> Result<(), Memory>
    requires within { long ≤ length nets.now }
    requires few { length nets.now ≤ MAX_NETS }
    requires known { AreTallies (take long nets.now) tallies.old }
    ensures ok { OnOk result (AreTallies nets.now tallies.new) }
    ensures err { OnErr result (tallies.new ≡ tallies.old) }
{
    let new = &nets[long..];
    add_counts(&mut tallies.counts, new)?;
    tallies.literals += literals_in(new);
    Ok(())
}

/// Counts the nets from this number on no more.
pub fn remove_tallies(tallies: &mut Tallies, nets: &[Option<FlatNet>], long: usize)
    requires within { long ≤ length nets.now }
    requires few { length nets.now ≤ MAX_NETS }
    requires known { AreTallies nets.now tallies.old }
    ensures { AreTallies (take long nets.now) tallies.new }
{
    tallies.counts.truncate(long);
    tallies.literals -= literals_in(&nets[long..]);
}

/// Puts a net at a place, and answers what stood there.
pub fn replace_net(
    nets: &mut Items<Option<FlatNet>>,
    tallies: &mut Tallies,
    at: usize,
    net: Option<FlatNet>,
) -> Option<FlatNet>
    requires inside { at < length nets.old }
    requires few { length nets.old ≤ MAX_NETS }
    requires tallies { AreTallies nets.old tallies.old }
    ensures before { result ≡ slot nets.old at }
    ensures nets { nets.new ≡ slice_set nets.old at net }
    ensures tallies { AreTallies nets.new tallies.new }
{
    let literals = literals_of_net(&net);
    tallies.counts.replace(at, values_of(&net));
    let before = nets.replace(at, net);
    tallies.literals = tallies.literals - literals_of_net(&before) + literals;
    before
}
