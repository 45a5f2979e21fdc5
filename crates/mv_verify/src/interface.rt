ghost use Rattle.std.specs.Prelude.{◌≡◌, IsTrue, MatchBool, map};
ghost use Rattle.mv_net.specs.Index.{is_held};
ghost use Rattle.mv_net.specs.Nets.{port_of, latch_port_of, interface_of, name_in, spelled_in};
ghost use Rattle.mv_net.specs.Nets.{slot};
ghost use Rattle.mv_net.specs.Formed.{AllLatches};
ghost use Rattle.mv_net.specs.Searching.{AreHeld};

use mv_base::{Name, NetId, same_bytes};
use mv_net::{FlatLatch, Network};

/// Whether these are the same names in the same order.
fn same_names(b: &[Name], a: &[Name]) -> bool
    ensures { MatchBool result (b.now ≡ a.now) (b.now ≡ a.now → ⊥) }
{
    b == a
}

/// Whether the nets have the same values, as a file spells them.
fn same_values(b: &Network, n: NetId, a: &Network, m: NetId) -> bool
    requires held_in_b { IsTrue (is_held b.now.nets n.0) }
    requires held_in_a { IsTrue (is_held a.now.nets m.0) }
    ensures { let same = spelled_in (slot b.now.nets n.0) ≡ spelled_in (slot a.now.nets m.0) in
        MatchBool result same (same → ⊥) }
{
    b.well_formed();
    a.well_formed();
    if b.values(n) != a.values(m) {
        return false;
    }
    same_names(b.value_names(n), a.value_names(m))
}

/// Whether the nets look alike from outside: they have the same name and the same values.
fn same_port(b: &Network, n: NetId, a: &Network, m: NetId) -> bool
    requires held_in_b { IsTrue (is_held b.now.nets n.0) }
    requires held_in_a { IsTrue (is_held a.now.nets m.0) }
    ensures { let same = port_of b.now.nets n ≡ port_of a.now.nets m in
        MatchBool result same (same → ⊥) }
{
    if !same_bytes(b.name(n), a.name(m)) {
        return false;
    }
    same_values(b, n, a, m)
}

/// Whether the lists of inputs or outputs look alike from outside.
fn same_ports(b: &Network, of_b: &[NetId], a: &Network, of_a: &[NetId]) -> bool
    requires held_in_b { AreHeld b.now.nets of_b.now }
    requires held_in_a { AreHeld a.now.nets of_a.now }
    ensures { let same = map (port_of b.now.nets) of_b.now ≡ map (port_of a.now.nets) of_a.now in
        MatchBool result same (same → ⊥) }
{
    if of_b.len() != of_a.len() {
        return false;
    }
    for place in 0..of_b.len() {
        if !same_port(b, of_b[place], a, of_a[place]) {
            return false;
        }
    }
    true
}

/// Whether the latches look alike from outside: their outputs do, and both or none have a reset table.
fn same_latch(b: &Network, l: &FlatLatch, a: &Network, m: &FlatLatch) -> bool
    requires held_in_b { IsTrue (is_held b.now.nets l.now.output.0) }
    requires held_in_a { IsTrue (is_held a.now.nets m.now.output.0) }
    ensures { let same = latch_port_of b.now.nets l.now ≡ latch_port_of a.now.nets m.now in
        MatchBool result same (same → ⊥) }
{
    if l.reset.is_some() != m.reset.is_some() {
        return false;
    }
    same_port(b, l.output, a, m.output)
}

/// Whether the lists of latches look alike from outside.
fn same_latches(b: &Network, a: &Network) -> bool
    ensures { let same = map (latch_port_of b.now.nets) b.now.latches
        ≡ map (latch_port_of a.now.nets) a.now.latches in
        MatchBool result same (same → ⊥) }
{
    b.well_formed();
    a.well_formed();
    let (of_b, of_a) = (b.latches(), a.latches());
    if of_b.len() != of_a.len() {
        return false;
    }
    for place in 0..of_b.len() {
        if !same_latch(b, &of_b[place], a, &of_a[place]) {
            return false;
        }
    }
    true
}

/// Whether the networks look alike from outside.
pub fn same_interface(b: &Network, a: &Network) -> bool
    ensures { let same = interface_of b.now ≡ interface_of a.now in
        MatchBool result same (same → ⊥) }
{
    b.well_formed();
    a.well_formed();
    if !same_ports(b, b.inputs(), a, a.inputs()) {
        return false;
    }
    if !same_ports(b, b.outputs(), a, a.outputs()) {
        return false;
    }
    same_latches(b, a)
}
