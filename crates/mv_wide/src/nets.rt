ghost use Rattle.std.specs.Prelude.{◌≡◌, ◌<◌, ◌||◌, ◌^◌, ℕ, true, nat_eq, length, IfOk, IsTrue, OnOk};
ghost use Rattle.mv_graph.specs.Nets.{all_differ, has_id};
ghost use Rattle.mv_net.specs.Index.{is_held};
ghost use Rattle.mv_net.specs.Nets.{reads_in};
ghost use Rattle.mv_net.specs.Searching.{AreHeld};
ghost use Rattle.mv_wide.specs.Inners.{AreNumbered, counts_of, touches};

use indexmap::IndexSet;
use mv_base::{Memory, NetId};
use mv_net::Network;
use std::alloc::Global;

/// Puts these nets into the set.
fn insert_all(found: &mut IndexSet<NetId>, nets: &[NetId]) -> Result<(), Memory>
    ensures { OnOk result ((m : ℕ) → has_id found.new.keys m
        ≡ (has_id found.old.keys m || has_id nets.now m)) }
{
    for net in nets {
        found.insert(*net)?;
    }
    Ok(())
}

/// Puts the nets that a table reads, and then the table, into the set.
fn insert_table(found: &mut IndexSet<NetId>, net: &Network, table: NetId) -> Result<(), Memory>
    requires { IsTrue (is_held net.now.nets table.0) }
    ensures { OnOk result ((m : ℕ) → has_id found.new.keys m
        ≡ (has_id found.old.keys m || (reads_in net.now.nets table.0 m || nat_eq table.0 m))) }
{
    insert_all(found, net.fanins(table))?;
    found.insert(table)?;
    Ok(())
}

/// The nets of these tables and of their fanins: before each table those that it reads, where they don't stand elsewhere
/// already.
pub fn nets_of(net: &Network, tables: &[NetId]) -> Result<IndexSet<NetId>, Memory>
    requires { AreHeld net.now.nets tables.now }
    ensures members { IfOk result (λ found. (m : ℕ)
        → has_id found.keys m ≡ touches net.now.nets tables.now m) }
    ensures once { IfOk result (λ found. all_differ found.keys ≡ true) }
{
    let mut found = IndexSet::new(net.parts().nets.allocator());
    for table in tables {
        insert_table(&mut found, net, *table)?;
    }
    // no net stands twice
    let _ = found.len();
    Ok(found)
}

/// For each of so many numbers the place of its net among these, which is its variable.
pub fn vars_of(alloc: Global, nets: &[NetId], count: usize) -> Result<Vec<u32>, Memory>
    requires few { length nets.now < 2 ^ 32 }
    requires below { (m : ℕ) → has_id nets.now m ≡ true → m < count }
    requires once { all_differ nets.now ≡ true }
    ensures long { IfOk result (λ vars. length vars.items ≡ count) }
    ensures each { IfOk result (λ vars. AreNumbered vars.items nets.now (length nets.now)) }
{
    let mut vars = Vec::new(alloc);
    vars.resize(count, 0)?;
    for (place, net) in nets.iter().enumerate() {
        vars[net.0 as usize] = place as u32;
    }
    Ok(vars)
}

/// The numbers of values of these nets.
pub fn counts_of(alloc: Global, net: &Network, nets: &[NetId]) -> Result<Vec<u16>, Memory>
    requires { AreHeld net.now.nets nets.now }
    ensures { IfOk result (λ counts. counts.items ≡ counts_of net.now.nets nets.now) }
{
    let mut counts = Vec::with_capacity(alloc, nets.len())?;
    for held in nets {
        counts.push(net.values(*held))?;
    }
    Ok(counts)
}
