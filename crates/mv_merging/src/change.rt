ghost use Rattle.std.specs.Prelude.{◌≡◌, ◌≤◌, ◌∷◌, ◌++◌, [], true, is_some, IfOk, OnOk, All, map};
ghost use Rattle.mv_base.specs.declared.limits.TheConstants.{MAX_VALUES as limit};
ghost use Rattle.mv_base.specs.declared.number.NetId.{NetId as a_net};
ghost use Rattle.mv_merging.specs.Changes.{AreMerged, reader_table};
ghost use Rattle.mv_merging.specs.Nets as spec;
ghost use Rattle.mv_merging.specs.Nets.{net_behind};
ghost use Rattle.mv_net.specs.Changes.{changed, Fits};
ghost use Rattle.mv_net.specs.Nets.{slot, table_in};

use crate::Merging;
use crate::tables::{own_merged, reader_merged};
use mv_base::{Items, Memory, NetId, Value};
use mv_cover::Cover;
use mv_net::{Change, Network, NewCount, NewTable};
use std::alloc::Global;

/// The change by which one value of a net with a table goes, into another or into none: the net gets its own table, and one value
/// less, and each reader its table. It fits the network and adds no net. It fails for want of memory alone.
pub fn merge_change(
    alloc: Global,
    net: &Network,
    n: NetId,
    gone: Value,
    into: Option<Value>,
) -> Result<Change, Memory>
    requires { is_some (table_in (slot net.now.nets n.0)) ≡ true }
    ensures makes { IfOk result
        (λ change. changed net.now change ≡ net_behind net.now n.0 gone into) }
    ensures fits { IfOk result (λ change. Fits net.now change) }
    ensures adds { IfOk result (λ change. change.add ≡ []) }
{
    net.well_formed();
    let m = merging_at(net, n, gone, into);
    let set = merged_tables(alloc, net, n, m)?;
    let values = one_less(alloc, n, m)?;
    let change = change_of(alloc, set, values);
    Ok(change)
}

/// How values of the net are merged where the one goes.
fn merging_at(net: &Network, n: NetId, gone: Value, into: Option<Value>) -> Merging
    requires { is_some (table_in (slot net.now.nets n.0)) ≡ true }
    ensures is { result ≡ spec.merging_at net.now.nets n.0 gone into }
    ensures few { result.left ≤ limit }
{
    net.well_formed();
    let left = net.values(n) - 1;
    Merging { left, gone, into }
}

/// The number of values that are left for the net.
fn one_less(alloc: Global, n: NetId, m: Merging) -> Result<Items<NewCount>, Memory>
    ensures { IfOk result (λ values. values ≡ record { net = n; values = m.left } ∷ []) }
{
    let mut values = Items::new(alloc);
    values.push(NewCount {
        net: n,
        values: m.left,
    })?;
    Ok(values)
}

/// The change by which nets get these tables and these numbers of values.
fn change_of(alloc: Global, set: Items<NewTable>, values: Items<NewCount>) -> Change
    ensures { result ≡ record { add = []; set = set; values = values; gone = [] } }
{
    Change {
        add: Items::new(alloc),
        set,
        values,
        gone: Items::new(alloc),
    }
}

/// The table of the net behind the merge, and those of its readers.
fn merged_tables(
    alloc: Global,
    net: &Network,
    n: NetId,
    m: Merging,
) -> Result<Items<NewTable>, Memory>
    requires table { is_some (table_in (slot net.now.nets n.0)) ≡ true }
    requires few { m.left ≤ limit }
    ensures { IfOk result (AreMerged net.now.nets m n) }
{
    let table = own_merged(alloc, m, table_of(net, n))?;
    let mut all = Items::new(alloc);
    all.push(NewTable { net: n, table })?;
    put_readers(alloc, net, n, m, net.readers(n), &mut all)?;
    Ok(all)
}

/// Puts the tables of these readers behind the merge to those that are there.
fn put_readers(
    alloc: Global,
    net: &Network,
    n: NetId,
    m: Merging,
    readers: &[NetId],
    all: &mut Items<NewTable>,
) -> Result<(), Memory>
    requires tables { All
        (λ (k : a_net). is_some (table_in (slot net.now.nets k.0)) ≡ true) readers.now }
    requires few { m.left ≤ limit }
    ensures { OnOk result (all.new ≡ all.old ++ map (reader_table m n net.now.nets) readers.now) }
{
    for reader in readers {
        let table = reader_merged(alloc, m, n, table_of(net, *reader))?;
        all.push(NewTable {
            net: *reader,
            table,
        })?;
    }
    Ok(())
}

/// The table of a net that has one.
fn table_of(net: &Network, n: NetId) -> &Cover
    requires { is_some (table_in (slot net.now.nets n.0)) ≡ true }
    ensures { table_in (slot net.now.nets n.0) ≡ Some result.now }
{
    net.table(n).unwrap()
}
