ghost use Rattle.std.specs.Prelude.{◌≡◌, ◌≤◌, ◌∷◌, [], true, is_some, length, IfOk, IfErr, OnOk, IsTrue};
ghost use Rattle.mv_base.specs.declared.limits.TheConstants.{MAX_VALUES};
ghost use Rattle.mv_codes.specs.Codes.{AreCodes};
ghost use Rattle.mv_codes.specs.Rewriting.{IsCoding};
ghost use Rattle.mv_codes.specs.Tables.{reader_coded};
ghost use Rattle.mv_coding.specs.Changes.{AreNarrow};
ghost use Rattle.mv_coding.specs.Nets as spec;
ghost use Rattle.mv_coding.specs.Nets.{AreFresh, HasNarrowReaders, net_coded};
ghost use Rattle.mv_net.specs.Changes.{changed, Fits};
ghost use Rattle.mv_net.specs.Index.{is_held};
ghost use Rattle.mv_net.specs.Nets.{slot, values_in, table_in, reads_in};
ghost use Rattle.mv_readers.specs.Readers.{AreRewritten};

use mv_base::{Items, Memory, Name, NetId};
use mv_codes::{Coding, bit_table, reader_coded};
use mv_cover::{Cover, CoverStop};
use mv_entry::Code;
use mv_net::{Change, Network, NewNet, NewTable};
use mv_readers::table_of;
use std::alloc::Global;

/// How many values the net of a bit has.
const TWO: u16 = 2;

/// The change by which the net goes and nets of two values with these names come, one for each bit of the codes of its values. It
/// fits the network, and adds a net for each name.
/// It is Wide where the table that a reader of the net would get has too many lines or fanins.
pub fn coding_change(
    alloc: Global,
    net: &Network,
    n: NetId,
    names: &[Name],
    codes: &[Code],
) -> Result<Change, CoverStop>
    requires table { is_some (table_in (slot net.now.nets n.0)) ≡ true }
    requires form { AreCodes (values_in (slot net.now.nets n.0)) (length names.now) codes.now }
    requires fresh { AreFresh net.now.nets names.now }
    ensures makes { IfOk result
        (λ change. changed net.now change ≡ net_coded net.now n.0 names.now codes.now) }
    ensures fits { IfOk result (λ change. Fits net.now change) }
    ensures adds { IfOk result (λ change. length change.add ≡ length names.now) }
    ensures narrow { OnOk result (HasNarrowReaders net.now.nets n.0 codes.now) }
    ensures wide { IfErr result
        (λ stop. stop ≡ CoverStop.Wide → HasNarrowReaders net.now.nets n.0 codes.now → ⊥) }
{
    net.well_formed();
    net.few();
    let first = NetId(net.next_number());
    let coding = match Coding::new(alloc, n, first, codes) {
        Ok(coding) => coding,
        Err(_memory) => return Err(CoverStop::Memory),
    };
    let set = match readers_coded(alloc, net, &coding) {
        Ok(set) => set,
        Err(stop) => return Err(stop),
    };
    match bits_for(alloc, net, n, names, codes, set) {
        Ok(change) => Ok(change),
        Err(_memory) => Err(CoverStop::Memory),
    }
}

/// The tables that the readers of the coding's net get, or Wide where one is too wide.
fn readers_coded(
    alloc: Global,
    net: &Network,
    coding: &Coding,
) -> Result<Items<NewTable>, CoverStop>
    requires held { IsTrue (is_held net.now.nets coding.now.net.0) }
    requires coding { IsCoding coding.now }
    ensures tables { IfOk result
        (AreRewritten net.now.nets (reader_coded coding.now) coding.now.net.0) }
    ensures narrow { OnOk result
        (AreNarrow net.now.nets coding.now (λ m. reads_in net.now.nets m coding.now.net.0)) }
    ensures wide { IfErr result (λ stop. stop ≡ CoverStop.Wide
        → AreNarrow net.now.nets coding.now (λ m. reads_in net.now.nets m coding.now.net.0) → ⊥) }
{
    let readers = net.readers(coding.net);
    let mut tables = Items::new(alloc);
    for reader in readers {
        let table = match reader_coded(alloc, coding, table_of(net, *reader)) {
            Ok(table) => table,
            Err(stop) => return Err(stop),
        };
        match tables.push(NewTable {
            net: *reader,
            table,
        }) {
            Ok(()) => {}
            Err(_full) => return Err(CoverStop::Memory),
        }
    }
    Ok(tables)
}

/// The change by which the net goes, its readers get these tables, and the nets of the bits come.
fn bits_for(
    alloc: Global,
    net: &Network,
    n: NetId,
    names: &[Name],
    codes: &[Code],
    set: Items<NewTable>,
) -> Result<Change, Memory>
    requires table { is_some (table_in (slot net.now.nets n.0)) ≡ true }
    requires few { length codes.now ≤ MAX_VALUES }
    ensures { IfOk result (λ change. change
        ≡ record {
          add = spec.bit_nets codes.now (table_in (slot net.now.nets n.0)) names.now;
          set = set;
          values = [];
          gone = n ∷ [];
        }) }
{
    let add = bit_nets(alloc, codes, table_of(net, n), names)?;
    let mut gone = Items::new(alloc);
    gone.push(n)?;
    Ok(Change {
        add,
        set,
        values: Items::new(alloc),
        gone,
    })
}

/// The nets of the bits, with these names, where the net that goes has the table.
fn bit_nets(
    alloc: Global,
    codes: &[Code],
    table: &Cover,
    names: &[Name],
) -> Result<Items<NewNet>, Memory>
    requires { length codes.now ≤ MAX_VALUES }
    ensures { IfOk result (λ nets. nets ≡ spec.bit_nets_from codes.now table.now 0 names.now) }
{
    let mut nets = Items::with_room(alloc, names.len())?;
    for (place, name) in names.iter().enumerate() {
        let bits = bit_table(alloc, codes, place, table)?;
        nets.push(bit_net(name, bits)?)?;
    }
    Ok(nets)
}

/// The net of a bit, with this name and this table.
fn bit_net(name: &Name, table: Cover) -> Result<NewNet, Memory>
    ensures { IfOk result (λ net. net ≡ record { name = name.now; values = 2; table = table }) }
{
    Ok(NewNet {
        name: name.copy()?,
        values: TWO,
        table,
    })
}
