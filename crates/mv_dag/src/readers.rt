//! Lists of readers, which get readers and lose them.
ghost use Rattle.std.specs.Prelude.{◌≡◌, ◌<◌, ◌≤◌, ◌&&◌, ◌||◌, ℕ, Some, true, not, nat_eq, length, slice_get, take, drop, All, MatchResult, OnOk, OnErr};
ghost use Rattle.mv_base.specs.declared.number.NetId.{NetId};
ghost use Rattle.mv_graph.specs.Nets.{has_id, row, ids_ascend, IsAscending};
ghost use Rattle.mv_dag.specs.declared.new_rows.NewRow.{NewRow};
ghost use Rattle.mv_dag.specs.Readers.{AllAscend, HasAll, IsGap, IsGrown, IsShrunk, is_given, is_edge, is_given_by};

use crate::new_rows::NewRow;
use crate::rows::row_of;
use mv_base::{Items, Memory, NetId};

/// The first place of ascending nets whose net isn't below this one.
fn place_in(nets: &[NetId], net: NetId) -> usize
    requires { ids_ascend nets.now ≡ true }
    ensures within { result ≤ length nets.now }
    ensures before { (m : ℕ) → has_id (take result nets.now) m ≡ true → m < net.0 }
    ensures behind { (m : ℕ) → has_id (drop result nets.now) m ≡ true → net.0 ≤ m }
{
    let mut low = 0;
    let mut high = nets.len();
    'search: while low < high {
        let middle = low + (high - low) / 2;
        if nets[middle].0 < net.0 {
            low = middle + 1;
        } else {
            high = middle;
        }
    }
    low
}

/// The place at which the net stands in ascending ones, or else that at which it may come.
fn place_of(nets: &[NetId], net: NetId) -> Result<usize, usize>
    requires { ids_ascend nets.now ≡ true }
    ensures { MatchResult result (λ place. slice_get nets.now place ≡ Some net)
        (λ place. IsGap nets.now place net.0) }
{
    let place = place_in(nets, net);
    if place < nets.len() && nets[place] == net {
        Ok(place)
    } else {
        Err(place)
    }
}

/// Puts the net among ascending ones, unless it stands there.
fn put_net(nets: &mut Items<NetId>, net: NetId) -> Result<(), Memory>
    requires { ids_ascend nets.old ≡ true }
    ensures ok { OnOk result (IsAscending (λ n. has_id nets.old n || nat_eq net.0 n) nets.new) }
    ensures err { OnErr result (nets.new ≡ nets.old) }
{
    if let Err(place) = place_of(nets.as_slice(), net) {
        nets.insert(place, net)?;
    }
    Ok(())
}

/// Takes the net from ascending ones, if it stands there.
fn take_net(nets: &mut Items<NetId>, net: NetId)
    requires { ids_ascend nets.old ≡ true }
    ensures { IsAscending (λ n. has_id nets.old n && not (nat_eq net.0 n)) nets.new }
{
    if let Ok(place) = place_of(nets.as_slice(), net) {
        nets.remove(place);
    }
}

/// Puts the reader on the list of the net, unless it stands there. The time grows with the length of that list only by a
/// search and a move of numbers.
fn put_reader(readers: &mut Items<Items<NetId>>, net: NetId, reader: NetId) -> Result<(), Memory>
    requires within { net.0 < length readers.old }
    requires ascend { AllAscend readers.old }
    ensures grown { IsGrown readers.old readers.new (is_edge reader.0 net.0) }
    ensures ok { OnOk result (HasAll readers.new (is_edge reader.0 net.0)) }
{
    let mut nets = readers.replace(net.0 as usize, Items::new(readers.allocator()));
    let put = put_net(&mut nets, reader);
    readers.replace(net.0 as usize, nets);
    put
}

/// Takes the reader from the list of the net, if it stands there. No memory.
fn take_reader(readers: &mut Items<Items<NetId>>, net: NetId, reader: NetId)
    requires within { net.0 < length readers.old }
    requires ascend { AllAscend readers.old }
    ensures { IsShrunk readers.old readers.new (is_edge reader.0 net.0) }
{
    let mut nets = readers.replace(net.0 as usize, Items::new(readers.allocator()));
    take_net(&mut nets, reader);
    readers.replace(net.0 as usize, nets);
}

/// Puts the net of the row on the lists of all that it is to read.
fn put_row(readers: &mut Items<Items<NetId>>, net: NetId, fanins: &[NetId]) -> Result<(), Memory>
    requires within { All (λ (m : NetId). m.0 < length readers.old) fanins.now }
    requires ascend { AllAscend readers.old }
    ensures grown { IsGrown readers.old readers.new (is_given_by net.0 fanins.now) }
    ensures ok { OnOk result (HasAll readers.new (is_given_by net.0 fanins.now)) }
{
    for fanin in fanins {
        put_reader(readers, *fanin, net)?;
    }
    Ok(())
}

/// Puts the nets of the rows on the lists of all that they are to read. On an error some may have come.
pub fn put_rows(readers: &mut Items<Items<NetId>>, rows: &[NewRow]) -> Result<(), Memory>
    requires within { All
        (λ (r : NewRow). All (λ (m : NetId). m.0 < length readers.old) r.fanins) rows.now }
    requires ascend { AllAscend readers.old }
    ensures grown { IsGrown readers.old readers.new (is_given rows.now) }
    ensures ok { OnOk result (HasAll readers.new (is_given rows.now)) }
{
    for row in rows {
        put_row(readers, row.net, row.fanins.as_slice())?;
    }
    Ok(())
}

/// Takes the net from the lists of these nets, except of those that it reads. No memory.
fn prune_row(readers: &mut Items<Items<NetId>>, kept: &[NetId], net: NetId, nets: &[NetId])
    requires within { All (λ (m : NetId). m.0 < length readers.old) nets.now }
    requires ascend { AllAscend readers.old }
    ensures { IsShrunk readers.old readers.new
        (λ n m. is_given_by net.0 nets.now n m && not (has_id kept.now m)) }
{
    for fanin in nets {
        if !kept.contains(fanin) {
            take_reader(readers, *fanin, net);
        }
    }
}

/// Takes the nets of the rows from the lists of all in those rows, except of those that they read. No memory.
pub fn prune(readers: &mut Items<Items<NetId>>, fanins: &[Items<NetId>], rows: &[NewRow])
    requires within { All
        (λ (r : NewRow). All (λ (m : NetId). m.0 < length readers.old) r.fanins) rows.now }
    requires ascend { AllAscend readers.old }
    ensures { IsShrunk readers.old readers.new
        (λ n m. is_given rows.now n m && not (has_id (row fanins.now n) m)) }
{
    for row in rows {
        prune_row(
            readers,
            row_of(fanins, row.net),
            row.net,
            row.fanins.as_slice(),
        );
    }
}
