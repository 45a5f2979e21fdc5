//! How often the nets of a model are driven, as far as two.
ghost use Rattle.std.specs.Prelude.{◌≡◌, ◌<◌, [], All, map, length, slice_index, IfOk, OnOk};
ghost use Rattle.mv_unfold.specs.Driven.{count_in, counted, counts_at, with_binds, with_count, with_driven, with_latches, with_instances, with_tables};

use crate::commands::Command;
use mv_acyclic::add_net;
use mv_base::{Items, Memory, Name, NameSet};
use mv_design::{Bind, FileLatch, FileModel, FileTable, Instance};
use std::alloc::Global;

/// How often a model's nets are driven, where it is known of what its commands make.
pub fn counts_of(
    alloc: Global,
    all: &[NameSet],
    slots: &[Option<Items<u8>>],
    nets: &NameSet,
    model: &FileModel,
    row: &[Command],
) -> Result<Items<u8>, Memory>
    requires long { length row.now ≡ length model.now.instances }
    requires known { All (λ command. command.model < length all.now) row.now }
    ensures { IfOk result
        (λ counts. counts ≡ counted nets.now all.now slots.now model.now row.now) }
{
    let mut counts = zeros(alloc, nets)?;
    add_latches(nets, &mut counts, model.latches.as_slice());
    add_tables(nets, &mut counts, model.tables.as_slice());
    add_instances(
        alloc,
        all,
        slots,
        nets,
        &mut counts,
        model.instances.as_slice(),
        row,
    )?;
    Ok(Items::of(counts))
}

/// A count of 0 for each net.
fn zeros(alloc: Global, nets: &NameSet) -> Result<Vec<u8>, Memory>
    ensures { IfOk result (λ counts. counts.items ≡ map (λ net. 0) nets.now) }
{
    let mut counts = Vec::with_capacity(alloc, nets.len())?;
    for net in nets.as_slice() {
        let _ = net;
        counts.push(0)?;
    }
    Ok(counts)
}

/// Adds so many drivers of a net.
fn add(nets: &NameSet, counts: &mut [u8], net: &Name, more: u8)
    requires { length counts.old ≡ length nets.now }
    ensures { counts.new ≡ with_count nets.now counts.old net.now more }
{
    if let Some(place) = nets.place(net) {
        let sum = u16::from(counts[place]) + u16::from(more);
        counts[place] = sum.min(2) as u8;
    }
}

/// Adds a driver of each of these nets.
pub fn add_all(nets: &NameSet, counts: &mut [u8], driven: &[Name])
    requires { length counts.old ≡ length nets.now }
    ensures { counts.new ≡ with_driven nets.now counts.old driven.now }
{
    for net in driven {
        add(nets, counts, net, 1);
    }
}

/// Adds the outputs of latches.
fn add_latches(nets: &NameSet, counts: &mut [u8], latches: &[FileLatch])
    requires { length counts.old ≡ length nets.now }
    ensures { counts.new ≡ with_latches nets.now counts.old latches.now }
{
    for latch in latches {
        add(nets, counts, &latch.output, 1);
    }
}

/// Adds the outputs of tables.
fn add_tables(nets: &NameSet, counts: &mut [u8], tables: &[FileTable])
    requires { length counts.old ≡ length nets.now }
    ensures { counts.new ≡ with_tables nets.now counts.old tables.now }
{
    for table in tables {
        add_all(nets, counts, table.outputs.as_slice());
    }
}

/// Adds what drives nets from inside the instances that these commands make.
fn add_instances(
    alloc: Global,
    all: &[NameSet],
    slots: &[Option<Items<u8>>],
    nets: &NameSet,
    counts: &mut [u8],
    instances: &[Instance],
    row: &[Command],
) -> Result<(), Memory>
    requires long { length row.now ≡ length instances.now }
    requires known { All (λ command. command.model < length all.now) row.now }
    requires nets { length counts.old ≡ length nets.now }
    ensures { OnOk result
        (counts.new ≡ with_instances nets.now all.now slots.now counts.old instances.now row.now) }
{
    for at in 0..instances.len() {
        let inner = row[at].model;
        add_binds(
            alloc,
            nets,
            counts,
            &all[inner],
            slot(slots, inner),
            instances[at].binds.as_slice(),
        )?;
    }
    Ok(())
}

/// The counts of a model, where they are known.
pub fn slot(slots: &[Option<Items<u8>>], model: usize) -> &[u8]
    ensures { result.now ≡ counts_at slots.now model }
{
    match slots.get(model) {
        Some(Some(counts)) => counts.as_slice(),
        _ => &[],
    }
}

/// Adds what drives the formals that are bound to nets. Only the first binding of a formal counts.
fn add_binds(
    alloc: Global,
    nets: &NameSet,
    counts: &mut [u8],
    inner: &NameSet,
    inner_counts: &[u8],
    binds: &[Bind],
) -> Result<(), Memory>
    requires { length counts.old ≡ length nets.now }
    ensures { OnOk result
        (counts.new ≡ with_binds nets.now counts.old inner.now inner_counts.now [] binds.now) }
{
    let mut seen = NameSet::new(alloc);
    for bind in binds {
        if !seen.contains(&bind.formal) {
            add(
                nets,
                counts,
                &bind.actual,
                count(inner, inner_counts, &bind.formal),
            );
        }
        add_net(&mut seen, &bind.formal)?;
    }
    Ok(())
}

/// The count of a net.
fn count(nets: &NameSet, counts: &[u8], net: &Name) -> u8
    ensures { result ≡ count_in nets.now counts.now net.now }
{
    match nets.place(net) {
        Some(place) => count_at(counts, place),
        None => 0,
    }
}

/// The count at a place; it is 0 behind the last.
fn count_at(counts: &[u8], place: usize) -> u8
    ensures { result ≡ slice_index counts.now place }
{
    match counts.get(place) {
        Some(count) => *count,
        None => 0,
    }
}
