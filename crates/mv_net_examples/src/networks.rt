//! What a network answers of itself and of its nets, as it is read, behind a `drop` and behind a `fill`.
use mv_base::MemorySink;
use mv_cert::NoteJournal;
use mv_fill::fill;
use mv_net::Network;
use mv_rules::Terms;
use mv_sample::{network, said_of};
use mv_sweep::remove_unread;
use std::alloc::Global;
use std::test::Fail;

/// The table of `z` is partial. Nobody reads `y` and `x`. The default of `x` stands beside a row without literals, so it needs
/// no mark, and no number is left out for one.
const NETWORK: &str =
    ".model n;.inputs a b;.outputs z;.mv b, x 3 low mid high;.table a b -> z;0 - 1;1 {low-mid} 0;\
.table z -> y;.default 1;0 0;.table b -> x;- low;.default =b;.end";

const AS_READ: &str = "\
4 literals, next 5, inputs 0 1, outputs 2, 0 latches; \
0 Input of 2, 0 named, fanins, readers 2; 1 Input of 3, 3 named, fanins, readers 2; \
2 Table of 2, 0 named, fanins 0 1, readers 3, seen; 3 Table of 2, 0 named, fanins 2, readers, total; \
4 Table of 3, 3 named, fanins, readers, total";

/// The numbers of nets that went are not used again.
const BEHIND_A_DROP: &str = "\
3 literals, next 5, inputs 0 1, outputs 2, 0 latches; \
0 Input of 2, 0 named, fanins, readers 2; 1 Input of 3, 3 named, fanins, readers 2; \
2 Table of 2, 0 named, fanins 0 1, readers, seen; 3 none; 4 none";

/// Only the table of `z` was partial.
const BEHIND_A_FILL: &str = "\
4 literals, next 5, inputs 0 1, outputs 2, 0 latches; \
0 Input of 2, 0 named, fanins, readers 2; 1 Input of 3, 3 named, fanins, readers 2; \
2 Table of 2, 0 named, fanins 0 1, readers 3, seen, total; 3 Table of 2, 0 named, fanins 2, readers, total; \
4 Table of 3, 3 named, fanins, readers, total";

/// Nothing is free.
const STRICT: Terms = Terms {
    free: false,
    budget: 1000,
};

/// Values under which the network allows nothing are free.
const FREE: Terms = Terms {
    free: true,
    budget: 1000,
};

/// What the network answers as it is read.
fn as_read(alloc: Global) -> Result<String, Fail> {
    let net = network(alloc, NETWORK)?;
    said_of(alloc, &net)
}

#[test]
fn a_network_answers_of_itself_and_of_its_nets(rt: HostRuntime) -> Result<(), Fail> {
    assert_eq!(rt; as_read(rt.alloc())?.as_str(), AS_READ);
    Ok(())
}

/// Drops the nets that nobody reads.
fn drop_unread(alloc: Global, net: &mut Network) -> Result<(), Fail> {
    let mut notes = MemorySink::new(alloc, 100, Vec::new(alloc))?;
    Ok(remove_unread(alloc, net, &mut NoteJournal::new(&mut notes), STRICT)?)
}

/// What a network answers behind a `drop`.
fn said_behind_a_drop(alloc: Global, net: &mut Network) -> Result<String, Fail> {
    drop_unread(alloc, net)?;
    said_of(alloc, net)
}

/// What the network answers behind a `drop`.
fn behind_a_drop(alloc: Global) -> Result<String, Fail> {
    let mut net = network(alloc, NETWORK)?;
    said_behind_a_drop(alloc, &mut net)
}

#[test]
fn a_network_answers_so_behind_a_drop(rt: HostRuntime) -> Result<(), Fail> {
    assert_eq!(rt; behind_a_drop(rt.alloc())?.as_str(), BEHIND_A_DROP);
    Ok(())
}

/// Fills the tables.
fn fill_tables(alloc: Global, net: &mut Network, terms: Terms) -> Result<(), Fail> {
    let mut notes = MemorySink::new(alloc, 100, Vec::new(alloc))?;
    Ok(fill(alloc, net, &mut NoteJournal::new(&mut notes), terms)?)
}

/// What a network answers behind a `fill`.
fn said_behind_a_fill(alloc: Global, net: &mut Network, terms: Terms) -> Result<String, Fail> {
    fill_tables(alloc, net, terms)?;
    said_of(alloc, net)
}

/// What the network answers behind a `fill`.
fn behind_a_fill(alloc: Global, terms: Terms) -> Result<String, Fail> {
    let mut net = network(alloc, NETWORK)?;
    said_behind_a_fill(alloc, &mut net, terms)
}

#[test]
fn a_network_answers_so_behind_a_fill(rt: HostRuntime) -> Result<(), Fail> {
    assert_eq!(rt; behind_a_fill(rt.alloc(), FREE)?.as_str(), BEHIND_A_FILL);
    assert_eq!(rt; behind_a_fill(rt.alloc(), STRICT)?.as_str(), AS_READ);
    Ok(())
}
