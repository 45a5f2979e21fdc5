//! What flexibilities say of covers that could take a table's place, worked out by hand.
use mv_base::NetId;
use mv_cover::Cover;
use mv_flex::{Flexibility, flex};
use mv_net::Network;
use mv_sample::{cover, network};
use std::alloc::Global;
use std::test::Fail;

/// Puts whether the flexibility holds each line of the cover, and the verdict.
fn put_judged(said: &mut String, flexibility: &Flexibility, cover: &Cover) -> Result<(), Fail> {
    for line in cover.lines.as_slice() {
        let holds = flexibility.holds_line(line)?;
        write!(said, "{holds} ")?;
    }
    let verdict = flexibility.judge(cover)?;
    write!(said, "{verdict:?}")?;
    Ok(())
}

/// Puts the same in the window of so many steps around a net, and nothing where that has no table.
fn put_around(
    said: &mut String,
    net: &Network,
    n: NetId,
    d: u8,
    u: u8,
    cover: &Cover,
) -> Result<(), Fail> {
    if net.holds(n) && net.table(n).is_some() {
        let window = net.window(n, d, u)?;
        let flexibility = flex(net, &window, n, 0)?;
        put_judged(said, &flexibility, cover)?;
    }
    Ok(())
}

/// The same in the network of a text, of the table of the net `z` of another.
fn judged(alloc: Global, text: &str, n: NetId, d: u8, u: u8, table: &str) -> Result<String, Fail> {
    let net = network(alloc, text)?;
    let cover = cover(alloc, table)?;
    let mut said = String::new(alloc);
    put_around(&mut said, &net, n, d, u, &cover)?;
    Ok(said)
}

/// Where `a` is 0 nobody sees `x`, the net 2.
const HIDDEN: &str =
    ".model w;.inputs a b;.outputs z;.table a b -> x;0 0 0;0 1 0;1 0 0;1 1 1;.table a x -> z;.default 0;1 1 1;.end";

/// `z`, which reads `x`, the net 2, is seen through `y` alone.
const FAR: &str =
    ".model f;.inputs a b;.outputs y;.table a b -> x;.default 0;1 1 1;.table a x -> z;.default 0;1 1 1;\
.table b z -> y;.default 0;1 1 1;.end";

/// `z`, the net 3, reads two nets that are always equal.
const EQUAL: &str =
    ".model e;.inputs a;.outputs z;.table a -> p;0 0;1 1;.table a -> q;0 0;1 1;.table p q -> z;.default 0;1 1 1;.end";

/// `z` tells no more of `x`, the net 1, than whether it is 2.
const VALUES: &str =
    ".model v;.inputs a;.outputs z;.mv a 3;.mv x 3;.table a -> x;- =a;.table x -> z;(0,1) 0;2 1;.end";

/// `z` allows nothing where `a` is 0 and `x`, the net 1, is 1.
const PARTIAL: &str =
    ".model p;.inputs a;.outputs z;.table a -> x;0 0;1 1;.table a x -> z;0 0 0;1 - 1;.end";

/// `c`, the net 0, may have either value.
const CHOICE: &str = ".model c;.outputs p;.table -> c;-;.table c -> p;0 0;1 1;.end";

/// A network, a net, steps down and up, a cover as the table of `z`, and what is said of it.
const COVERS: &[(&str, u32, u8, u8, &str, &str)] = &[
    (
        HIDDEN,
        2,
        1,
        0,
        ".model t;.inputs a b;.outputs z;.table b -> z;0 0;1 1;.end",
        "true true Lawful",
    ),
    (
        HIDDEN,
        2,
        1,
        0,
        ".model t;.inputs a b;.outputs z;.table a b -> z;0 - -;1 0 0;1 1 1;.end",
        "true true true Lawful",
    ),
    (
        HIDDEN,
        2,
        1,
        0,
        ".model t;.inputs a b;.outputs z;.table b -> z;0 0;1 0;.end",
        "true false Outside",
    ),
    (
        HIDDEN,
        2,
        1,
        0,
        ".model t;.inputs a b;.outputs z;.table a b -> z;1 0 0;1 1 1;.end",
        "true true Lost",
    ),
    (
        HIDDEN,
        2,
        0,
        0,
        ".model t;.inputs a b;.outputs z;.table b -> z;0 0;1 1;.end",
        "true false Outside",
    ),
    (
        FAR,
        2,
        1,
        0,
        ".model t;.inputs a b;.outputs z;.table -> z;1;.end",
        "false Outside",
    ),
    (
        FAR,
        2,
        2,
        0,
        ".model t;.inputs a b;.outputs z;.table -> z;1;.end",
        "true Lawful",
    ),
    (
        EQUAL,
        3,
        0,
        1,
        ".model t;.inputs a p q;.outputs z;.table p -> z;0 0;1 1;.end",
        "true true Lawful",
    ),
    (
        EQUAL,
        3,
        0,
        0,
        ".model t;.inputs a p q;.outputs z;.table p -> z;0 0;1 1;.end",
        "true false Outside",
    ),
    (
        VALUES,
        1,
        1,
        0,
        ".model t;.inputs a;.outputs z;.mv a 3;.mv z 3;.table a -> z;(0,1) (0,1);2 2;.end",
        "true true Lawful",
    ),
    (
        VALUES,
        1,
        1,
        0,
        ".model t;.inputs a;.outputs z;.mv a 3;.mv z 3;.table a -> z;0 0;(1,2) 1;.end",
        "true false Outside",
    ),
    (
        PARTIAL,
        1,
        1,
        0,
        ".model t;.inputs a;.outputs z;.table -> z;1;.end",
        "true Lawful",
    ),
    (
        CHOICE,
        0,
        1,
        0,
        ".model t;.outputs z;.table -> z;0;.end",
        "true Lawful",
    ),
];

#[test]
fn covers_in_place_of_tables(rt: HostRuntime) -> Result<(), Fail> {
    for (text, n, d, u, table, wanted) in COVERS {
        assert_eq!(rt;
            judged(rt.alloc(), text, NetId(*n), *d, *u, table)?.as_str(),
            *wanted,
            "{table} in {text}"
        );
    }
    Ok(())
}
