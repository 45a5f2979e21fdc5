//! Windows of a network, what is above and below a net, and names for new nets, worked out by hand.
use mv_base::{Items, NetId};
use mv_net::{Network, Window};
use mv_sample::{network, put_nets};
use std::alloc::Global;
use std::test::Fail;

/// The inputs `a`, `b`, `c` are 0 to 2; `p` reads `a` and `b` and is 3, `q` reads `p` and `c`, `z` reads `q` and `a`, and `y`,
/// which is 6, reads `p` alone.
const NETWORK: &str =
    ".model w;.inputs a b c;.outputs z y;.table a b -> p;.default 0;1 1 1;.table p c -> q;.default 0;1 1 1;\
.table q a -> z;.default 1;1 1 0;.table p -> y;0 0;1 1;.end";

/// Puts a window, its points and its levels.
fn put_window(said: &mut String, net: &Network, window: &Window) -> Result<(), Fail> {
    said.push_str("tables")?;
    put_nets(said, window.tables.as_slice())?;
    said.push_str(", inputs")?;
    put_nets(said, window.inputs.as_slice())?;
    said.push_str(", outputs")?;
    put_nets(said, window.outputs.as_slice())?;
    write!(
        said,
        ", {} points, {} levels",
        net.points(window),
        net.levels(window)
    )?;
    Ok(())
}

/// Puts the window of so many steps around a net, and nothing where it has no table.
fn put_around(said: &mut String, net: &Network, n: NetId, d: u8, u: u8) -> Result<(), Fail> {
    if net.holds(n) && net.table(n).is_some() {
        let window = net.window(n, d, u)?;
        put_window(said, net, &window)?;
    }
    Ok(())
}

/// The window of so many steps around a net of a network.
fn window_in(alloc: Global, net: &Network, n: NetId, d: u8, u: u8) -> Result<String, Fail> {
    let mut said = String::new(alloc);
    put_around(&mut said, net, n, d, u)?;
    Ok(said)
}

/// The window of so many steps around a net.
fn window(alloc: Global, n: NetId, d: u8, u: u8) -> Result<String, Fail> {
    let net = network(alloc, NETWORK)?;
    window_in(alloc, &net, n, d, u)
}

/// A net, steps down, steps up, and the window.
const WINDOWS: &[(u32, u8, u8, &str)] = &[
    (
        4,
        0,
        0,
        "tables 4, inputs 2 3, outputs 4, 8 points, 3 levels",
    ),
    (
        4,
        1,
        0,
        "tables 4 5, inputs 0 2 3, outputs 5, 32 points, 5 levels",
    ),
    (
        4,
        0,
        1,
        "tables 3 4, inputs 0 1 2, outputs 3 4, 32 points, 5 levels",
    ),
    (
        4,
        1,
        1,
        "tables 3 4 5, inputs 0 1 2, outputs 3 5, 64 points, 6 levels",
    ),
    (
        3,
        1,
        0,
        "tables 3 4 6, inputs 0 1 2, outputs 4 6, 64 points, 6 levels",
    ),
    (
        3,
        2,
        0,
        "tables 3 4 5 6, inputs 0 1 2, outputs 5 6, 128 points, 7 levels",
    ),
    (
        3,
        8,
        8,
        "tables 3 4 5 6, inputs 0 1 2, outputs 5 6, 128 points, 7 levels",
    ),
    (
        6,
        0,
        2,
        "tables 3 6, inputs 0 1, outputs 3 6, 16 points, 4 levels",
    ),
];

#[test]
fn windows_of_a_small_network(rt: HostRuntime) -> Result<(), Fail> {
    for (n, d, u, wanted) in WINDOWS {
        assert_eq!(rt; window(rt.alloc(), NetId(*n), *d, *u)?.as_str(), *wanted);
    }
    Ok(())
}

/// A window of this net alone, listed so many times.
fn listed(alloc: Global, n: NetId, times: usize) -> Result<Window, Fail> {
    let mut tables = Items::new(alloc);
    for _ in 0..times {
        tables.push(n)?;
    }
    Ok(Window {
        tables,
        inputs: Items::new(alloc),
        outputs: Items::new(alloc),
    })
}

/// The points of a window of this net alone, listed so many times, in a network.
fn points_in(alloc: Global, net: &Network, n: NetId, times: usize) -> Result<u128, Fail> {
    let window = listed(alloc, n, times)?;
    Ok(net.points(&window))
}

/// The points of a window of this net alone, listed so many times.
fn points(alloc: Global, n: NetId, times: usize) -> Result<u128, Fail> {
    let net = network(alloc, NETWORK)?;
    points_in(alloc, &net, n, times)
}

/// A net, times, and the points. The number 9 isn't held and counts nothing.
const POINTS: &[(u32, usize, u128)] = &[(4, 127, 1 << 127), (4, 130, u128::MAX), (9, 3, 1)];

#[test]
fn points_end_at_the_greatest_number(rt: HostRuntime) -> Result<(), Fail> {
    for (n, times, wanted) in POINTS {
        assert_eq!(rt; points(rt.alloc(), NetId(*n), *times)?, *wanted);
    }
    Ok(())
}

/// Puts the nets below one, behind a bar those above it, and a semicolon.
fn put_beyond(said: &mut String, net: &Network, n: NetId) -> Result<(), Fail> {
    let below = net.below(n)?;
    put_nets(said, below.as_slice())?;
    said.push_str(" |")?;
    let above = net.above(n)?;
    put_nets(said, above.as_slice())?;
    Ok(said.push(';')?)
}

/// The nets below and above each of these, in a network.
fn beyond_in(alloc: Global, net: &Network, nets: &[NetId]) -> Result<String, Fail> {
    let mut said = String::new(alloc);
    for n in nets {
        put_beyond(&mut said, net, *n)?;
    }
    Ok(said)
}

/// The nets below and above each of these.
fn beyond(alloc: Global, nets: &[NetId]) -> Result<String, Fail> {
    let net = network(alloc, NETWORK)?;
    beyond_in(alloc, &net, nets)
}

#[test]
fn nets_below_and_above(rt: HostRuntime) -> Result<(), Fail> {
    let nets = [NetId(0), NetId(3), NetId(4), NetId(5), NetId(9)];
    assert_eq!(rt;
        beyond(rt.alloc(), &nets)?.as_str(),
        " 3 4 5 6 |; 4 5 6 | 0 1; 5 | 0 1 2 3; | 0 1 2 3 4; |;"
    );
    Ok(())
}

/// Whether a net is above another, in a network.
fn is_above_in(net: &Network, n: NetId, other: NetId) -> Result<bool, Fail> {
    Ok(net.is_above(n, other)?)
}

/// Whether a net is above another.
fn is_above(alloc: Global, n: NetId, other: NetId) -> Result<bool, Fail> {
    let net = network(alloc, NETWORK)?;
    is_above_in(&net, n, other)
}

/// Two nets, and whether the first is above the second.
const ABOVE: &[(u32, u32, bool)] = &[(3, 5, true), (5, 3, false), (3, 3, false)];

#[test]
fn nets_above_others(rt: HostRuntime) -> Result<(), Fail> {
    for (n, other, wanted) in ABOVE {
        assert_eq!(rt; is_above(rt.alloc(), NetId(*n), NetId(*other))?, *wanted);
    }
    Ok(())
}

/// The first fresh names of a network, of which so many are passed over.
fn names_in(alloc: Global, net: &Network) -> Result<String, Fail> {
    let mut said = String::new(alloc);
    for skip in 0..3 {
        let name = net.fresh_name(skip)?;
        write!(said, " {:?}", name.bytes())?;
    }
    Ok(said)
}

/// The first fresh names between `_m1` and `_m3` and behind them.
fn names(alloc: Global) -> Result<String, Fail> {
    let net = network(
        alloc,
        ".model n;.inputs _m1;.outputs _m3;.table _m1 -> _m3;0 1;1 0;.end",
    )?;
    names_in(alloc, &net)
}

/// `_m2`, `_m4` and `_m5` are free.
#[test]
fn names_between_those_that_nets_have(rt: HostRuntime) -> Result<(), Fail> {
    assert_eq!(rt;
        names(rt.alloc())?.as_str(),
        " [95, 109, 50] [95, 109, 52] [95, 109, 53]"
    );
    Ok(())
}
