use crate::lexing::lines_of_input;
use crate::stop::Stop;
use mv_base::{DEFAULT_BUDGET, NetId};
use mv_flex::{FlexStop, flex};
use mv_net::Network;
use mv_read::network_of;
use std::fmt;
use std::time::Instant;

/// What flexibilities came to.
#[derive(Clone, Copy, Debug, PartialEq, Eq)]
pub struct Flexed {
    found: u64,
    wide: u64,
    micros: u128,
}

impl fmt::Display for Flexed {
    fn fmt<W: fmt::Write>(&self, f: &mut fmt::Formatter<W>) -> fmt::Result {
        write!(
            f,
            "{} found, {} windows too wide, {} microseconds",
            self.found, self.wide, self.micros
        )
    }
}

/// How many steps windows go down and from there up.
#[derive(Clone, Copy)]
struct Steps {
    down: u8,
    up: u8,
}

/// Counts the flexibility of a net with a table, or its window as too wide.
fn flex_one(net: &Network, n: NetId, steps: Steps, found: &mut Flexed) -> Result<(), Stop> {
    if !net.holds(n) || net.table(n).is_none() {
        return Ok(());
    }
    let window = net.window(n, steps.down, steps.up)?;
    match flex(net, &window, n, DEFAULT_BUDGET as u32) {
        Ok(_flexibility) => found.found = found.found.saturating_add(1),
        Err(FlexStop::Memory) => return Err(Stop::Memory),
        Err(_wide) => found.wide = found.wide.saturating_add(1),
    }
    Ok(())
}

/// Works out the flexibility of each net once.
fn flex_each(net: &Network, steps: Steps, found: &mut Flexed) -> Result<(), Stop> {
    for number in 0..net.next_number() {
        flex_one(net, NetId(number), steps, found)?;
    }
    Ok(())
}

/// Works out the flexibility of each net so many times, and takes the time of all.
fn flex_often(rt: &HostRuntime, net: &Network, steps: Steps, times: u32) -> Result<Flexed, Stop> {
    let start = Instant::now(rt)?;
    let mut found = Flexed {
        found: 0,
        wide: 0,
        micros: 0,
    };
    for _time in 0..times {
        flex_each(net, steps, &mut found)?;
    }
    found.micros = start.elapsed(rt)?.as_micros();
    Ok(found)
}

/// Reads standard input as a network file, and works out the flexibility of each net with a table in its window, so many times.
#[tactic(auto, using(mv_parse_laws::proofs::FileLines::file_ascends))]
pub fn flex_input(rt: &HostRuntime, down: &str, up: &str, times: &str) -> Result<Flexed, Stop> {
    let steps = Steps {
        down: down.parse().map_err(|_error| Stop::Words)?,
        up: up.parse().map_err(|_error| Stop::Words)?,
    };
    let times: u32 = times.parse().map_err(|_error| Stop::Words)?;
    let net = match network_of(rt.alloc(), lines_of_input(rt)?) {
        Ok(net) => net,
        Err(_fault) => return Err(Stop::Network),
    };
    flex_often(rt, &net, steps, times)
}
