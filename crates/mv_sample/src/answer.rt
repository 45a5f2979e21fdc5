//! What a network answers of itself and of its nets, as a text.
use mv_base::NetId;
use mv_net::Network;
use std::alloc::Global;
use std::test::Fail;

/// Puts the numbers of nets, each with a blank before it. It fails only for want of memory.
pub fn put_nets(said: &mut String, nets: &[NetId]) -> Result<(), Fail> {
    for net in nets {
        write!(said, " {}", net.0)?;
    }
    Ok(())
}

/// Puts what a network answers of itself.
fn put_network(said: &mut String, net: &Network) -> Result<(), Fail> {
    write!(
        said,
        "{} literals, next {}, inputs",
        net.literals(),
        net.next_number()
    )?;
    put_nets(said, net.inputs())?;
    said.push_str(", outputs")?;
    put_nets(said, net.outputs())?;
    write!(said, ", {} latches", net.latches().len())?;
    Ok(())
}

/// Puts what a network answers of one of its nets.
fn put_net(said: &mut String, alloc: Global, net: &Network, n: NetId) -> Result<(), Fail> {
    if !net.holds(n) {
        return Ok(said.push_str(" none")?);
    }
    write!(
        said,
        " {:?} of {}, {} named",
        net.kind(n),
        net.values(n),
        net.value_names(n).len()
    )?;
    said.push_str(", fanins")?;
    put_nets(said, net.fanins(n))?;
    said.push_str(", readers")?;
    put_nets(said, net.readers(n))?;
    if net.is_seen(n) {
        said.push_str(", seen")?;
    }
    if net.is_total(alloc, n)? {
        said.push_str(", total")?;
    }
    Ok(())
}

/// What a network answers of itself, and then of its nets by number, `none` for a number that isn't held. It fails only for want of
/// memory.
pub fn said_of(alloc: Global, net: &Network) -> Result<String, Fail> {
    let mut said = String::new(alloc);
    put_network(&mut said, net)?;
    for number in 0..net.next_number() {
        write!(said, "; {number}")?;
        put_net(&mut said, alloc, net, NetId(number))?;
    }
    Ok(said)
}
