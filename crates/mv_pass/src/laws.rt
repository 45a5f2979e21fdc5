ghost use Rattle.std.specs.Prelude.{◌<◌, ◌^◌};
ghost use Rattle.mv_net.specs.Nets.{literals_in};

use mv_net::Network;

/// The literals of a network are counted in 128 bits.
pub fn few_literals(net: &Network)
    ensures { literals_in net.now.nets < 2 ^ 128 }
{
    let _count = net.literals();
}
