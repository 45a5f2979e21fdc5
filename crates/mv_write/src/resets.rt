ghost use Rattle.std.specs.Prelude.{◌≡◌, IsTrue};
ghost use Rattle.mv_net.specs.Nets.{slot};
ghost use Rattle.mv_net.specs.Index.{is_held, is_reset, kind_in};
ghost use Rattle.mv_text.specs.Text.{head_word, told_name};

use mv_base::NetId;
use mv_net::{Kind, Network};

/// Whether a held net is a reset net.
pub fn is_reset_net(net: &Network, n: NetId) -> bool
    requires { IsTrue (is_held net.now.nets n.0) }
    ensures { result ≡ is_reset (kind_in (slot net.now.nets n.0)) }
{
    net.kind(n) == Kind::Reset
}

/// The word that begins the table of a held net.
pub fn head_word(net: &Network, n: NetId) -> &'static [u8]
    requires { IsTrue (is_held net.now.nets n.0) }
    ensures { result.now ≡ head_word (slot net.now.nets n.0) }
{
    if is_reset_net(net, n) {
        return b".reset";
    }
    b".table"
}

/// The name behind the arrow of a held net's table: its own, and that of its latch for a reset net.
pub fn told_name(net: &Network, n: NetId) -> &[u8]
    requires { IsTrue (is_held net.now.nets n.0) }
    ensures { result.now ≡ told_name (slot net.now.nets n.0) }
{
    let name = net.name(n);
    match name.split_first() {
        Some((_, latch)) if is_reset_net(net, n) => latch,
        _ => name,
    }
}
