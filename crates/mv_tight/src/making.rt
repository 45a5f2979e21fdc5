ghost use Rattle.std.specs.Prelude.{◌≡◌, ℕ, Some, is_some, IfErr, IfOk, IsTrue};
ghost use Rattle.mv_cover.specs.Absorb.{default_beside, some_bare};
ghost use Rattle.mv_cover.specs.declared.cover.Cover.{Cover};
ghost use Rattle.mv_flex.specs.Flex.{IsLaterStop};
ghost use Rattle.mv_flex.specs.Flexibilities.{IsFlex};
ghost use Rattle.mv_net.specs.Nets.{slot, table_in};
ghost use Rattle.mv_net.specs.declared.window.Window.{Window};
ghost use Rattle.mv_tight.specs.Tight.{IsMadeTight};

use crate::growing::grown_lines;
use mv_base::{NetId, PackedSet};
use mv_cover::{Cover, Line};
use mv_flex::{FlexStop, Flexibility};
use mv_net::Network;
use std::alloc::Global;

/// The net's table made tight in the window of the flexibility: None where that leaves it as it is.
pub fn make_tight(
    alloc: Global,
    net: &Network,
    n: NetId,
    flexibility: &Flexibility,
) -> Result<Option<Cover>, FlexStop>
    requires table { IsTrue (is_some (table_in (slot net.now.nets n.0))) }
    ensures ok { IfOk result (λ made. (w : Window) (budget : ℕ) (old : Cover)
        → IsFlex net.now w n.0 budget flexibility.now → table_in (slot net.now.nets n.0) ≡ Some old
        → IsMadeTight net.now.nets w n.0 old made) }
    ensures err { IfErr result (λ stop. (w : Window) (budget : ℕ)
        → IsFlex net.now w n.0 budget flexibility.now → IsLaterStop net.now w budget stop) }
{
    net.well_formed();
    let old = table_of(net, n);
    let lines = match grown_lines(alloc, net, flexibility, old) {
        Ok(lines) => lines,
        Err(stop) => return Err(stop),
    };
    let default = old.copied_default()?;
    let grown = Cover { lines, default };
    let left = match flexibility.lines_left(&grown) {
        Ok(left) => left,
        Err(stop) => return Err(stop),
    };
    if left.as_slice() == old.lines.as_slice() {
        return Ok(None);
    }
    let default = default_beside(left.as_slice(), grown.default);
    Ok(Some(Cover {
        lines: left,
        default,
    }))
}

/// The net's table.
fn table_of(net: &Network, n: NetId) -> &Cover
    requires { IsTrue (is_some (table_in (slot net.now.nets n.0))) }
    ensures { table_in (slot net.now.nets n.0) ≡ Some result.now }
{
    net.table(n).unwrap()
}

/// The default, unless some line has no literal.
fn default_beside(lines: &[Line], default: Option<PackedSet>) -> Option<PackedSet>
    ensures { result ≡ default_beside lines.now default }
{
    if some_line_is_bare(lines) {
        None
    } else {
        default
    }
}

/// Whether some line has no literal.
fn some_line_is_bare(lines: &[Line]) -> bool
    ensures { result ≡ some_bare lines.now }
{
    lines.iter().any(|line| line.cube.len() == 0)
}
