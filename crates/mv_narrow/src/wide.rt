ghost use Rattle.std.specs.Prelude.{MatchBool};
ghost use Rattle.mv_flex.specs.Flex.{TooWide};

use mv_base::MAX_WINDOW_POINTS;
use mv_net::{Network, Window};

/// Whether the window has more points than are gone through. It takes no memory.
pub fn is_too_wide(net: &Network, w: &Window) -> bool
    ensures { MatchBool result (TooWide net.now w.now) (TooWide net.now w.now → ⊥) }
{
    net.points(w) > MAX_WINDOW_POINTS as u128
}
