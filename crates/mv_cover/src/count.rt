ghost use Rattle.std.specs.Prelude.{◌≡◌, slice_index};

use mv_base::NetId;

/// How many values the net has, which is none outside the counts.
pub(crate) fn count_of(counts: &[u16], net: NetId) -> u16
    ensures { result ≡ slice_index counts.now net.0 }
{
    counts.get(net.0 as usize).copied().unwrap_or(0)
}
