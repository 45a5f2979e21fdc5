ghost use Rattle.std.specs.Prelude.{◌++◌};
ghost use Rattle.mv_base.specs.Outside.{Appends};

use crate::{Failed, Sink};

/// Appends both pieces to the sink. It takes no memory.
pub fn put_both<K: Sink>(first: &[u8], second: &[u8], out: &mut K) -> Result<(), Failed>
    ensures { Appends (K.state out.old) (K.state out.new) (first.now ++ second.now) result }
{
    out.put(first)?;
    out.put(second)
}
