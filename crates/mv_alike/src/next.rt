ghost use Rattle.std.specs.Prelude.{◌≡◌, ◌<◌, true, is_some, IfOk, IsTrue, MatchOption};
ghost use Rattle.mv_alike.specs.Merges.{GivesEach, HasNoMerge, IsNextMerge};
ghost use Rattle.mv_net.specs.Index.{is_held};
ghost use Rattle.mv_net.specs.Nets.{slot, table_in, values_in};

use crate::classes::classes_of;
use crate::given::least_ungiven;
use crate::pair::first_pair;
use mv_base::{Memory, NetId, Value};
use mv_net::Network;
use std::alloc::Global;

/// A merge of values of a net: one goes, and another takes its place or none does.
#[derive(Clone, Copy, Debug, PartialEq, Eq)]
pub struct NextMerge {
    pub gone: Value,
    pub into: Option<Value>,
}

/// The merge that comes first at a held net. The least value that its table never gives goes; if it gives each, then of the two
/// values V below W that no literal tells apart, of which V is the least and then W, W goes into V. None where the net has no
/// table or one value, and where neither is there. It fails for want of memory alone.
pub fn next_merge(alloc: Global, net: &Network, n: NetId) -> Result<Option<NextMerge>, Memory>
    requires { IsTrue (is_held net.now.nets n.0) }
    ensures { IfOk result
        (λ next. MatchOption next (HasNoMerge net.now.nets n.0) (IsNextMerge net.now.nets n.0)) }
{
    net.well_formed();
    let values = net.values(n);
    if values < 2 {
        return Ok(None);
    }
    match net.table(n) {
        None => Ok(None),
        Some(cover) => match least_ungiven(cover, values) {
            Some(gone) => Ok(Some(NextMerge { gone, into: None })),
            None => next_alike(alloc, net, n),
        },
    }
}

/// The same of a net that gives each of its values, of which it has several.
fn next_alike(alloc: Global, net: &Network, n: NetId) -> Result<Option<NextMerge>, Memory>
    requires held { IsTrue (is_held net.now.nets n.0) }
    requires table { is_some (table_in (slot net.now.nets n.0)) ≡ true }
    requires several { 1 < values_in (slot net.now.nets n.0) }
    requires given { GivesEach net.now.nets n.0 }
    ensures { IfOk result
        (λ next. MatchOption next (HasNoMerge net.now.nets n.0) (IsNextMerge net.now.nets n.0)) }
{
    let classes = classes_of(alloc, net, n)?;
    match first_pair(classes.as_slice()) {
        None => Ok(None),
        Some(pair) => Ok(Some(NextMerge {
            gone: pair.high,
            into: Some(pair.low),
        })),
    }
}
