ghost use Rattle.std.specs.Prelude.{◌≡◌, IfSome, Contains};
ghost use Rattle.mv_diagram.specs.Results.{IsRemembered};

use crate::Dd;
use lru::LruCache;

/// One of the operations on two sets that go point by point.
#[derive(Clone, Copy, Debug, PartialEq, Eq, Hash)]
pub enum Operation {
    And,
    Or,
    Nand,
}

/// An operation on two diagrams.
#[derive(Clone, Copy, Debug, PartialEq, Eq, Hash)]
pub struct Key {
    pub operation: Operation,
    pub left: Dd,
    pub right: Dd,
}

impl Key {
    /// The operation on these two diagrams.
    pub fn of(operation: Operation, left: Dd, right: Dd) -> Key
        ensures { result ≡ record { operation = operation; left = left; right = right } }
    {
        Key {
            operation,
            left,
            right,
        }
    }
}

/// The results of operations, as far as they are remembered.
pub type Memo = LruCache<Key, Dd>;

/// The result of the operation, if it is remembered.
pub fn recall(memo: &Memo, key: Key) -> Option<Dd>
    ensures { IfSome result (λ d. Contains memo.now.entries (key, d)) }
{
    memo.peek(&key).copied()
}

/// Remembers a result, if there is memory for it.
pub fn keep(memo: &mut Memo, key: Key, d: Dd)
    ensures { IsRemembered memo.old.entries memo.new.entries key d }
{
    let _ = memo.put(key, d);
}
