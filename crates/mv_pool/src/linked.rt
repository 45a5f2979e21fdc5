ghost use Rattle.std.specs.Prelude.{◌≡◌, ℕ, Option};
ghost use Rattle.mv_pool.specs.declared.pool.Id.{Id};

use crate::Id;

/// An item that links to other items of its pool.
pub trait Linked {
    // the items that it links to, for 0 and for 1
    ghost link_of: { Self → ℕ → Option Id };

    /// The item that it links to, for `k` of 0 and of 1.
    fn link(&self, k: u32) -> Option<Id>
        ensures { result ≡ link_of self.now k };
}
