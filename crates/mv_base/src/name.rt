ghost use Rattle.std.specs.Prelude.{◌≡◌, IfOk};
ghost use Rattle.mv_base.specs.NameBytes.{bytes_of};
ghost use Rattle.mv_base.specs.Names.{same_word};

use crate::Memory;
use crate::inline_bytes::InlineBytes;
use std::alloc::Global;
use std::cmp::Ordering;
use std::hash::{Hash, Hasher};
use std::marker::Model;
use std::rc::Rc;

/// How many bytes stand in a name itself: with their number and a tag it takes sixteen.
const INLINE: usize = 14;

/// How many bytes stand beside the count of a shared name's copies: one piece of memory of 64 bytes holds all of it.
const BESIDE: usize = 47;

/// A text, seen as its list of bytes. A short one stands in the name itself, of which there are very many; a longer one stands
/// in memory once, for all its copies.
#[derive(Debug, Drop)]
pub struct Name {
    alloc: Global,
    storage: Storage,
}

/// Where the bytes of a name stand.
#[derive(Debug, Drop)]
enum Storage {
    Inline(InlineBytes<INLINE>),
    Beside(Rc<InlineBytes<BESIDE>>),
    Shared(Rc<Vec<u8>>),
}

impl Model for Name {
    ghost use Rattle.std.specs.Prelude.{List, ℕ};

    ghost Value = { List ℕ };

    ghost use Rattle.mv_base.specs.NameBytes.{bytes_of};

    ghost view = { λ n. bytes_of n.storage };
}

impl Name {
    /// The name with these bytes.
    pub fn new(alloc: Global, bytes: &[u8]) -> Result<Name, Memory>
        ensures { IfOk result (λ n. n ≡ bytes.now) }
    {
        Ok(Name {
            alloc,
            storage: stored(alloc, bytes)?,
        })
    }

    /// The bytes of the name.
    pub fn bytes(&self) -> &[u8]
        ensures { result.now ≡ self.now }
    {
        match &self.storage {
            Storage::Inline(inline) => inline.as_slice(),
            Storage::Beside(beside) => beside.as_ref().as_slice(),
            Storage::Shared(shared) => shared.as_ref().as_slice(),
        }
    }

    /// An equal name. It takes no memory.
    pub fn copy(&self) -> Result<Name, Memory>
        ensures { IfOk result (λ n. n ≡ self.now) }
    {
        let storage = match &self.storage {
            Storage::Inline(inline) => Storage::Inline(inline.copy()),
            Storage::Beside(beside) => Storage::Beside(beside.clone()?),
            Storage::Shared(shared) => Storage::Shared(shared.clone()?),
        };
        Ok(Name {
            alloc: self.alloc,
            storage,
        })
    }
}

/// These bytes, with memory of their own if they are many.
fn stored(alloc: Global, bytes: &[u8]) -> Result<Storage, Memory>
    ensures { IfOk result (λ storage. bytes_of storage ≡ bytes.now) }
{
    if bytes.len() <= INLINE {
        return Ok(Storage::Inline(InlineBytes::of(bytes)));
    }
    if bytes.len() <= BESIDE {
        return Ok(Storage::Beside(Rc::new(alloc, InlineBytes::of(bytes))?));
    }
    let long = Vec::from_slice(alloc, bytes)?;
    Ok(Storage::Shared(Rc::new(alloc, long)?))
}

impl PartialEq for Name {
    ghost use Rattle.std.specs.Prelude.{nat_eq};
    ghost use Rattle.std.specs.Cmp.Lexicographic.{pointwise};
    ghost use Rattle.std.proofs.Common.{rules};
    ghost use Rattle.std.specs.Cmp.Rules.{comparing};

    ghost eq = { pointwise nat_eq };

    ghost laws = { Prim.search (comparing, rules) };

    fn eq(&self, other: &Name) -> bool {
        same_bytes(self.bytes(), other.bytes())
    }
}

impl Eq for Name {
    ghost use Rattle.std.proofs.Common.{rules};
    ghost use Rattle.std.specs.Cmp.Rules.{comparing};

    ghost laws = { Prim.search (comparing, rules) };
}

impl Ord for Name {
    ghost use Rattle.std.specs.Cmp.Lexicographic.{slice_cmp};
    ghost use Rattle.std.specs.Ordering.{nat_cmp};
    ghost use Rattle.std.proofs.Common.{rules};
    ghost use Rattle.std.specs.Cmp.Rules.{comparing};

    ghost cmp = { slice_cmp nat_cmp };

    ghost total = { Prim.search (comparing, rules) };

    ghost matches_partial_cmp = { Prim.search (comparing, rules) };

    ghost matches_eq = { Prim.search (comparing, rules) };

    fn cmp(&self, other: &Name) -> Ordering {
        self.bytes().cmp(other.bytes())
    }
}

impl PartialOrd for Name {
    ghost use Rattle.std.specs.Cmp.Lexicographic.{slice_cmp};
    ghost use Rattle.std.specs.Ordering.{nat_cmp, as_partial_cmp};
    ghost use Rattle.std.proofs.Common.{rules};
    ghost use Rattle.std.specs.Cmp.{partial_order_from_own_ties};
    ghost use Rattle.std.specs.Cmp.Rules.{comparing};

    ghost partial_cmp = { as_partial_cmp (slice_cmp nat_cmp) };

    ghost laws = { partial_order_from_own_ties (Prim.search (comparing, rules)) (Prim.search (comparing, rules)) };

    fn partial_cmp(&self, other: &Name) -> Option<Ordering> {
        Some(self.cmp(other))
    }
}

impl Hash for Name {
    ghost use Rattle.std.specs.Prelude.{[], ◌∷◌};
    ghost use Rattle.std.proofs.Common.{ap};
    ghost use Rattle.std.proofs.lemmas.Slice.Eq.{bytes_eq-Decides};

    ghost hash_input = { λ n. n ∷ [] };

    ghost respects_eq = { λ x y h. ap (λ n. n ∷ []) ((bytes_eq-Decides x y).0 h) };

    fn hash<H: Hasher>(&self, state: &mut H) {
        state.write(self.bytes());
    }
}

/// Whether these are the same bytes. Few are held against each other one by one, up to the first that differs.
pub fn same_bytes(a: &[u8], b: &[u8]) -> bool
    ensures { result ≡ same_word a.now b.now }
{
    if a.len() != b.len() {
        return false;
    }
    if a.len() > INLINE {
        return a == b;
    }
    for at in 0..a.len() {
        if a[at] != b[at] {
            return false;
        }
    }
    true
}
