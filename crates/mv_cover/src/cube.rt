ghost use Rattle.std.specs.Prelude.{◌≡◌, ◌<◌, ◌≤◌, ◌^◌, length, IfOk};

use crate::Lit;
use crate::literal::copy_all;
use mv_base::{Memory, NetId};
use smallvec::SmallVec;
use std::alloc::Global;
use std::hash::{Hash, Hasher};
use std::marker::Model;

/// A cube: all of its literals hold. Their nets ascend, and no set is empty. Up to two literals stand in the cube itself, and
/// more of them in memory of their own.
#[derive(Drop)]
pub struct Cube {
    lits: SmallVec<Lit, 2>,
}

impl Model for Cube {
    ghost use Rattle.std.specs.Prelude.{List};
    ghost use Rattle.mv_cover.specs.Literal.{Lit as a_lit};

    ghost Value = { List a_lit };

    ghost use Rattle.mv_cover.specs.Cubes.{IsCube};

    ghost view = { λ c. c.lits.items };

    ghost invariant = { λ c. IsCube c.lits.items };
}

impl Cube {
    ghost use Rattle.mv_cover.specs.Cubes.{IsCube};

    /// The cube with these literals, whose nets ascend and whose sets aren't empty.
    pub fn new(alloc: Global, lits: &[Lit]) -> Result<Cube, Memory>
        requires { IsCube lits.now }
        ensures { IfOk result (λ cube. cube ≡ lits.now) }
    {
        let mut copies = SmallVec::with_capacity(alloc, lits.len())?;
        copy_all(&mut copies, lits)?;
        Ok(Cube { lits: copies })
    }

    /// The cube of these literals, whose nets ascend and whose sets aren't empty. It takes no memory.
    pub fn of(lits: SmallVec<Lit, 2>) -> Cube
        requires { IsCube lits.items }
        ensures { result ≡ lits.items }
    {
        let mut lits = lits;
        lits.shrink_to_fit();
        Cube { lits }
    }

    /// The literals, by ascending net.
    pub fn lits(&self) -> &[Lit]
        ensures lits { result.now ≡ self.now }
        ensures formed { IsCube self.now }
    {
        self.lits.as_slice()
    }

    /// The allocator that the cube got when it was made.
    pub fn allocator(&self) -> Global {
        *self.lits.allocator()
    }

    /// An equal cube.
    pub fn copy(&self) -> Result<Cube, Memory>
        ensures copy { IfOk result (λ cube. cube ≡ self.now) }
        ensures formed { IsCube self.now }
    {
        Cube::new(self.allocator(), self.lits())
    }

    /// How many literals there are. It takes no memory.
    pub fn len(&self) -> usize
        ensures value { result ≡ length self.now }
        ensures short { result ≤ 2 ^ 32 }
    {
        let lits = self.lits();
        match lits.last() {
            None => 0,
            Some(last) => {
                within_numbers(last.net());
                lits.len()
            }
        }
    }
}

impl PartialEq for Cube {
    ghost use Rattle.mv_cover.specs.Equal.{cube_eq};
    ghost use Rattle.mv_cover.specs.Keys.{cube_eq-partial_equiv};

    ghost eq = { cube_eq };

    ghost laws = { cube_eq-partial_equiv };

    fn eq(&self, other: &Cube) -> bool {
        self.lits == other.lits
    }
}

impl Eq for Cube {
    ghost use Rattle.mv_cover.specs.Keys.{cube_eq-equiv};

    ghost laws = { cube_eq-equiv };
}

impl Hash for Cube {
    ghost use Rattle.mv_cover.specs.Equal.{cube_fed};
    ghost use Rattle.mv_cover.specs.Keys.{cube_fed-same};

    ghost hash_input = { cube_fed };

    ghost respects_eq = { cube_fed-same };

    fn hash<H: Hasher>(&self, state: &mut H) {
        self.lits.hash(state);
    }
}

/// Every number of a net fits its type.
fn within_numbers(n: NetId)
    ensures { n.0 < 2 ^ 32 }
{
    let _ = n;
}
