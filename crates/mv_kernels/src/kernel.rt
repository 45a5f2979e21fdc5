ghost use Rattle.std.specs.Prelude.{◌≡◌, IfOk};

use mv_base::{Items, Memory};
use mv_cover::Cube;
use std::hash::{Hash, Hasher};

/// A kernel of a cover: at least two cubes without a common symbol, each once, in ascending order.
/// A cube is compared as the list of its literals, and a literal by its net and then by its set.
#[derive(Drop)]
pub struct Kernel {
    pub cubes: Items<Cube>,
}

impl Kernel {
    /// An equal kernel.
    pub fn copy(&self) -> Result<Kernel, Memory>
        ensures { IfOk result (λ kernel. kernel ≡ self.now) }
    {
        let mut cubes = Items::new(self.cubes.allocator());
        for cube in self.cubes.as_slice() {
            cubes.push(cube.copy()?)?;
        }
        Ok(Kernel { cubes })
    }
}

impl PartialEq for Kernel {
    ghost use Rattle.mv_kernels.specs.Equal.{kernel_eq};
    ghost use Rattle.mv_kernels.specs.Keys.{kernel_eq-partial_equiv};

    ghost eq = { kernel_eq };

    ghost laws = { kernel_eq-partial_equiv };

    fn eq(&self, other: &Kernel) -> bool {
        self.cubes.as_slice() == other.cubes.as_slice()
    }
}

impl Eq for Kernel {
    ghost use Rattle.mv_kernels.specs.Keys.{kernel_eq-equiv};

    ghost laws = { kernel_eq-equiv };
}

impl Hash for Kernel {
    ghost use Rattle.mv_kernels.specs.Equal.{kernel_fed};
    ghost use Rattle.mv_kernels.specs.Keys.{kernel_fed-same};

    ghost hash_input = { kernel_fed };

    ghost respects_eq = { kernel_fed-same };

    fn hash<H: Hasher>(&self, state: &mut H) {
        self.cubes.as_slice().hash(state);
    }
}
