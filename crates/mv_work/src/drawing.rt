ghost use Rattle.std.specs.Prelude.{◌≡◌, ◌<◌};
ghost use Rattle.mv_work.specs.Drawing.{generator, draw};

use rand_core::utils::NextWord;
use rand_pcg::Pcg32;

/// The generator of this seed.
#[tactic(auto, unfolding(crate::specs::Drawing::generator))]
pub fn generator(seed: u64) -> Pcg32
    ensures { result ≡ generator seed }
{
    Pcg32::new(seed, 1)
}

/// A number below `bound`, by the generator's next word.
#[tactic(auto, unfolding(crate::specs::Drawing::draw))]
pub fn draw(random: &mut Pcg32, bound: u32) -> u32
    requires { 0 < bound }
    ensures below { result < bound }
    ensures value { result ≡ (draw bound random.old).value }
    ensures rest { random.new ≡ (draw bound random.old).rest }
{
    random.next_word() % bound
}
