ghost use Rattle.std.specs.Prelude.{◌≡◌};

use rand_core::SeedableRng;
use rand_core::utils::NextWord;
use rand_pcg::Pcg32;
use vx_value::TextList;

/// What generated input is made of.
#[derive(Drop)]
pub struct DemoSettings {
    /// The texts of which each line is one, chosen by the generator's next word modulo how many they are.
    pub lines: TextList,
    /// Whether each line begins with its number, from 0 on, and a blank.
    pub sequence: bool,
    /// How many lines there are.
    pub count: u64,
    /// The seed of the generator.
    pub seed: u64,
}

impl DemoSettings {
    ghost use Rattle.vx_demo.specs.DemoLines.{word_at};

    /// The word of the generator that chooses the line of that number, from 0 on.
    #[tactic(auto, unfolding(crate::specs::DemoLines::word_at, crate::specs::DemoLines::generator))]
    pub fn word(&self, k: u64) -> u32
        ensures { result ≡ word_at self.now.seed k }
    {
        let mut generator = Pcg32::seed_from_u64(self.seed);
        generator.advance(k);
        generator.next_word()
    }
}
