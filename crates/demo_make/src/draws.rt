//! What is drawn for each function.

ghost use Rattle.std.specs.Prelude.{◌≡◌, ℕ, ◌+◌, ◌*◌, ◌<◌};
ghost use Rattle.demo_make.specs.Draws.{choice, random_below, generator};

use rand_core::SeedableRng;
use rand_core::utils::NextWord;
use rand_pcg::Lcg64Xsh32;

/// What is drawn for one of f0 to f31.
#[derive(Clone, Copy, Debug)]
pub struct Choice {
    /// The number of the function that it calls first.
    pub first: u32,
    /// The number of the function that it calls then.
    pub second: u32,
    /// Where its counter stands in the second segment, in bytes.
    pub counter: u32,
}

/// The generator of a size, before its first word.
#[tactic(auto, unfolding(crate::specs::Draws::generator))]
pub fn generator_of(size: u32) -> Lcg64Xsh32
    ensures { result ≡ generator size 0 }
{
    Lcg64Xsh32::seed_from_u64(u64::from(size))
}

/// The next word of a size's generator, modulo a limit.
fn draw(words: &mut Lcg64Xsh32, limit: u32) -> u32
    requires { 0 < limit }
    ensures below { result < limit }
    ensures drawn { (size i : ℕ) → words.old ≡ generator size i → result ≡ random_below limit size i }
    ensures next { (size i : ℕ) → words.old ≡ generator size i → words.new ≡ generator size (i + 1) }
{
    words.next_word() % limit
}

/// What is drawn for the next function.
pub fn choose(words: &mut Lcg64Xsh32) -> Choice
    ensures first_below { result.first < 32 }
    ensures second_below { result.second < 32 }
    ensures counter_below { result.counter < 2048 }
    ensures choice { (size k : ℕ) → words.old ≡ generator size (3 * k) → result ≡ choice size k }
    ensures next { (size k : ℕ) → words.old ≡ generator size (3 * k) → words.new ≡ generator size (3 * (k + 1)) }
{
    let first = draw(words, 32);
    let second = draw(words, 32);
    let word = draw(words, 512);
    Choice {
        first,
        second,
        counter: 4 * word,
    }
}
