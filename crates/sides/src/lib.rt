// The side of a sample, whether it is the fill, a corner's side in a pattern, and digits of words.
#![tactic(auto)]

ghost use Rattle.std.specs.Prelude.{◌≡◌, ◌≤◌, ◌<◌};
ghost use Rattle.paper.specs.Lattice.{air, is_fill};
ghost use Rattle.sides.specs.Pattern.{bit_of, digit_of};

// Above 0 is air.
#[tactic(auto, unfolding(paper::specs::Lattice::air))]
pub fn is_air(v: i16) -> bool
    ensures { result ≡ air v }
{
    0 < v
}

// -32768 is the fill.
#[tactic(auto, unfolding(paper::specs::Lattice::is_fill))]
pub fn is_fill(v: i16) -> bool
    ensures { result ≡ is_fill v }
{
    v == -32768
}

// The side of corner c in a pattern.
#[tactic(auto, unfolding(crate::specs::Pattern::bit_of))]
pub fn bit(m: usize, c: usize) -> usize
    requires { c < 8 }
    ensures { (result ≡ bit_of m c) × (result ≤ 1) }
{
    (m >> c) % 2
}

// Digit i, from the right, of a word of octal digits.
#[tactic(auto, unfolding(crate::specs::Pattern::digit_of))]
pub fn digit(word: usize, i: usize) -> usize
    requires { i < 21 }
    ensures { (result ≡ digit_of word i) × (result < 8) }
{
    (word >> (3 * i)) % 8
}
