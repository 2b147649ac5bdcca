// Words as sets of places: place x is in a word where its bit x is 1.
#![tactic(auto)]

ghost use Rattle.std.specs.Prelude.{◌≡◌, ◌-◌, ◌^◌, ◌≤◌, ◌<◌};
ghost use Rattle.std.specs.Int.Count.{ones as ones_of};
ghost use Rattle.bits.specs.Words.{bit};

// Whether place x is in a word.
#[tactic(auto, unfolding(crate::specs::Words::bit))]
pub fn has_bit(w: u64, x: usize) -> bool
    requires { x < 64 }
    ensures { result ≡ bit w x }
{
    (w >> x) % 2 == 1
}

// The places below n.
pub fn low_bits(n: usize) -> u64
    requires { n < 64 }
    ensures { result ≡ 2 ^ n - 1 }
{
    (1 << n) - 1
}

// How many places a word has.
pub fn ones(w: u64) -> usize
    ensures { (result ≡ ones_of w) × (result ≤ 64) }
{
    u64::count_ones(w) as usize
}
