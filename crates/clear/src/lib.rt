// The front of lent work slices set to 0.
#![tactic(auto)]

ghost use Rattle.std.specs.Prelude.{◌≡◌};
ghost use Rattle.paper.specs.Room.{work, lengths, clean};
ghost use Rattle.paper.specs.Within.{Sized, Roomy};

use paper::Sizes;

// The needed front of each work slice is 0, the rest as it was.
pub fn clear_work(sizes: Sizes, words: &mut [u16], waiting: &mut [u32], slots: &mut [u32])
    requires { Sized sizes × Roomy sizes (lengths (work words.old waiting.old slots.old)) }
    ensures { let before = work words.old waiting.old slots.old in
        let after = work words.new waiting.new slots.new in
        after ≡ clean sizes before }
{
    let n = lattice::cube_count(sizes);
    words[..n].fill(0);
    waiting[..n].fill(0);
    slots[..7 * lattice::sample_count(sizes)].fill(0);
}
