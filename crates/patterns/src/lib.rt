// The table of the 256 patterns, made once a call: for each the steps of the edges of its triangles.
#![tactic(auto)]

ghost use Rattle.std.specs.Prelude.{◌≡◌, ◌+◌, ◌≤◌, ◌<◌, length};
ghost use Rattle.std.proofs.lemmas.List.Edits.{sets};
ghost use Rattle.paper.specs.Within.{Sized};
ghost use Rattle.patterns.specs.Table.{steps_from, pattern_from, steps_by, Tabled};

use paper::Sizes;
use tetra::Cut;

// The steps of row r of tetrahedron t, from place `at` on; the next place is returned.
#[tactic(auto, using(tetra::proofs::Tables::count_le))]
fn put_steps(cut: &Cut, t: usize, r: usize, steps: &mut [u16], at: usize) -> usize
    requires { (t < 6) × (r < 16) × (at + 6 ≤ length steps.old) }
    ensures { let new = steps_from cut.now.steps t r in
        (steps.new ≡ sets steps.old at new) × (result ≡ at + length new) }
{
    let n = 3 * tetra::row_count(r);
    // By index: of what is written through iter_mut a proof knows the length only.
    for i in 0..n {
        steps[at + i] = cut.steps[96 * t + (6 * r + i)] as u16;
    }
    at + n
}

// The steps of a cube with pattern m.
fn put_pattern(cut: &Cut, m: usize, steps: &mut [u16], at: usize) -> usize
    requires { at + 36 ≤ length steps.old }
    ensures { let new = pattern_from cut.now.steps m in
        (steps.new ≡ sets steps.old at new) × (result ≡ at + length new) }
{
    let mut next = at;
    for t in 0..6 {
        next = put_steps(cut, t, tetra::row(m, t), steps, next);
    }
    next
}

// The steps of each pattern, 36 places to a pattern, and how many it has, at the front of what is lent: a caller has the one copy.
pub fn pattern_table(sizes: Sizes, steps: &mut [u16], counts: &mut [usize])
    requires { Sized sizes × (9216 ≤ length steps.old) × (256 ≤ length counts.old) }
    ensures { Tabled (steps_by sizes) 256 steps.new counts.new }
{
    let cut = Cut::new(sizes);
    // Flat, as the definition Tabled has it: a list of numbers.
    for m in 0..256 {
        let end = put_pattern(&cut, m, steps, 36 * m);
        counts[m] = end - 36 * m;
    }
}
