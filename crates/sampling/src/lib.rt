// Rows made of the samples: their sides, and the cubes that may be visited.
#![tactic(auto)]

ghost use Rattle.std.specs.Prelude.{◌≡◌, ◌+◌, ◌*◌, ◌≤◌, ◌<◌, length};
ghost use Rattle.lists.specs.Lists.{over};
ghost use Rattle.paper.specs.Lattice.{lattice, air, is_fill};
ghost use Rattle.paper.specs.Sheet.{weight};
ghost use Rattle.paper.specs.Within.{Sized};
ghost use Rattle.bits.specs.Words.{word};
ghost use Rattle.rows.specs.Rows.{sides_from, fills_from, codes_from, side_rows, fill_rows, free_in, free_rows};

use lattice::Volume;
use paper::Sizes;
use rows::Quad;

// A row of samples: which of them are air, and which are the fill.
#[derive(Clone, Copy)]
pub struct Twin {
    pub sides: u64,
    pub fills: u64,
}

// 1 for air, 256 for the fill, 0 for solid else. Two `if`s: a sum of `u16::from` of both tests takes half as many steps again.
#[tactic(auto, using(rows::proofs::Making::air_no_fill))]
fn code(v: i16) -> u16
    ensures { (result ≡ weight (air v) 1 + 256 * weight (is_fill v) 1) × (result ≤ 257) }
{
    if sides::is_air(v) {
        return 1;
    }
    if sides::is_fill(v) { 256 } else { 0 }
}

// The code of sample i.
#[tactic(auto, using(rows::proofs::Making::codes_one))]
fn code_at(samples: &[i16], i: usize) -> u16
    requires { i < length samples.now }
    ensures { (result ≡ codes_from samples.now i 1) × (result ≤ 257) }
{
    code(samples[i])
}

// The codes of four samples from i on.
#[tactic(auto, using(rows::proofs::Making::codes_four))]
fn four(samples: &[i16], i: usize) -> u16
    requires { i + 4 ≤ length samples.now }
    ensures { (result ≡ codes_from samples.now i 4) × (result ≤ 3855) }
{
    let a = code_at(samples, i);
    let b = code_at(samples, i + 1);
    let c = code_at(samples, i + 2);
    let d = code_at(samples, i + 3);
    a + 2 * b + 4 * c + 8 * d
}

// The codes of eight samples from i on.
#[tactic(auto, using(rows::proofs::Making::codes_eight))]
fn eight(samples: &[i16], i: usize) -> u16
    requires { i + 8 ≤ length samples.now }
    ensures { result ≡ codes_from samples.now i 8 }
{
    let a = four(samples, i);
    let b = four(samples, i + 4);
    a + 16 * b
}

// The n samples from the first on: from their end, one by one down to a multiple of eight, and then eight at a time.
pub fn sample_row(samples: &[i16], first: usize, n: usize) -> Twin
    requires { (first + n ≤ length samples.now) × (n ≤ 64) }
    ensures { let s = samples.now in
        (result.sides ≡ sides_from s first n) × (result.fills ≡ fills_from s first n) }
{
    let mut sides: u64 = 0;
    let mut fills: u64 = 0;
    for k in (n - n % 8..n).rev() {
        let c = code_at(samples, first + k);
        sides = 2 * sides + u64::from(c % 256);
        fills = 2 * fills + u64::from(c / 256);
    }
    for k in (0..n / 8).rev() {
        let c = eight(samples, first + 8 * k);
        sides = 256 * sides + u64::from(c % 256);
        fills = 256 * fills + u64::from(c / 256);
    }
    Twin { sides, fills }
}

// All rows of sides and of the fill, each sample read once. By index: of what is written through iter_mut a proof knows the length only.
pub fn sample_rows(volume: &Volume, rows: &mut [u64], fills: &mut [u64])
    requires { let z = volume.now.sizes in
        (z.ny * z.nz ≤ length rows.old) × (z.ny * z.nz ≤ length fills.old) }
    ensures { let L = lattice volume.now.sizes volume.now.samples.now in
        (rows.new ≡ over (side_rows L) rows.old) × (fills.new ≡ over (fill_rows L) fills.old) }
{
    let sizes = volume.sizes;
    for r in 0..sizes.ny * sizes.nz {
        let t = sample_row(volume.samples, sizes.nx * r, sizes.nx);
        rows[r] = t.sides;
        fills[r] = t.fills;
    }
}

// The first n cubes of a row that have no corner in the words.
#[tactic(auto, using(rows::proofs::Cubes::free_word))]
fn free_row(q: Quad, n: usize) -> u64
    requires { n < 64 }
    ensures { result ≡ word (free_in q) n }
{
    let o = q.either();
    let low = bits::low_bits(n);
    low - ((o | (o >> 1)) & low)
}

// In place of all rows of the fill, the cubes of each row that are free of it. By index: a row is made of four of the words themselves.
pub fn free_rows(sizes: Sizes, words: &mut [u64])
    requires { Sized sizes × (sizes.ny * sizes.nz ≤ length words.old) }
    ensures { words.new ≡ over (free_rows sizes words.old) words.old }
{
    for r in 0..sizes.ny * (sizes.nz - 1) - 1 {
        let q = Quad::at(words, sizes.ny, r);
        words[r] = free_row(q, sizes.nx - 1);
    }
}
