// Blocks of cubes whose samples are all on one side. What a block and its parts are stands in specs.
#![tactic(auto)]

ghost use Rattle.std.specs.Prelude.{◌≡◌, true, false, cond, ◌+◌, ◌-◌, ◌*◌, ◌/◌, ◌^◌, ◌≤◌, ◌<◌, length, get_or};
ghost use Rattle.std.specs.Int.Bits.{bit_and};
ghost use Rattle.paper.specs.Within.{CubeIn};
ghost use Rattle.blocks.specs.Blocks.{Block, OneSide};

use paper::Place;
use rows::Rows;

// The lowest n bits, of up to all 64.
fn mask(n: usize) -> u64
    requires { (1 ≤ n) × (n ≤ 64) }
    ensures { result ≡ 2 ^ n - 1 }
{
    2 * bits::low_bits(n - 1) + 1
}

// The row of sides at y and z.
#[tactic(auto, using(rows::proofs::Making::row_lt))]
fn row_of(rows: &Rows, y: usize, z: usize) -> u64
    requires { (y < rows.now.sizes.ny) × (z < rows.now.sizes.nz) }
    ensures { result ≡ get_or rows.now.sides.now (y + rows.now.sizes.ny * z) 0 }
{
    rows.sides[y + rows.sizes.ny * z]
}

// The bits m of a word from bit x on.
fn part_of(w: u64, x: usize, m: u64) -> u64
    requires { x < 64 }
    ensures { result ≡ bit_and (w / 2 ^ x) m }
{
    (w >> x) & m
}

// All bits of m, or none.
fn all_or_none(all: bool, m: u64) -> u64
    ensures { result ≡ cond all m 0 }
{
    if all { m } else { 0 }
}

// Whether the samples of a block of cubes are all on one side: each row has there what the first sample says.
pub fn one_side(rows: &Rows, at: Place, size: usize) -> bool
    requires { CubeIn rows.now.sizes at × Block at size }
    ensures { let alike = OneSide rows.now.sizes rows.now.sides.now at size in
        (result ≡ true → alike) × (result ≡ false → alike → ⊥) }
{
    let sizes = rows.sizes;
    let m = mask((size + 1).min(sizes.nx - at.x));
    let y_end = (at.y + size + 1).min(sizes.ny);
    let z_end = (at.z + size + 1).min(sizes.nz);
    let like = all_or_none(bits::has_bit(row_of(rows, at.y, at.z), at.x), m);
    for z in at.z..z_end {
        for y in at.y..y_end {
            if part_of(row_of(rows, y, z), at.x, m) != like {
                return false;
            }
        }
    }
    true
}
