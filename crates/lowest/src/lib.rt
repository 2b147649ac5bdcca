// The lowest crossed cube, of all or of those off the bounds.
#![tactic(auto)]

ghost use Rattle.std.specs.Prelude.{◌≡◌, List, ℤ, ◌+◌, ◌*◌, ◌<◌, get_or, IfSome, unwrap_or};
ghost use Rattle.paper.specs.Lattice.{lattice, cubes, lowest, inner};
ghost use Rattle.paper.specs.Within.{Sized};
ghost use Rattle.rows.specs.Rows.{HasBoth, quad_at, crossed_row, inside_row, wanted, wanted_row};

use paper::{Place, Sizes};
use rows::Rows;

// Whether neither face of the cube at i, on an axis of n samples, is in the bounds.
#[tactic(auto, unfolding(paper::specs::Lattice::inner))]
fn is_inner(n: usize, i: usize) -> bool
    requires { i < 64 }
    ensures { result ≡ inner n i }
{
    0 < i && i + 2 < n
}

// The cubes at y and z that have none of their six faces in the lattice's bounds.
fn inside_row(sizes: Sizes, y: usize, z: usize) -> u64
    requires { Sized sizes × (y < 64) × (z < 64) }
    ensures { result ≡ inside_row sizes y z }
{
    if is_inner(sizes.ny, y) && is_inner(sizes.nz, z) {
        let low = bits::low_bits(sizes.nx - 2);
        low - low % 2
    } else {
        0
    }
}

// The crossed cubes at y and z, or only those of them that are off the bounds: a flag, as the definition has it.
#[tactic(auto, unfolding(rows::specs::Rows::wanted_row))]
fn wanted_cubes(rows: &Rows, off: bool, y: usize, z: usize) -> u64
    requires { (y + 1 < rows.now.sizes.ny) × (z + 1 < rows.now.sizes.nz) }
    ensures { let n = rows.now.sizes in
        let at = y + n.ny * z in
        let m = crossed_row (quad_at rows.now.sides.now n.ny at) (get_or rows.now.cubes.now at 0) in
        result ≡ wanted_row off n y z m }
{
    let m = rows.crossed(y, z);
    if off {
        m & inside_row(rows.sizes, y, z)
    } else {
        m
    }
}

// The number of the lowest crossed cube of the lattice that has these rows, of all or of those off the bounds, where there is one.
pub fn lowest_crossed(rows: &Rows, off: bool) -> Option<usize>
    ensures below { IfSome result (λ k. k < cubes rows.now.sizes) }
    ensures lowest { let n = rows.now.sizes in
        ((s : List ℤ) → let L = lattice n s in
        HasBoth L rows.now.sides.now rows.now.cubes.now → unwrap_or result (cubes n) ≡ lowest n (wanted off L)) }
{
    let sizes = rows.sizes;
    let mut found = None;
    'sought: for z in 0..sizes.nz - 1 {
        for y in 0..sizes.ny - 1 {
            let m = wanted_cubes(rows, off, y, z);
            for x in 0..rows::to_look_at(m, sizes.nx - 1) {
                if bits::has_bit(m, x) {
                    found = Some(lattice::cube_no(sizes, Place { x, y, z }));
                    break 'sought;
                }
            }
        }
    }
    found
}
