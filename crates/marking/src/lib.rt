// The block search: it marks the crossed cubes in rows of cubes, passing over blocks whose samples are all on one side.
#![tactic(auto)]

ghost use Rattle.std.specs.Prelude.{◌≡◌, true, false, List, ℤ, ◌+◌, ◌-◌, ◌*◌, ◌≤◌, ◌<◌, length};
ghost use Rattle.paper.specs.Lattice.{lattice};
ghost use Rattle.paper.specs.Within.{CubeIn};
ghost use Rattle.rows.specs.Rows.{HasBoth, HasCubes};
ghost use Rattle.blocks.specs.Blocks.{half_at, part, in_block, in_box, Block, Outside, crossed_where, Marked, Blank, crossed_cubes};

use paper::{Place, Sizes};
use rows::Rows;

// Where the near half (d = 0) or the far half of an axis begins: d is a binary digit of the part's number, as in the definition.
#[tactic(auto, unfolding(blocks::specs::Blocks::half_at))]
fn half(a: usize, h: usize, d: usize) -> usize
    requires { a + h ≤ 64 }
    ensures { (result ≡ half_at a h d) × (result ≤ a + h) }
{
    if d == 0 { a } else { a + h }
}

// Where part k of eight begins, each being h long.
#[tactic(auto, unfolding(blocks::specs::Blocks::part))]
fn part(at: Place, h: usize, k: usize) -> Place
    requires { (at.x + h ≤ 64) × (at.y + h ≤ 64) × (at.z + h ≤ 64) × (k < 8) }
    ensures is { result ≡ part at h k }
    ensures near { (result.x ≤ at.x + h) × (result.y ≤ at.y + h) × (result.z ≤ at.z + h) }
{
    Place {
        x: half(at.x, h, k % 2),
        y: half(at.y, h, k / 2 % 2),
        z: half(at.z, h, k / 4),
    }
}

// Whether a block begins beyond the lattice.
fn beyond(sizes: Sizes, at: Place) -> bool
    requires { (at.x ≤ 64) × (at.y ≤ 64) × (at.z ≤ 64) }
    ensures { (result ≡ true → Outside sizes at) × (result ≡ false → CubeIn sizes at) }
{
    sizes.nx <= at.x + 1 || sizes.ny <= at.y + 1 || sizes.nz <= at.z + 1
}

// A mark on each crossed one (free of the fill, and mixed) of the n cubes of a row from the one at a place on.
fn mark_part(rows: &Rows, at: Place, n: usize, found: &mut [u64])
    requires found_long { let z = rows.now.sizes in z.ny * z.nz ≤ length found.old }
    requires n_bound { let z = rows.now.sizes in (at.x + n < z.nx) × (at.y + 1 < z.ny) × (at.z + 1 < z.nz) }
    ensures { let z = rows.now.sizes in
        Marked z (crossed_where z rows.now.sides.now rows.now.cubes.now (in_box at n 1 1)) found.old found.new }
{
    let m = rows.crossed(at.y, at.z);
    let k = bits::low_bits(at.x + n) - bits::low_bits(at.x);
    found[at.y + rows.sizes.ny * at.z] |= m & k;
}

// The same of the rows from y on that are below end.
fn mark_layer(rows: &Rows, at: Place, n: usize, end: usize, found: &mut [u64])
    requires found_long { let z = rows.now.sizes in z.ny * z.nz ≤ length found.old }
    requires n_bound { let z = rows.now.sizes in (at.x + n < z.nx) × (at.y ≤ end) × (end < z.ny) × (at.z + 1 < z.nz) }
    ensures { let z = rows.now.sizes in
        Marked z (crossed_where z rows.now.sides.now rows.now.cubes.now (in_box at n (end - at.y) 1)) found.old found.new }
{
    for y in at.y..end {
        mark_part(rows, Place { y, ..at }, n, found);
    }
}

// A mark on each crossed cube of a block, row by row.
fn mark_cubes(rows: &Rows, at: Place, size: usize, found: &mut [u64])
    requires found_long { let z = rows.now.sizes in z.ny * z.nz ≤ length found.old }
    requires cube_in { CubeIn rows.now.sizes at × Block at size }
    ensures { let z = rows.now.sizes in
        Marked z (crossed_where z rows.now.sides.now rows.now.cubes.now (in_block at size)) found.old found.new }
{
    // A copy, whose fields need not be read again after each store.
    let own = *rows;
    let sizes = own.sizes;
    let n = size.min(sizes.nx - 1 - at.x);
    let y_end = (at.y + size).min(sizes.ny - 1);
    let z_end = (at.z + size).min(sizes.nz - 1);
    for z in at.z..z_end {
        mark_layer(&own, Place { z, ..at }, n, y_end, found);
    }
}

// A mark on each crossed cube of a block: cut in eight, until a block is four cubes long; the rows of such a block are words.
pub fn mark_block(rows: &Rows, at: Place, size: usize, found: &mut [u64])
    requires { let z = rows.now.sizes in
        Block at size × (z.ny * z.nz ≤ length found.old) }
    ensures { let z = rows.now.sizes in
        Marked z (crossed_where z rows.now.sides.now rows.now.cubes.now (in_block at size)) found.old found.new }
{
    if beyond(rows.sizes, at) {
        return;
    }
    if blocks::one_side(rows, at, size) {
        return;
    }
    if size <= 4 {
        mark_cubes(rows, at, size, found);
        return;
    }
    let h = size / 2;
    for k in 0..8 {
        mark_block(rows, part(at, h, k), h, found);
    }
}

// The crossed cubes of the lattice that has these rows, of sides and of cubes that may be visited; the words of found are 0 before.
pub fn mark_crossed(rows: &Rows, found: &mut [u64])
    requires { let z = rows.now.sizes in Blank (z.ny * z.nz) found.old }
    ensures { let z = rows.now.sizes in
        ((s : List ℤ) → let L = lattice z s in
        HasBoth L rows.now.sides.now rows.now.cubes.now → HasCubes z (crossed_cubes L) found.new) }
{
    let origin = Place { x: 0, y: 0, z: 0 };
    mark_block(rows, origin, 64, found);
}
