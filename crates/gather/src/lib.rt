// The pass over the crossed cubes by rising number: a cube that is in no piece so far begins one.
#![tactic(auto)]

ghost use Rattle.std.specs.Prelude.{List, ◌+◌, ◌-◌, ◌≤◌, ◌<◌, ℤ, length};
ghost use Rattle.paper.specs.Lattice.{lattice, cubes, cube_no};
ghost use Rattle.paper.specs.Within.{CubeIn};
ghost use Rattle.rows.specs.Rows.{HasBoth, HasCubes};
ghost use Rattle.ways.specs.Ways.{words as row_words};
ghost use Rattle.spread.specs.Flooded.{Empty};
ghost use Rattle.blocks.specs.Blocks.{crossed_cubes};
ghost use Rattle.gather.specs.Gathering.{held, Fit, Leads, HasCrossed, row_start};

use paper::Place;
use rows::Rows;

// The cube at p begins a piece if m has it among the crossed cubes of its row and it is in no piece so far: then its piece is marked and
// its number listed. How many are listed is returned. What is lent stays parameters: a method of a struct that holds these slices would
// also have to promise that they are the same slices after it.
fn try_cube(
    rows: &Rows,
    m: u64,
    p: Place,
    vis: &mut [u64],
    due: &mut [u64],
    waiting: &mut [u32],
    list: &mut [u32],
    n: usize,
) -> usize
    requires cube { let z = rows.now.sizes in
        CubeIn z p × HasCrossed z rows.now.sides.now rows.now.cubes.now p.y p.z m }
    requires fit { let z = rows.now.sizes in
        let given = held vis.old waiting.old list.old n in
        Fit z rows.now.sides.now rows.now.cubes.now (cube_no z p) given × Empty (row_words z) due.old }
    ensures { let z = rows.now.sizes in
        let before = held vis.old waiting.old list.old n in
        let after = held vis.new waiting.new list.new result in
        let k = cube_no z p in
        Leads z rows.now.sides.now rows.now.cubes.now k (k + 1) before after × Empty (row_words z) due.new }
{
    let r = p.y + rows.sizes.ny * p.z;
    if !bits::has_bit(m & !vis[r], p.x) {
        return n;
    }
    spread::flood(rows, r, p.x, vis, due, waiting);
    list[n] = lattice::cube_no(rows.sizes, p) as u32;
    n + 1
}

// The cubes of the row at y and z, of which m has the crossed ones.
fn scan_row(
    rows: &Rows,
    m: u64,
    y: usize,
    z: usize,
    vis: &mut [u64],
    due: &mut [u64],
    waiting: &mut [u32],
    list: &mut [u32],
    n: usize,
) -> usize
    requires row { let s = rows.now.sizes in
        (y + 1 < s.ny) × (z + 1 < s.nz) × HasCrossed s rows.now.sides.now rows.now.cubes.now y z m }
    requires fit { let s = rows.now.sizes in
        let given = held vis.old waiting.old list.old n in
        Fit s rows.now.sides.now rows.now.cubes.now (row_start s y z) given × Empty (row_words s) due.old }
    ensures { let s = rows.now.sizes in
        let before = held vis.old waiting.old list.old n in
        let after = held vis.new waiting.new list.new result in
        let k = row_start s y z in
        Leads s rows.now.sides.now rows.now.cubes.now k (k + (s.nx - 1)) before after × Empty (row_words s) due.new }
{
    if m & !vis[y + rows.sizes.ny * z] == 0 {
        return n;
    }
    let mut count = n;
    for x in 0..rows.sizes.nx - 1 {
        count = try_cube(rows, m, Place { x, y, z }, vis, due, waiting, list, count);
    }
    count
}

// The rows of cubes at z; found has the crossed cubes.
fn scan_layer(
    rows: &Rows,
    found: &[u64],
    z: usize,
    vis: &mut [u64],
    due: &mut [u64],
    waiting: &mut [u32],
    list: &mut [u32],
    n: usize,
) -> usize
    requires layer { let s = rows.now.sizes in (z + 1 < s.nz) × (row_words s ≤ length found.now) }
    requires has_cubes { let n = rows.now.sizes in
        ((s : List ℤ) → let L = lattice n s in
        HasBoth L rows.now.sides.now rows.now.cubes.now → HasCubes n (crossed_cubes L) found.now) }
    requires fit { let s = rows.now.sizes in
        let given = held vis.old waiting.old list.old n in
        Fit s rows.now.sides.now rows.now.cubes.now (row_start s 0 z) given × Empty (row_words s) due.old }
    ensures { let s = rows.now.sizes in
        let before = held vis.old waiting.old list.old n in
        let after = held vis.new waiting.new list.new result in
        Leads s rows.now.sides.now rows.now.cubes.now (row_start s 0 z) (row_start s (s.ny - 1) z) before after
        × Empty (row_words s) due.new }
{
    let mut count = n;
    for y in 0..rows.sizes.ny - 1 {
        let m = found[y + rows.sizes.ny * z];
        count = scan_row(rows, m, y, z, vis, due, waiting, list, count);
    }
    count
}

// All cubes by rising number; found has the crossed ones.
pub fn scan_lattice(
    rows: &Rows,
    found: &[u64],
    vis: &mut [u64],
    due: &mut [u64],
    waiting: &mut [u32],
    list: &mut [u32],
) -> usize
    requires found_long { row_words rows.now.sizes ≤ length found.now }
    requires has_cubes { let n = rows.now.sizes in
        ((s : List ℤ) → let L = lattice n s in
        HasBoth L rows.now.sides.now rows.now.cubes.now → HasCubes n (crossed_cubes L) found.now) }
    requires fit { let s = rows.now.sizes in
        let given = held vis.old waiting.old list.old 0 in
        Fit s rows.now.sides.now rows.now.cubes.now 0 given × Empty (row_words s) due.old }
    ensures { let s = rows.now.sizes in
        let before = held vis.old waiting.old list.old 0 in
        let after = held vis.new waiting.new list.new result in
        Leads s rows.now.sides.now rows.now.cubes.now 0 (cubes s) before after }
{
    let mut count = 0;
    for z in 0..rows.sizes.nz - 1 {
        count = scan_layer(rows, found, z, vis, due, waiting, list, count);
    }
    count
}
