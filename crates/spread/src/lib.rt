// The visited cubes by rows: the cubes of a row are the places of a word.
#![tactic(auto)]

ghost use Rattle.std.specs.Prelude.{◌≤◌, ◌<◌, length};
ghost use Rattle.paper.specs.Lattice.{cubes, cube_no};
ghost use Rattle.paper.specs.Room.{needed};
ghost use Rattle.paper.specs.Within.{CubeIn};
ghost use Rattle.ways.specs.Ways.{words, rows_of, RowIn, plan_of};
ghost use Rattle.spread.specs.Flooded.{room, Empty, Closed, cell, Flooded, Spreads, Finds};

use paper::Place;
use rows::Rows;

// The cubes that are reached from cube x of a row are visited, over words as they stand, which have with a cube all that is reached from
// it. How many were not visited before is returned.
pub fn flood(
    rows: &Rows,
    row: usize,
    x: usize,
    vis: &mut [u64],
    due: &mut [u64],
    waiting: &mut [u32],
) -> usize
    requires sized { RowIn rows.now.sizes row × (x < 64) }
    requires closed { let z = rows.now.sizes in
        Closed (plan_of z rows.now.sides.now rows.now.cubes.now) vis.old × Empty (words z) due.old × (rows_of z ≤ length waiting.old) }
    ensures { let z = rows.now.sizes in
        let before = room vis.old waiting.old in
        let after = room vis.new waiting.new in
        Flooded (plan_of z rows.now.sides.now rows.now.cubes.now) (cell row x) before after result × Empty (words z) due.new }
{
    let mut h = ways::wait_row(due, waiting, 0, row, 1 << x);
    let mut seen = 0;
    // A while: the list of rows that wait grows and shrinks.
    while 0 < h {
        h -= 1;
        let r = waiting[h] as usize;
        let q = rows.quad(r);
        let v = vis[r];
        let full = ways::filled(due[r], q.gates(rows.cubes[r]));
        let f = full & !v;
        due[r] = 0;
        vis[r] = v | f;
        seen += bits::ones(f);
        h = ways::pass_doors(rows, q, vis, due, waiting, h, r, f);
    }
    seen
}

// The visited cubes from the cube at a place; how many they are is returned.
pub fn flood_from(rows: &Rows, at: Place, vis: &mut [u64], waiting: &mut [u32]) -> usize
    requires at_in { CubeIn rows.now.sizes at }
    requires empty { let z = rows.now.sizes in Empty (words z) vis.old × (rows_of z ≤ length waiting.old) }
    ensures { let z = rows.now.sizes in
        let before = room vis.old waiting.old in
        let after = room vis.new waiting.new in
        Spreads z rows.now.sides.now rows.now.cubes.now (cube_no z at) before after result }
{
    let mut due = [0u64; 4096];
    flood(
        rows,
        at.y + rows.sizes.ny * at.z,
        at.x,
        vis,
        &mut due,
        waiting,
    )
}

// The visited cubes from cube k; how many they are is returned.
pub fn visit(rows: &Rows, k: usize, vis: &mut [u64], waiting: &mut [u32]) -> usize
    requires k_below { k < cubes rows.now.sizes }
    requires empty { let z = rows.now.sizes in Empty (words z) vis.old × (needed z ≤ length waiting.old) }
    ensures { Finds rows.now.sizes rows.now.sides.now rows.now.cubes.now k vis.new waiting.old waiting.new result }
{
    flood_from(rows, lattice::cube_at(rows.sizes, k), vis, waiting)
}
