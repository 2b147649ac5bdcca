// The slots of a sheet's edges numbered, for a check in any order.
#![tactic(auto)]

ghost use Rattle.std.specs.Prelude.{◌≡◌, ◌≤◌, ◌<◌, length};
ghost use Rattle.paper.specs.Lattice.{lattice};
ghost use Rattle.paper.specs.Room.{needed_slots};
ghost use Rattle.dots.specs.Dots.{layer_edges, edges_by, numbered, Numbers, Crossed};

use paper::Rule;
use rows::Surface;

// The slots of the layer of anchors at z are numbered from `at` on; the next number is returned. Each row is written to the buffer, by
// either rule: nothing reads it. A loop of its own: where the vertices of all rows are kept, they stand behind one another, and there is
// room for all.
fn number_layer(
    surface: &Surface,
    z: usize,
    slots: &mut [u32],
    buffer: &mut [i32],
    at: usize,
) -> usize
    requires within { z < surface.now.rows.sizes.nz }
    requires room { (needed_slots surface.now.rows.sizes ≤ length slots.old) × (1792 ≤ length buffer.old) × (at < 4000000000) }
    requires crossed { let r = surface.now.rows in
        Crossed (lattice r.sizes surface.now.samples.now) (layer_edges r.sizes r.sides.now r.cubes.now z) }
    ensures { let r = surface.now.rows in
        Numbers (layer_edges r.sizes r.sides.now r.cubes.now z) at slots.old result slots.new }
{
    let mut next = at;
    for y in 0..surface.rows.sizes.ny {
        next = dots::put_row_at(Rule::Down, surface, y, z, slots, buffer, next, next);
    }
    next
}

// The slots of all edges with a vertex are numbered from 1 on.
pub fn number_slots(surface: &Surface, slots: &mut [u32])
    requires slots_in_bounds { needed_slots surface.now.rows.sizes ≤ length slots.old }
    requires crossed { let r = surface.now.rows in
        Crossed (lattice r.sizes surface.now.samples.now) (edges_by r.sizes r.sides.now r.cubes.now) }
    ensures { let r = surface.now.rows in
        slots.new ≡ numbered 1 (edges_by r.sizes r.sides.now r.cubes.now) slots.old }
{
    let mut buffer = [0i32; 1792];
    let mut next = 1;
    for z in 0..surface.rows.sizes.nz {
        next = number_layer(surface, z, slots, &mut buffer, next);
    }
}
