// All vertices of a sheet, written and numbered, layer by layer.
#![tactic(auto)]

ghost use Rattle.std.specs.Prelude.{◌*◌, ◌≤◌, ◌<◌, length};
ghost use Rattle.paper.specs.Lattice.{lattice};
ghost use Rattle.paper.specs.Room.{needed_slots};
ghost use Rattle.dots.specs.Dots.{layer_edges, edges_by, drawn, Draws, Crossed, Roomy};

use paper::Rule;
use rows::Surface;

// The vertices of the layer of anchors at z.
fn put_layer(
    rule: Rule,
    surface: &Surface,
    z: usize,
    slots: &mut [u32],
    vertices: &mut [i32],
    first: usize,
    at: usize,
) -> usize
    requires within { z < surface.now.rows.sizes.nz }
    requires crossed { let r = surface.now.rows in
        Crossed (lattice r.sizes surface.now.samples.now) (layer_edges r.sizes r.sides.now r.cubes.now z) }
    requires roomy { let r = surface.now.rows in
        let es = layer_edges r.sizes r.sides.now r.cubes.now z in
        Roomy es first at (needed_slots r.sizes) (length vertices.old) (length slots.old) }
    ensures { let r = surface.now.rows in
        let es = layer_edges r.sizes r.sides.now r.cubes.now z in
        let before = drawn vertices.old slots.old in
        let after = drawn vertices.new slots.new in
        Draws rule (lattice r.sizes surface.now.samples.now) es first at before result after }
{
    let mut next = at;
    for y in 0..surface.rows.sizes.ny {
        next = dots::put_row_at(rule, surface, y, z, slots, vertices, first, next);
    }
    next
}

// All vertices, numbered from 0; how many there are is returned.
pub fn put_vertices(rule: Rule, surface: &Surface, slots: &mut [u32], vertices: &mut [i32]) -> usize
    requires slots_in_bounds { needed_slots surface.now.rows.sizes ≤ length slots.old }
    requires crossed { let r = surface.now.rows in
        Crossed (lattice r.sizes surface.now.samples.now) (edges_by r.sizes r.sides.now r.cubes.now) }
    requires vertices_in_bounds { let r = surface.now.rows in
        4 * length (edges_by r.sizes r.sides.now r.cubes.now) ≤ length vertices.old }
    ensures { let r = surface.now.rows in
        let es = edges_by r.sizes r.sides.now r.cubes.now in
        let before = drawn vertices.old slots.old in
        let after = drawn vertices.new slots.new in
        Draws rule (lattice r.sizes surface.now.samples.now) es 0 0 before result after }
{
    let mut next = 0;
    for z in 0..surface.rows.sizes.nz {
        next = put_layer(rule, surface, z, slots, vertices, 0, next);
    }
    next
}
