// The vertices of anchors, written by words of kinds and numbered in the slots of their edges.
#![tactic(auto)]

ghost use Rattle.std.specs.Prelude.{◌≡◌, ◌+◌, ◌*◌, ◌<◌, length};
ghost use Rattle.paper.specs.Lattice.{lattice, sample_no};
ghost use Rattle.paper.specs.Room.{needed_slots};
ghost use Rattle.paper.specs.Within.{SampleIn};
ghost use Rattle.kinds.specs.Kinds.{any_of};
ghost use Rattle.dots.specs.Dots.{edge_at, edges_at, anchor_edges, row_edges, edges_of};
ghost use Rattle.dots.specs.Dots.{drawn, Draws, Crossing, Crossed, Roomy};

use kinds::KindWords;
use lattice::Volume;
use paper::{Place, Rule};
use rows::Surface;

// The two lent slices stay parameters: a struct that held them would have to promise with each call that it still holds the same two.

// The vertex on the edge of a kind at the anchor p, where ks has it, gets the number `at` and the place at - first; the next number is
// returned.
fn put_kind(
    rule: Rule,
    volume: &Volume,
    p: Place,
    base: usize,
    ks: u64,
    kind: usize,
    slots: &mut [u32],
    vertices: &mut [i32],
    first: usize,
    at: usize,
) -> usize
    requires within { SampleIn volume.now.sizes p × (base ≡ 7 * sample_no volume.now.sizes p) × (kind < 7) }
    requires crossing { Crossing (lattice volume.now.sizes volume.now.samples.now) p ks }
    requires roomy { Roomy (edge_at ks base kind) first at (base + 7) (length vertices.old) (length slots.old) }
    ensures { let before = drawn vertices.old slots.old in
        let after = drawn vertices.new slots.new in
        Draws rule (lattice volume.now.sizes volume.now.samples.now) (edge_at ks base kind) first at before result after }
{
    if bits::has_bit(ks, kind) {
        let v = crossing::vertex_on(rule, volume, p, kind);
        crossing::put_vertex(vertices, at - first, v);
        slots[base + kind] = at as u32;
        return at + 1;
    }
    at
}

// The vertices of an anchor.
pub fn put_anchor(
    rule: Rule,
    volume: &Volume,
    p: Place,
    base: usize,
    ks: u64,
    slots: &mut [u32],
    vertices: &mut [i32],
    first: usize,
    at: usize,
) -> usize
    requires within { SampleIn volume.now.sizes p × (base ≡ 7 * sample_no volume.now.sizes p) }
    requires crossing { Crossing (lattice volume.now.sizes volume.now.samples.now) p ks }
    requires roomy { Roomy (edges_at ks base 7) first at (base + 7) (length vertices.old) (length slots.old) }
    ensures { let before = drawn vertices.old slots.old in
        let after = drawn vertices.new slots.new in
        Draws rule (lattice volume.now.sizes volume.now.samples.now) (edges_at ks base 7) first at before result after }
{
    let mut next = at;
    for kind in 0..7 {
        next = put_kind(
            rule, volume, p, base, ks, kind, slots, vertices, first, next,
        );
    }
    next
}

// The vertices of the anchor p of a row: `any` has the anchors of the row that have one, `row` is the number of its first edge.
fn put_place(
    rule: Rule,
    volume: &Volume,
    k: &KindWords,
    any: u64,
    row: usize,
    p: Place,
    slots: &mut [u32],
    vertices: &mut [i32],
    first: usize,
    at: usize,
) -> usize
    requires fact { let n = volume.now.sizes in
        SampleIn n p × (any ≡ any_of k.now) × (row ≡ 7 * (n.nx * (p.y + n.ny * p.z))) }
    requires crossed { Crossed (lattice volume.now.sizes volume.now.samples.now) (anchor_edges k.now row p.x) }
    requires roomy { let needed = needed_slots volume.now.sizes in
        Roomy (anchor_edges k.now row p.x) first at needed (length vertices.old) (length slots.old) }
    ensures { let before = drawn vertices.old slots.old in
        let after = drawn vertices.new slots.new in
        Draws rule (lattice volume.now.sizes volume.now.samples.now) (anchor_edges k.now row p.x) first at before result after }
{
    let x = p.x;
    if bits::has_bit(any, x) {
        let ks = k.at(x);
        return put_anchor(rule, volume, p, row + 7 * x, ks, slots, vertices, first, at);
    }
    at
}

// The vertices of the row of anchors at y and z, which has the edges k.
pub fn put_row(
    rule: Rule,
    volume: &Volume,
    k: &KindWords,
    y: usize,
    z: usize,
    slots: &mut [u32],
    vertices: &mut [i32],
    first: usize,
    at: usize,
) -> usize
    requires within { (y < volume.now.sizes.ny) × (z < volume.now.sizes.nz) }
    requires crossed { let n = volume.now.sizes in
        Crossed (lattice n volume.now.samples.now) (row_edges k.now (7 * (n.nx * (y + n.ny * z))) n.nx) }
    requires roomy { let n = volume.now.sizes in
        let es = row_edges k.now (7 * (n.nx * (y + n.ny * z))) n.nx in
        Roomy es first at (needed_slots n) (length vertices.old) (length slots.old) }
    ensures { let n = volume.now.sizes in
        let before = drawn vertices.old slots.old in
        let after = drawn vertices.new slots.new in
        let es = row_edges k.now (7 * (n.nx * (y + n.ny * z))) n.nx in
        Draws rule (lattice n volume.now.samples.now) es first at before result after }
{
    let any = k.any();
    let sizes = volume.sizes;
    let row = 7 * (sizes.nx * (y + sizes.ny * z));
    let mut next = at;
    for x in 0..sizes.nx {
        let p = Place { x, y, z };
        next = put_place(rule, volume, k, any, row, p, slots, vertices, first, next);
    }
    next
}

// The vertices of the row of anchors at y and z, by rows of sides and of cubes.
pub fn put_row_at(
    rule: Rule,
    surface: &Surface,
    y: usize,
    z: usize,
    slots: &mut [u32],
    vertices: &mut [i32],
    first: usize,
    at: usize,
) -> usize
    requires within { (y < surface.now.rows.sizes.ny) × (z < surface.now.rows.sizes.nz) }
    requires crossed { let r = surface.now.rows in
        Crossed (lattice r.sizes surface.now.samples.now) (edges_of r.sizes r.sides.now r.cubes.now y z) }
    requires roomy { let r = surface.now.rows in
        let es = edges_of r.sizes r.sides.now r.cubes.now y z in
        Roomy es first at (needed_slots r.sizes) (length vertices.old) (length slots.old) }
    ensures { let r = surface.now.rows in
        let es = edges_of r.sizes r.sides.now r.cubes.now y z in
        let before = drawn vertices.old slots.old in
        let after = drawn vertices.new slots.new in
        Draws rule (lattice r.sizes surface.now.samples.now) es first at before result after }
{
    let rows = &surface.rows;
    let v = kinds::cubes_around(rows, y, z);
    if v.either() == 0 {
        return at;
    }
    let k = KindWords::new(kinds::sides_around(rows, y, z), v);
    let volume = Volume {
        sizes: rows.sizes,
        samples: surface.samples,
    };
    put_row(rule, &volume, &k, y, z, slots, vertices, first, at)
}
