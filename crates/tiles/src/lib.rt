// The triangles of rows of cubes, written from the table of patterns.
#![tactic(auto)]

ghost use Rattle.std.specs.Prelude.{◌≡◌, ◌+◌, ◌*◌, ◌≤◌, ◌<◌, length};
ghost use Rattle.std.proofs.lemmas.List.Edits.{sets};
ghost use Rattle.lists.specs.Lists.{over};
ghost use Rattle.paper.specs.Room.{needed_slots};
ghost use Rattle.patterns.specs.Table.{steps_by, Tabled};
ghost use Rattle.tiles.specs.Tiles.{source, size_of, tile_of, tile_at, row_tiles, row_tiles_at, layer_tiles, tiles_by};
ghost use Rattle.tiles.specs.Tiles.{Reaching, RowReaching};

use rows::{Quad, Rows};

// The triangles of a cube with pattern m, from place `at` on; the next place is returned.
fn put_cube(
    table: &[u16],
    counts: &[usize],
    slots: &[u32],
    m: usize,
    base: usize,
    out: &mut [u32],
    at: usize,
) -> usize
    requires in_bounds { (9216 ≤ length table.now) × (256 ≤ length counts.now) × (m < 256) × (base ≤ 2000000) }
    requires fact { let S = source table.now counts.now slots.now in
        Reaching S (length slots.now) m base × (at + size_of S m ≤ length out.old) }
    ensures { let S = source table.now counts.now slots.now in
        (out.new ≡ sets out.old at (tile_of S m base)) × (result ≡ at + length (tile_of S m base)) }
{
    let n = counts[m];
    // By index: of what is written through iter_mut a proof knows the length only.
    for i in 0..n {
        out[at + i] = slots[base + (table[36 * m + i] as usize)];
    }
    at + n
}

// The triangles of cube x of a row, where v has it.
fn put_place(
    table: &[u16],
    counts: &[usize],
    slots: &[u32],
    q: Quad,
    v: u64,
    base: usize,
    x: usize,
    out: &mut [u32],
    at: usize,
) -> usize
    requires in_bounds { (9216 ≤ length table.now) × (256 ≤ length counts.now) × (x < 64) × (base ≤ 1900000) }
    requires fact { let S = source table.now counts.now slots.now in
        RowReaching S q v base (x + 1) (length slots.now) × (at + length (tile_at S q v base x) ≤ length out.old) }
    ensures { let S = source table.now counts.now slots.now in
        (out.new ≡ sets out.old at (tile_at S q v base x)) × (result ≡ at + length (tile_at S q v base x)) }
{
    if bits::has_bit(v, x) {
        return put_cube(table, counts, slots, q.pattern(x), base + 7 * x, out, at);
    }
    at
}

// The triangles of the first n cubes of a row. The slices stay parameters: this promises the same of any table with counts, whatever the
// sizes.
pub fn put_row(
    table: &[u16],
    counts: &[usize],
    slots: &[u32],
    q: Quad,
    v: u64,
    base: usize,
    n: usize,
    out: &mut [u32],
    at: usize,
) -> usize
    requires in_bounds { (9216 ≤ length table.now) × (256 ≤ length counts.now) × (n < 64) × (base ≤ 1900000) }
    requires fact { let S = source table.now counts.now slots.now in
        RowReaching S q v base n (length slots.now) × (at + length (row_tiles S q v base n) ≤ length out.old) }
    ensures { let S = source table.now counts.now slots.now in
        (out.new ≡ sets out.old at (row_tiles S q v base n)) × (result ≡ at + length (row_tiles S q v base n)) }
{
    let mut next = at;
    for x in 0..n {
        next = put_place(table, counts, slots, q, v, base, x, out, next);
    }
    next
}

// What triangles are written from: the table of patterns with its counts, the slots of the edges, and the rows of the cubes.
#[derive(Clone, Copy)]
pub struct Tiling<'a> {
    pub table: &'a [u16],
    pub counts: &'a [usize],
    pub slots: &'a [u32],
    pub rows: Rows<'a>,
    pub ghost tabled: { Tabled (steps_by rows.sizes) 256 table.now counts.now },
    pub ghost room: { needed_slots rows.sizes ≤ length slots.now },
}

impl Tiling<'_> {
    // The triangles of the row of cubes at y and z.
    pub fn put_row_at(&self, y: usize, z: usize, out: &mut [u32], at: usize) -> usize
        requires fact { (y + 1 < self.now.rows.sizes.ny) × (z + 1 < self.now.rows.sizes.nz) }
        requires z_in_bounds { let S = source self.now.table.now self.now.counts.now self.now.slots.now in
            at + length (row_tiles_at S self.now.rows.sizes self.now.rows.sides.now self.now.rows.cubes.now y z) ≤ length out.old }
        ensures { let S = source self.now.table.now self.now.counts.now self.now.slots.now in
            let new = row_tiles_at S self.now.rows.sizes self.now.rows.sides.now self.now.rows.cubes.now y z in
            (out.new ≡ sets out.old at new) × (result ≡ at + length new) }
    {
        let sizes = self.rows.sizes;
        let r = y + sizes.ny * z;
        let v = self.rows.cubes[r];
        if v == 0 {
            return at;
        }
        let q = self.rows.quad(r);
        put_row(
            self.table,
            self.counts,
            self.slots,
            q,
            v,
            7 * (sizes.nx * r),
            sizes.nx - 1,
            out,
            at,
        )
    }

    // The triangles of the cubes of layer z.
    fn put_layer(&self, z: usize, out: &mut [u32], at: usize) -> usize
        requires fact { z + 1 < self.now.rows.sizes.nz }
        requires z_in_bounds { let S = source self.now.table.now self.now.counts.now self.now.slots.now in
            at + length (layer_tiles S self.now.rows.sizes self.now.rows.sides.now self.now.rows.cubes.now z) ≤ length out.old }
        ensures { let S = source self.now.table.now self.now.counts.now self.now.slots.now in
            let new = layer_tiles S self.now.rows.sizes self.now.rows.sides.now self.now.rows.cubes.now z in
            (out.new ≡ sets out.old at new) × (result ≡ at + length new) }
    {
        let n = self.rows.sizes.ny - 1;
        let mut next = at;
        for y in 0..n {
            next = self.put_row_at(y, z, out, next);
        }
        next
    }
}

// The triangles of all cubes that the rows have are written to the front of a triangle slice.
pub fn put_triangles(tiling: &Tiling, triangles: &mut [u32])
    requires cubes_in_bounds { let w = tiling.now.rows in
        let S = source tiling.now.table.now tiling.now.counts.now tiling.now.slots.now in
        length (tiles_by S w.sizes w.sides.now w.cubes.now) ≤ length triangles.old }
    ensures { let w = tiling.now.rows in
        let S = source tiling.now.table.now tiling.now.counts.now tiling.now.slots.now in
        triangles.new ≡ over (tiles_by S w.sizes w.sides.now w.cubes.now) triangles.old }
{
    let n = tiling.rows.sizes.nz - 1;
    let mut at = 0;
    for z in 0..n {
        at = tiling.put_layer(z, triangles, at);
    }
}
