// A file's vertex records against those of the sheet, in the sheet's own order.
#![tactic(auto)]

ghost use Rattle.std.specs.Prelude.{◌≡◌, true, ◌+◌, ◌*◌, ◌≤◌, ◌<◌, length, unwrap_or, IfSome};
ghost use Rattle.lists.specs.Lists.{each, Beyond};
ghost use Rattle.paper.specs.Lattice.{lattice};
ghost use Rattle.paper.specs.Sheet.{vertex_record};
ghost use Rattle.paper.specs.File.{file_vertices};
ghost use Rattle.paper.specs.Room.{needed_slots};
ghost use Rattle.paper.specs.Within.{Sized};
ghost use Rattle.kinds.specs.Kinds.{seven};
ghost use Rattle.dots.specs.Dots.{row_edges, edges_of, layer_edges, edges_by, numbered, Crossed};
ghost use Rattle.check_entries.specs.Entries.{Ends, RowCrosses};
ghost use Rattle.check_ordered.specs.Ordered.{Listed, Listing, kept, Entered};

use check_entries::Lines;
use kinds::KindWords;
use lattice::Volume;
use layout::SheetFile;
use paper::{Rule, Sizes};
use rows::Surface;

// What `Lines` is lent, for a row of anchors.
#[derive(Clone, Copy)]
struct Tables {
    off: [usize; 14],
    from: [usize; 21],
    dirs: [i32; 21],
    main: [usize; 7],
    org: [u32; 7],
    mask: [u32; 7],
}

// How the edges of the row of anchors at y and z run.
fn tables_at(sizes: Sizes, y: usize, z: usize) -> Tables
    requires { Sized sizes × (y < sizes.ny) × (z < sizes.nz) }
    ensures { Ends sizes y z result.off result.from result.dirs result.main }
{
    let nx = sizes.nx;
    let up = nx * sizes.ny;
    let ky = 65536 * y;
    let kz = 65536 * z;
    let cy = ky as u32;
    let cz = kz as u32;
    Tables {
        off: [0, 1, 0, nx, 0, up, nx, up, 1, up, nx, 1, nx + 1, up],
        from: [
            0,
            ky,
            kz,
            0,
            ky,
            kz,
            0,
            ky,
            kz,
            0,
            ky + 65536,
            kz,
            65536,
            ky,
            kz,
            0,
            ky + 65536,
            kz,
            65536,
            ky + 65536,
            kz,
        ],
        dirs: [
            1, 0, 0, 0, 1, 0, 0, 0, 1, 0, -1, 1, -1, 0, 1, 1, -1, 0, -1, -1, 1,
        ],
        main: [1, 2, 3, 3, 3, 1, 3],
        org: [0, cy, cz, cz, cz, 0, cz],
        mask: [4294967295, 0, 0, 0, 0, 4294967295, 0],
    }
}

// Whether the n records from record `at` on are, by a rule, those of the row of anchors with these lines, whose edges k has; the slots of
// their edges are numbered.
fn same_records(
    rule: Rule,
    volume: &Volume,
    lines: &Lines,
    k: &KindWords,
    file: &SheetFile,
    slots: &mut [u32],
    at: usize,
    n: usize,
) -> bool
    requires sizes { lines.now.sizes ≡ volume.now.sizes }
    requires row_crosses { let z = volume.now.sizes in
        RowCrosses (lattice z volume.now.samples.now) lines.now.y lines.now.z (7 * z.nx) (seven k.now) }
    requires room { (at + n ≤ file.now.vertices) × (needed_slots volume.now.sizes ≤ length slots.old) }
    ensures { let z = volume.now.sizes in
        let L = lattice z volume.now.samples.now in
        let fs = file_vertices file.now.bytes.now in
        let wide = 7 * z.nx in
        let ks = seven k.now in
        let before = slots.old in
        let after = slots.new in
        (result ≡ true → length (kept ks wide) ≤ n → Entered rule L ks fs (7 * lines.now.here) wide at n before after)
        × Beyond (needed_slots z) before after }
{
    let row = 7 * lines.here;
    let mut low = 0;
    for i in 0..n {
        let Some(e) = lines.edge_of(rule, volume, &k.words, file, at + i, low) else {
            return false;
        };
        slots[row + e] = (at + i) as u32;
        low = e + 1;
    }
    true
}

// The same for the row at y and z whose edges are k.
fn same_row(
    rule: Rule,
    volume: &Volume,
    k: &KindWords,
    y: usize,
    z: usize,
    file: &SheetFile,
    slots: &mut [u32],
    at: usize,
    n: usize,
) -> bool
    requires within { (y < volume.now.sizes.ny) × (z < volume.now.sizes.nz) }
    requires crossed { let n = volume.now.sizes in
        Crossed (lattice n volume.now.samples.now) (row_edges k.now (7 * (n.nx * (y + n.ny * z))) n.nx) }
    requires room { (needed_slots volume.now.sizes ≤ length slots.old) × (at + n ≤ file.now.vertices)
        × (length (kept (seven k.now) (7 * volume.now.sizes.nx)) ≤ n) }
    ensures { let s = volume.now.sizes in
        let L = lattice s volume.now.samples.now in
        let es = row_edges k.now (7 * (s.nx * (y + s.ny * z))) s.nx in
        let fs = file_vertices file.now.bytes.now in
        let before = slots.old in
        let after = slots.new in
        (result ≡ true → Listed rule L es fs at before (at + n) after) × Beyond (needed_slots s) before after }
{
    let tables = tables_at(volume.sizes, y, z);
    let lines = Lines {
        sizes: volume.sizes,
        y,
        z,
        here: volume.sizes.nx * (y + volume.sizes.ny * z),
        off: &tables.off,
        from: &tables.from,
        dirs: &tables.dirs,
        main: &tables.main,
        org: &tables.org,
        mask: &tables.mask,
    };
    same_records(rule, volume, &lines, k, file, slots, at, n)
}

// The number behind the vertices of the row of anchors at y and z, where the file has them, by a rule, from number `at` on. The slots of
// their edges are numbered.
fn same_row_vertices(
    rule: Rule,
    surface: &Surface,
    y: usize,
    z: usize,
    file: &SheetFile,
    slots: &mut [u32],
    at: usize,
) -> Option<usize>
    requires within { (y < surface.now.rows.sizes.ny) × (z < surface.now.rows.sizes.nz) × (at ≤ file.now.vertices) }
    requires room { needed_slots surface.now.rows.sizes ≤ length slots.old }
    requires crossed { let r = surface.now.rows in
        Crossed (lattice r.sizes surface.now.samples.now) (edges_of r.sizes r.sides.now r.cubes.now y z) }
    ensures listing { let r = surface.now.rows in
        let L = lattice r.sizes surface.now.samples.now in
        let es = edges_of r.sizes r.sides.now r.cubes.now y z in
        let nv = file.now.vertices in
        Listing rule L es (file_vertices file.now.bytes.now) nv at slots.old (unwrap_or result (nv + 1)) slots.new }
    ensures few { IfSome result (λ n. n ≤ file.now.vertices) }
{
    let rows = &surface.rows;
    let v = kinds::cubes_around(rows, y, z);
    if v.either() == 0 {
        return Some(at);
    }
    let k = KindWords::new(kinds::sides_around(rows, y, z), v);
    let n = k.count();
    let volume = Volume {
        sizes: rows.sizes,
        samples: surface.samples,
    };
    if at + n <= file.vertices && same_row(rule, &volume, &k, y, z, file, slots, at, n) {
        Some(at + n)
    } else {
        None
    }
}

// The same for the vertices of the layer of anchors at z.
fn same_layer_vertices(
    rule: Rule,
    surface: &Surface,
    z: usize,
    file: &SheetFile,
    slots: &mut [u32],
    at: usize,
) -> Option<usize>
    requires within { (z < surface.now.rows.sizes.nz) × (at ≤ file.now.vertices) }
    requires room { needed_slots surface.now.rows.sizes ≤ length slots.old }
    requires crossed { let r = surface.now.rows in
        Crossed (lattice r.sizes surface.now.samples.now) (layer_edges r.sizes r.sides.now r.cubes.now z) }
    ensures listing { let r = surface.now.rows in
        let L = lattice r.sizes surface.now.samples.now in
        let es = layer_edges r.sizes r.sides.now r.cubes.now z in
        let nv = file.now.vertices in
        Listing rule L es (file_vertices file.now.bytes.now) nv at slots.old (unwrap_or result (nv + 1)) slots.new }
    ensures few { IfSome result (λ n. n ≤ file.now.vertices) }
{
    let mut next = at;
    for y in 0..surface.rows.sizes.ny {
        next = same_row_vertices(rule, surface, y, z, file, slots, next)?;
    }
    Some(next)
}

// The number behind all vertices, numbered from 0, where the file has them.
fn same_layers_vertices(
    rule: Rule,
    surface: &Surface,
    file: &SheetFile,
    slots: &mut [u32],
) -> Option<usize>
    requires room { needed_slots surface.now.rows.sizes ≤ length slots.old }
    requires crossed { let r = surface.now.rows in
        Crossed (lattice r.sizes surface.now.samples.now) (edges_by r.sizes r.sides.now r.cubes.now) }
    ensures listing { let r = surface.now.rows in
        let L = lattice r.sizes surface.now.samples.now in
        let es = edges_by r.sizes r.sides.now r.cubes.now in
        let nv = file.now.vertices in
        Listing rule L es (file_vertices file.now.bytes.now) nv 0 slots.old (unwrap_or result (nv + 1)) slots.new }
    ensures few { IfSome result (λ n. n ≤ file.now.vertices) }
{
    let mut next = 0;
    for z in 0..surface.rows.sizes.nz {
        next = same_layer_vertices(rule, surface, z, file, slots, next)?;
    }
    Some(next)
}

// Whether the file's vertices are, by a rule, those of the edges that the surface's cubes have, in their own order; the slots of these are
// numbered.
pub fn same_vertices(rule: Rule, surface: &Surface, file: &SheetFile, slots: &mut [u32]) -> bool
    requires room { needed_slots surface.now.rows.sizes ≤ length slots.old }
    requires crossed { let r = surface.now.rows in
        Crossed (lattice r.sizes surface.now.samples.now) (edges_by r.sizes r.sides.now r.cubes.now) }
    ensures { let r = surface.now.rows in
        let L = lattice r.sizes surface.now.samples.now in
        let es = edges_by r.sizes r.sides.now r.cubes.now in
        let before = slots.old in
        let after = slots.new in
        let same = (file_vertices file.now.bytes.now ≡ each (vertex_record rule L) es) × (after ≡ numbered 0 es before) in
        (result ≡ true → same) × Beyond (needed_slots r.sizes) before after }
{
    match same_layers_vertices(rule, surface, file, slots) {
        Some(next) => next == file.vertices,
        None => false,
    }
}
