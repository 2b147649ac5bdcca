// How many vertices and triangles the sheet of the visited cubes has, by rows of sides and rows of cubes.
#![tactic(auto)]

ghost use Rattle.std.specs.Prelude.{◌≡◌, ◌≤◌, ◌<◌};
ghost use Rattle.lists.specs.Lists.{range, count};
ghost use Rattle.kinds.specs.Kinds.{kinds_of, is_edge, sides_around};
ghost use Rattle.tally.specs.Tally.{vertices_by, triangles_of, triangles_by, Summed, Counted};

use kinds::KindWords;
use rows::{Quad, Rows};

// How many vertices and triangles the sheet of the visited cubes has.
#[derive(Clone, Copy, Debug, PartialEq, Eq)]
pub struct Counts {
    pub vertices: usize,
    pub triangles: usize,
}

// The vertices of the row of anchors at y and z, around which v has the visited cubes.
fn row_vertices(rows: &Rows, y: usize, z: usize, v: Quad) -> usize
    requires { (y < rows.now.sizes.ny) × (z < rows.now.sizes.nz) }
    ensures { let k = kinds_of (sides_around rows.now.sizes rows.now.sides.now y z) v in
        (result ≡ count (is_edge k) (range 0 448)) × (result ≤ 448) }
{
    if v.either() == 0 {
        return 0;
    }
    KindWords::new(kinds::sides_around(rows, y, z), v).count()
}

// The triangles of the cubes v of the row at y and z.
fn row_triangles(rows: &Rows, y: usize, z: usize, v: u64) -> usize
    requires { (y < rows.now.sizes.ny) × (z < rows.now.sizes.nz) }
    ensures { (result ≡ triangles_of rows.now.sizes rows.now.sides.now v z y) × (result ≤ 768) }
{
    let sizes = rows.sizes;
    if v == 0 || sizes.ny <= y + 1 || sizes.nz <= z + 1 {
        return 0;
    }
    kinds::count_row(rows.quad(y + sizes.ny * z), v)
}

// The vertices and the triangles of the rows at z: two sums in one loop, since the cubes around a row give both.
fn layer_counts(rows: &Rows, z: usize) -> Counts
    requires { z < rows.now.sizes.nz }
    ensures { let vertices = vertices_by rows.now.sizes rows.now.sides.now rows.now.cubes.now z in
        let triangles = triangles_by rows.now.sizes rows.now.sides.now rows.now.cubes.now z in
        Summed vertices triangles 448 768 rows.now.sizes.ny result.vertices result.triangles }
{
    let mut vertices = 0;
    let mut triangles = 0;
    for y in 0..rows.sizes.ny {
        let v = kinds::cubes_around(rows, y, z);
        vertices += row_vertices(rows, y, z, v);
        triangles += row_triangles(rows, y, z, v.a);
    }
    Counts {
        vertices,
        triangles,
    }
}

// How many vertices and triangles the sheet has, by its lattice's rows of sides and the rows of its visited cubes.
pub fn counts_of(rows: &Rows) -> Counts
    ensures { Counted rows.now.sizes rows.now.sides.now rows.now.cubes.now result }
{
    let mut vertices = 0;
    let mut triangles = 0;
    for z in 0..rows.sizes.nz {
        let c = layer_counts(rows, z);
        vertices += c.vertices;
        triangles += c.triangles;
    }
    Counts {
        vertices,
        triangles,
    }
}
