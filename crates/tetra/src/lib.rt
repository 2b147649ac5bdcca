// Six tetrahedra and sixteen rows: the edges and the triangles of a cube, by its pattern.
#![tactic(auto)]

ghost use Rattle.std.specs.Prelude.{◌≡◌, ◌+◌, ◌*◌, ◌≤◌, ◌<◌, ◌-◌, get_or};
ghost use Rattle.paper.specs.Tables.{tri};
ghost use Rattle.paper.specs.Within.{Sized};
ghost use Rattle.lattice.specs.Steps.{corner_step};
ghost use Rattle.sides.specs.Pattern.{bit_of};
ghost use Rattle.tetra.specs.Cut.{tet_corner, tet_steps, row_by, row_count, row_steps, row_triangles, tri_of};

use paper::Sizes;

// A triangle by its lattice edges.
#[derive(Clone, Copy, Debug, PartialEq, Eq)]
pub struct Triangle {
    pub a: usize,
    pub b: usize,
    pub c: usize,
}

// Corners a, b, c, d of each tetrahedron: R adds 1, T 2, F 4.
static TETS: [[usize; 4]; 6] = [
    [0, 2, 1, 4],
    [3, 2, 4, 1],
    [3, 2, 6, 4],
    [3, 1, 4, 5],
    [3, 4, 6, 5],
    [3, 6, 7, 5],
];

// The edges e1 to e6 of each row's triangles, 0 past its last.
static ROWS: [[usize; 6]; 16] = [
    [0, 0, 0, 0, 0, 0],
    [5, 6, 3, 0, 0, 0],
    [2, 6, 4, 0, 0, 0],
    [3, 5, 4, 3, 4, 2],
    [1, 4, 5, 0, 0, 0],
    [3, 1, 4, 3, 4, 6],
    [1, 2, 6, 1, 6, 5],
    [1, 2, 3, 0, 0, 0],
    [1, 3, 2, 0, 0, 0],
    [1, 5, 6, 1, 6, 2],
    [1, 3, 6, 1, 6, 4],
    [1, 5, 4, 0, 0, 0],
    [3, 2, 4, 3, 4, 5],
    [6, 2, 4, 0, 0, 0],
    [5, 3, 6, 0, 0, 0],
    [0, 0, 0, 0, 0, 0],
];

// How many triangles each row has.
static COUNTS: [usize; 16] = [0, 1, 1, 2, 1, 2, 2, 1, 1, 2, 2, 1, 2, 1, 1, 0];

// The corner at the anchor, and the kind, of edges e1 to e6 of each tetrahedron.
static LOWS: [[usize; 6]; 6] = [
    [0, 0, 0, 0, 0, 0],
    [2, 0, 1, 0, 0, 0],
    [2, 2, 0, 2, 0, 4],
    [1, 0, 1, 0, 1, 4],
    [0, 2, 1, 4, 4, 4],
    [2, 3, 1, 6, 4, 5],
];

static KINDS: [[usize; 6]; 6] = [
    [1, 0, 2, 5, 3, 4],
    [0, 6, 1, 3, 5, 4],
    [0, 4, 6, 2, 3, 1],
    [1, 6, 3, 4, 2, 0],
    [6, 4, 3, 1, 0, 5],
    [4, 2, 3, 0, 5, 1],
];

// The side of corner j of tetrahedron t in a pattern.
#[tactic(auto, using(crate::proofs::Tables::corner_is))]
fn tet_bit(m: usize, t: usize, j: usize) -> usize
    requires { (t < 6) × (j < 4) }
    ensures { (result ≡ bit_of m (tet_corner t j)) × (result ≤ 1) }
{
    sides::bit(m, TETS[t][j])
}

// The row of tetrahedron t in a cube with pattern m.
#[tactic(auto, unfolding(crate::specs::Cut::row_by))]
pub fn row(m: usize, t: usize) -> usize
    requires { t < 6 }
    ensures { (result ≡ row_by m t) × (result < 16) }
{
    let a = tet_bit(m, t, 0);
    let b = tet_bit(m, t, 1);
    let c = tet_bit(m, t, 2);
    let d = tet_bit(m, t, 3);
    8 * a + 4 * b + 2 * c + d
}

// How many triangles a row has.
#[tactic(auto, using(crate::proofs::Tables::count_is, crate::proofs::Tables::count_le))]
pub fn row_count(r: usize) -> usize
    requires { r < 16 }
    ensures { (result ≡ row_count r) × (result ≤ 2) }
{
    COUNTS[r]
}

// How far the sample at a corner is from the cube's lowest.
#[tactic(auto, using(crate::proofs::Laws::corner_small), unfolding(lattice::specs::Steps::corner_step))]
fn corner_step(sizes: Sizes, c: usize) -> usize
    requires { Sized sizes × (c < 8) }
    ensures { (result ≡ corner_step sizes c) × (result ≤ 4161) }
{
    let layer = sizes.nx * sizes.ny;
    c % 2 + (sizes.nx * (c / 2 % 2) + layer * (c / 4))
}

// How far the number of an edge is from 7 × the number of the cube's lowest sample, by the corner at its anchor and its kind.
fn step_of(sizes: Sizes, c: usize, kind: usize) -> usize
    requires { Sized sizes × (c < 8) × (kind < 8) }
    ensures { result ≡ 7 * corner_step sizes c + kind }
{
    7 * corner_step(sizes, c) + kind
}

// The same of the edges of all tetrahedra, six to each.
fn tet_steps(sizes: Sizes) -> [usize; 36]
    requires { Sized sizes }
    ensures { result ≡ tet_steps sizes }
{
    // Flat and by index, as the definition tet_steps has it: entry i is edge i % 6 of tetrahedron i / 6.
    let mut steps = [0usize; 36];
    for i in 0..36 {
        steps[i] = step_of(sizes, LOWS[i / 6][i % 6], KINDS[i / 6][i % 6]);
    }
    steps
}

// The step of edge e, of e1 to e6, of tetrahedron t; that of e1 where e is 0.
fn edge_step(steps: &[usize; 36], t: usize, e: usize) -> usize
    requires { (t < 6) × (e < 7) }
    ensures { result ≡ get_or steps.now (6 * t + (e - 1)) 0 }
{
    if e == 0 {
        return steps[6 * t];
    }
    steps[6 * t + (e - 1)]
}

// The steps of the edges of the triangles of all rows, three to a triangle, six to a row, 96 to a tetrahedron.
pub fn row_steps(sizes: Sizes) -> [usize; 576]
    requires { Sized sizes }
    ensures { result ≡ row_steps sizes }
{
    let steps = tet_steps(sizes);
    // The same of the definition row_steps.
    let mut all = [0usize; 576];
    for i in 0..576 {
        let k = i % 96;
        all[i] = edge_step(&steps, i / 96, ROWS[k / 6][k % 6]);
    }
    all
}

// How the cubes of a lattice are cut: the steps of the edges of all rows' triangles.
#[derive(Drop)]
pub struct Cut {
    pub sizes: Sizes,
    // Flat, as the definition row_steps has it: three to a triangle, six to a row, 96 to a tetrahedron.
    pub steps: [usize; 576],
    pub ghost sized: { Sized sizes },
    pub ghost stepped: { steps ≡ row_steps sizes },
}

impl Cut {
    pub fn new(sizes: Sizes) -> Cut
        requires { Sized sizes }
        ensures { result.sizes ≡ sizes }
    {
        let steps = row_steps(sizes);
        Cut { sizes, steps }
    }

    // Triangle j of row r of tetrahedron t, in a cube of whose lowest sample 7 × the number is base.
    #[tactic(auto, using(crate::proofs::Tables::count_le))]
    pub fn triangle(&self, base: usize, t: usize, r: usize, j: usize) -> Triangle
        requires { (t < 6) × (r < 16) × (j < row_count r) × (base ≤ 2000000) }
        ensures { tri_of result ≡ get_or (row_triangles self.now.sizes base t r) j (tri 0 0 0) }
    {
        let at = 96 * t + 6 * r + 3 * j;
        Triangle {
            a: base + self.steps[at],
            b: base + self.steps[at + 1],
            c: base + self.steps[at + 2],
        }
    }
}
