// The edges with a vertex of a row of anchors, a word to a kind; and how many vertices and triangles a row has.
#![tactic(auto)]

ghost use Rattle.std.specs.Prelude.{◌≡◌, ◌+◌, ◌*◌, ◌≤◌, ◌<◌, length};
ghost use Rattle.lists.specs.Lists.{range, count};
ghost use Rattle.paper.specs.Within.{Sized};
ghost use Rattle.bits.specs.Words.{word};
ghost use Rattle.kinds.specs.Kinds.{kinds_of, is_edge, any_of, row_at, row_before, sides_around, cubes_around};
ghost use Rattle.kinds.specs.Triangles.{tet_total, row_total};

use paper::Sizes;
use rows::{Quad, Rows};

// The edges with a vertex of a row of anchors: a word for each kind.
#[derive(Clone, Copy, Debug, PartialEq, Eq)]
pub struct KindWords {
    pub words: [u64; 7],
}

impl KindWords {
    // f has the sides at y and z, at the next y, at the next z; v the visited cubes at y and z, at the last y, at the last z, at both.
    pub fn new(f: Quad, v: Quad) -> KindWords
        ensures { result ≡ kinds_of f v }
    {
        let a = f.a;
        let b = f.b;
        let c = f.c;
        let next = a >> 1;
        let here = v.a;
        let low = v.b;
        let near = v.c;
        let pair = here | (here << 1);
        KindWords {
            words: [
                (a ^ next) & (here | low | near | v.d),
                (a ^ b) & (pair | near | (near << 1)),
                (a ^ c) & (pair | low | (low << 1)),
                (b ^ c) & pair,
                (next ^ c) & (here | low),
                (b ^ next) & (here | near),
                ((b >> 1) ^ c) & here,
            ],
        }
    }

    // How many edges of the row have a vertex.
    pub fn count(&self) -> usize
        ensures { (result ≡ count (is_edge self.now) (range 0 448)) × (result ≤ 448) }
    {
        let mut n = 0;
        for w in &self.words {
            n += bits::ones(*w);
        }
        n
    }

    // The kinds of the edges with a vertex of the anchor at x, as the bits of a word.
    pub fn at(&self, x: usize) -> u64
        requires { x < 64 }
        ensures { (result ≡ word (λ j. is_edge self.now (7 * x + j)) 7) × (result < 128) }
    {
        let mut ks = 0;
        for kind in 0..7 {
            ks += u64::from(bits::has_bit(self.words[kind], x)) << kind;
        }
        ks
    }

    // The places that one of the seven words has.
    pub fn any(&self) -> u64
        ensures { result ≡ any_of self.now }
    {
        self.words.iter().fold(0, |all, w| all | *w)
    }
}

// The word at y and z, or 0 where there is none.
fn row_at(words: &[u64], sizes: Sizes, y: usize, z: usize) -> u64
    requires { Sized sizes × (sizes.ny * sizes.nz ≤ length words.now) }
    ensures { result ≡ row_at sizes words.now y z }
{
    if y < sizes.ny && z < sizes.nz {
        words[y + sizes.ny * z]
    } else {
        0
    }
}

// The word at y - dy and z - dz, or 0 where there is none.
fn row_before(words: &[u64], sizes: Sizes, y: usize, z: usize, dy: usize, dz: usize) -> u64
    requires { Sized sizes × (sizes.ny * sizes.nz ≤ length words.now) × (y < sizes.ny) × (z < sizes.nz) }
    ensures { result ≡ row_before sizes words.now y z dy dz }
{
    if dy <= y && dz <= z {
        words[y - dy + sizes.ny * (z - dz)]
    } else {
        0
    }
}

// The sides around a row of anchors.
#[tactic(auto, unfolding(crate::specs::Kinds::sides_around))]
pub fn sides_around(rows: &Rows, y: usize, z: usize) -> Quad
    requires { (y < rows.now.sizes.ny) × (z < rows.now.sizes.nz) }
    ensures { result ≡ sides_around rows.now.sizes rows.now.sides.now y z }
{
    Quad {
        a: row_at(rows.sides, rows.sizes, y, z),
        b: row_at(rows.sides, rows.sizes, y + 1, z),
        c: row_at(rows.sides, rows.sizes, y, z + 1),
        d: 0,
    }
}

// The cubes around a row of anchors.
#[tactic(auto, unfolding(crate::specs::Kinds::cubes_around))]
pub fn cubes_around(rows: &Rows, y: usize, z: usize) -> Quad
    requires { (y < rows.now.sizes.ny) × (z < rows.now.sizes.nz) }
    ensures { result ≡ cubes_around rows.now.sizes rows.now.cubes.now y z }
{
    Quad {
        a: row_before(rows.cubes, rows.sizes, y, z, 0, 0),
        b: row_before(rows.cubes, rows.sizes, y, z, 1, 0),
        c: row_before(rows.cubes, rows.sizes, y, z, 0, 1),
        d: row_before(rows.cubes, rows.sizes, y, z, 1, 1),
    }
}

// The triangles of one tetrahedron of each of the cubes v of a row, by the words of its corners.
fn tet_ones(p: u64, q: u64, r: u64, u: u64, v: u64) -> usize
    ensures { (result ≡ tet_total p q r u v) × (result ≤ 128) }
{
    let odd = p ^ q ^ r ^ u;
    let mix = ((p | q | r | u) ^ (p & q & r & u)) & v;
    bits::ones(mix) + bits::ones(mix & !odd)
}

// The triangles of the cubes v of a row.
pub fn count_row(f: Quad, v: u64) -> usize
    ensures { (result ≡ row_total f v) × (result ≤ 768) }
{
    let a = f.a;
    let b = f.b;
    let c = f.c;
    let d = f.d;
    let ar = a >> 1;
    let br = b >> 1;
    let cr = c >> 1;
    let dr = d >> 1;
    tet_ones(a, b, ar, c, v)
        + tet_ones(br, b, c, ar, v)
        + tet_ones(br, b, d, c, v)
        + tet_ones(br, ar, c, cr, v)
        + tet_ones(br, c, d, cr, v)
        + tet_ones(br, d, dr, cr, v)
}
