// Rows of samples: the sides of up to 64 of them as one word, those that are the fill as another, and what they say of rows of cubes.
#![tactic(auto)]

ghost use Rattle.std.specs.Prelude.{◌≡◌, List, ℤ, ◌+◌, ◌*◌, ◌≤◌, ◌<◌, length, get_or};
ghost use Rattle.paper.specs.Lattice.{lattice, cube_no, crossed};
ghost use Rattle.paper.specs.Sheet.{weight};
ghost use Rattle.paper.specs.Within.{Sized, Full, CubeIn};
ghost use Rattle.bits.specs.Words.{bit};
ghost use Rattle.rows.specs.Rows.{HasBoth, either_of, both_of, mixed_word, quad_at, crossed_row, gate_row, face_row, pattern_in, looked_at};

use paper::{Place, Sizes};

// ── the rows around a row of cubes ──

// The side rows of a row of cubes: at its low y and z, at its high y, at its high z, at both.
#[derive(Clone, Copy)]
pub struct Quad {
    pub a: u64,
    pub b: u64,
    pub c: u64,
    pub d: u64,
}

// Where the bits at x and x + 1 of some words are not all alike: o has the bits that one of them has, n those that all have.
#[tactic(auto, unfolding(crate::specs::Rows::mixed_word))]
pub fn mixed(o: u64, n: u64) -> u64
    ensures { result ≡ mixed_word o n }
{
    (o | (o >> 1)) ^ (n & (n >> 1))
}

// Bits x and x + 1 of a word.
fn pair(w: u64, x: usize) -> u64
    requires { x < 64 }
    ensures { (result ≡ weight (bit w x) 1 + 2 * weight (bit w (x + 1)) 1) × (result ≤ 3) }
{
    (w >> x) % 4
}

impl Quad {
    // The four words from r on, ny words to a layer.
    #[tactic(auto, unfolding(crate::specs::Rows::quad_at))]
    pub fn at(words: &[u64], ny: usize, r: usize) -> Quad
        requires { r + ny + 1 < length words.now }
        ensures { result ≡ quad_at words.now ny r }
    {
        Quad {
            a: words[r],
            b: words[r + 1],
            c: words[r + ny],
            d: words[r + ny + 1],
        }
    }

    // The bits that one of the four words has.
    pub fn either(self) -> u64
        ensures { result ≡ either_of self }
    {
        self.a | self.b | self.c | self.d
    }

    // The bits that all four words have.
    pub fn both(self) -> u64
        ensures { result ≡ both_of self }
    {
        self.a & self.b & self.c & self.d
    }

    // The crossed ones of the cubes m of the row.
    #[tactic(auto, unfolding(crate::specs::Rows::crossed_row, crate::specs::Rows::mixed_word))]
    fn crossed(self, m: u64) -> u64
        ensures { result ≡ crossed_row self m }
    {
        m & mixed(self.either(), self.both())
    }

    // The mixed ones of the faces across x between the cubes m of the row.
    #[tactic(auto, unfolding(crate::specs::Rows::gate_row))]
    pub fn gates(self, m: u64) -> u64
        ensures { result ≡ gate_row self m }
    {
        (m & (m << 1)) & (self.either() ^ self.both())
    }

    // The mixed ones of the faces i of the row: 2 and 3 at the low and the high y end, 4 and 5 at those of z.
    pub fn faces(self, i: usize) -> u64
        requires { (2 ≤ i) × (i < 6) }
        ensures { result ≡ face_row self i }
    {
        match i {
            2 => mixed(self.a | self.c, self.a & self.c),
            3 => mixed(self.b | self.d, self.b & self.d),
            4 => mixed(self.a | self.b, self.a & self.b),
            _ => mixed(self.c | self.d, self.c & self.d),
        }
    }

    // The pattern of cube x of the row.
    pub fn pattern(self, x: usize) -> usize
        requires { x < 64 }
        ensures { (result ≡ pattern_in self x) × (result < 256) }
    {
        (pair(self.a, x)
            + 4 * pair(self.b, x)
            + 16 * pair(self.c, x)
            + 64 * pair(self.d, x)) as usize
    }
}

// How many of n bits to look at.
pub fn to_look_at(m: u64, n: usize) -> usize
    ensures { result ≡ looked_at m n }
{
    if m == 0 { 0 } else { n }
}

// ── all rows of a lattice ──

// The sides of a lattice's samples, and a set of its cubes, those that may be visited or those that are: a word to a row.
#[derive(Clone, Copy)]
pub struct Rows<'a> {
    pub sizes: Sizes,
    pub sides: &'a [u64],
    pub cubes: &'a [u64],
    pub ghost sized: { Sized sizes },
    pub ghost sides_long: { sizes.ny * sizes.nz ≤ length sides.now },
    pub ghost cubes_long: { sizes.ny * sizes.nz ≤ length cubes.now },
}

// The samples of a lattice with its rows.
#[derive(Clone, Copy)]
pub struct Surface<'a> {
    pub samples: &'a [i16],
    pub rows: Rows<'a>,
    pub ghost full: { Full (lattice rows.sizes samples.now) },
}

impl Rows<'_> {
    // The side rows of row r of the cubes.
    pub fn quad(&self, r: usize) -> Quad
        requires { r + self.now.sizes.ny + 1 < self.now.sizes.ny * self.now.sizes.nz }
        ensures { result ≡ quad_at self.now.sides.now self.now.sizes.ny r }
    {
        Quad::at(self.sides, self.sizes.ny, r)
    }

    // The crossed cubes at y and z.
    pub fn crossed(&self, y: usize, z: usize) -> u64
        requires { (y + 1 < self.now.sizes.ny) × (z + 1 < self.now.sizes.nz) }
        ensures { let at = y + self.now.sizes.ny * z in
            result ≡ crossed_row (quad_at self.now.sides.now self.now.sizes.ny at) (get_or self.now.cubes.now at 0) }
    {
        let r = y + self.sizes.ny * z;
        self.quad(r).crossed(self.cubes[r])
    }

    // Whether the cube at p of the lattice that has these rows is crossed.
    pub fn is_crossed(&self, p: Place) -> bool
        requires { CubeIn self.now.sizes p }
        ensures { let n = self.now.sizes in
            ((s : List ℤ) → let L = lattice n s in
            HasBoth L self.now.sides.now self.now.cubes.now → result ≡ crossed L (cube_no n p)) }
    {
        bits::has_bit(self.crossed(p.y, p.z), p.x)
    }
}
