// Test 18: the triangles of a file, named by edges, against those of the visited cubes.
#![tactic(auto)]

ghost use Rattle.std.specs.Prelude.{◌≡◌, cond, ◌%◌, ◌+◌, ◌^◌, ◌≤◌, ◌<◌, ◌*◌, MatchOption, IfSome, unwrap_or, length, get_or};
ghost use Rattle.paper.specs.Lattice.{cubes};
ghost use Rattle.paper.specs.Room.{needed_slots};
ghost use Rattle.paper.specs.Within.{Sized, Below, CubeIn};
ghost use Rattle.paper.specs.File.{file_v, file_t, file_vertices, file_triangles};
ghost use Rattle.paper.specs.Check.{turned, corner_of, triangle_of};
ghost use Rattle.tetra.specs.Cut.{tri_of};
ghost use Rattle.layout.specs.Laid.{LaidOut};
ghost use Rattle.check_triangles.specs.Words.{word_by, words_by};
ghost use Rattle.check_triangles.specs.Triples.{Named, holder, is_at, place_from, Sure, Based, Finds};
ghost use Rattle.check_triangles.specs.Triples.{fresh_at, noted_at, Small, seen_after, first_bad_in};

use layout::SheetFile;
use paper::{Place, Sizes};
use rows::Rows;
use tetra::{Cut, Triangle};

// ── triangles of a cube ──

// From the next corner.
fn turn(t: Triangle) -> Triangle
    ensures { (result.a ≡ t.b) × (result.b ≡ t.c) × (result.c ≡ t.a) }
{
    Triangle {
        a: t.b,
        b: t.c,
        c: t.a,
    }
}

// Whether t, read from any corner, is u.
#[tactic(auto, unfolding(paper::specs::Check::turned, paper::specs::Check::same_triangle))]
fn is_turned(t: Triangle, u: Triangle) -> bool
    ensures { result ≡ turned (tri_of t) (tri_of u) }
{
    t == u || turn(t) == u || turn(turn(t)) == u
}

// The number of the cube that can hold t.
fn holder_of(sizes: Sizes, t: Triangle) -> usize
    requires { Sized sizes × Below (needed_slots sizes) (tri_of t) }
    ensures { result ≡ holder sizes (tri_of t) }
{
    let a = check_records::anchor_of(sizes, t.a);
    let b = check_records::anchor_of(sizes, t.b);
    let c = check_records::anchor_of(sizes, t.c);
    let x = a.x.min(b.x).min(c.x);
    let y = a.y.min(b.y).min(c.y);
    let z = a.z.min(b.z).min(c.z);
    x + (sizes.nx - 1) * (y + (sizes.ny - 1) * z)
}

// Whether t is triangle c, two to a tetrahedron, of a cube with pattern m.
fn is_at(cut: &Cut, base: usize, m: usize, t: Triangle, c: usize) -> bool
    requires { (base ≤ 2000000) × (c < 12) }
    ensures { result ≡ is_at cut.now.sizes base m (tri_of t) c }
{
    let tet = c / 2;
    let j = c % 2;
    let row = tetra::row(m, tet);
    j < tetra::row_count(row) && is_turned(t, cut.triangle(base, tet, row, j))
}

// The first place of t from `from` on in a cube with pattern m.
fn place_from(cut: &Cut, base: usize, m: usize, t: Triangle, from: usize) -> Option<usize>
    requires { (base ≤ 2000000) × (from ≤ 12) }
    ensures { let place = place_from cut.now.sizes base m (tri_of t) from in
        MatchOption result (place ≡ 12) (λ c. (place ≡ c) × (c < 12)) }
{
    for c in from..12 {
        if is_at(cut, base, m, t, c) {
            return Some(c);
        }
    }
    None
}

// ── the place of a triangle ──

// A place of a visited cube: the cube's number, 7 × the number of its lowest sample, and its pattern.
#[derive(Clone, Copy)]
pub struct Spot {
    pub cube: usize,
    pub base: usize,
    pub pattern: usize,
    pub place: usize,
}

// The pattern of the cube at p, where it is visited.
fn pattern_at(rows: &Rows, p: Place) -> Option<usize>
    requires { CubeIn rows.now.sizes p }
    ensures { let word = word_by rows.now.sizes rows.now.sides.now rows.now.cubes.now p in
        MatchOption result (word ≡ 0) (λ m. (word ≡ 256 + m) × (m < 256)) }
{
    let r = p.y + rows.sizes.ny * p.z;
    if bits::has_bit(rows.cubes[r], p.x) {
        Some(rows.quad(r).pattern(p.x))
    } else {
        None
    }
}

// Where t is, by the cube that can hold it.
fn search(cut: &Cut, rows: &Rows, t: Triangle) -> Option<Spot>
    requires { (cut.now.sizes ≡ rows.now.sizes) × Below (needed_slots rows.now.sizes) (tri_of t) }
    ensures { Finds rows.now.sizes (words_by rows.now.sizes rows.now.sides.now rows.now.cubes.now) (tri_of t) result }
{
    let cube = holder_of(rows.sizes, t);
    if lattice::cube_count(rows.sizes) <= cube {
        return None;
    }
    let p = lattice::cube_at(rows.sizes, cube);
    let pattern = pattern_at(rows, p)?;
    let base = 7 * lattice::sample_no(rows.sizes, p);
    let place = place_from(cut, base, pattern, t, 0)?;
    Some(Spot {
        cube,
        base,
        pattern,
        place,
    })
}

// Where t is: sought behind the last triangle in that one's cube, then by its own.
fn find(cut: &Cut, rows: &Rows, last: Option<Spot>, t: Triangle) -> Option<Spot>
    requires sized { (cut.now.sizes ≡ rows.now.sizes) × Below (needed_slots rows.now.sizes) (tri_of t) }
    requires words { let words = words_by rows.now.sizes rows.now.sides.now rows.now.cubes.now in
        Sure rows.now.sizes words × IfSome last (Based rows.now.sizes words) }
    ensures { Finds rows.now.sizes (words_by rows.now.sizes rows.now.sides.now rows.now.cubes.now) (tri_of t) result }
{
    if let Some(at) = last {
        if let Some(place) = place_from(cut, at.base, at.pattern, t, at.place + 1) {
            return Some(Spot { place, ..at });
        }
    }
    search(cut, rows, t)
}

// Whether the bit of a spot is 0; if so, it becomes 1.
fn note(seen: &mut [u32], at: Spot) -> bool
    requires { (at.cube < length seen.old) × (get_or seen.old at.cube 0 < 4096) × (at.place < 12) }
    ensures { let old = seen.old in
        (result ≡ fresh_at old at) × (seen.new ≡ cond result (noted_at old at) old) }
{
    let old = seen[at.cube];
    if bits::has_bit(u64::from(old), at.place) {
        return false;
    }
    seen[at.cube] = old + (1 << at.place);
    true
}

// ── the triangles of a file ──

// A file whose records name edges, of so many.
#[derive(Clone, Copy)]
struct Naming<'a> {
    file: SheetFile<'a>,
    edges: usize,
    ghost laid: { LaidOut file.bytes.now },
    ghost named: { Named edges (file_vertices file.bytes.now) (file_v file.bytes.now) },
}

impl Naming<'_> {
    // The edge that number j of the triangles names.
    fn edge(&self, j: usize) -> usize
        requires { j < 3 * file_t self.now.file.bytes.now }
        ensures { let bs = self.now.file.bytes.now in
            (result ≡ corner_of (file_vertices bs) (file_triangles bs) j) × (result < self.now.edges) }
    {
        let v = self.file.triangle_word(j) as usize;
        self.file.record_word(4 * v) as usize
    }

    // Triangle i, named by edges.
    fn triangle(&self, i: usize) -> Triangle
        requires { i < file_t self.now.file.bytes.now }
        ensures { let bs = self.now.file.bytes.now in
            (tri_of result ≡ triangle_of (file_vertices bs) (file_triangles bs) i) × Below self.now.edges (tri_of result) }
    {
        let at = 3 * i;
        Triangle {
            a: self.edge(at),
            b: self.edge(at + 1),
            c: self.edge(at + 2),
        }
    }
}

// The first triangle that is not one of its cube's, or whose bit an earlier one made 1; the bits of those before it are 1.
pub fn first_bad(file: &SheetFile, rows: &Rows, seen: &mut [u32]) -> Option<usize>
    requires laid { LaidOut file.now.bytes.now
        × Named (needed_slots rows.now.sizes) (file_vertices file.now.bytes.now) (file_v file.now.bytes.now) }
    requires room { let n = rows.now.sizes in
        (cubes n ≤ length seen.old) × Small (cubes n) seen.old × Sure n (words_by n rows.now.sides.now rows.now.cubes.now) }
    ensures first { let n = rows.now.sizes in
        let words = words_by n rows.now.sides.now rows.now.cubes.now in
        let vs = file_vertices file.now.bytes.now in
        let ts = file_triangles file.now.bytes.now in
        let nt = file_t file.now.bytes.now in
        (unwrap_or result nt ≡ first_bad_in n words vs ts seen.old nt)
        × (seen.new ≡ seen_after n words vs ts seen.old (unwrap_or result nt)) }
    ensures below { IfSome result (λ i. i < file_t file.now.bytes.now) }
{
    let cut = Cut::new(rows.sizes);
    let naming = Naming {
        file: *file,
        edges: 7 * lattice::sample_count(rows.sizes),
    };
    let mut last = None;
    for i in 0..file.triangles {
        let Some(at) = find(&cut, rows, last, naming.triangle(i)) else {
            return Some(i);
        };
        if !note(seen, at) {
            return Some(i);
        }
        last = Some(at);
    }
    None
}
