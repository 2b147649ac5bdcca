// The tests of a file's bytes, which a reader and a checker share, and the numbers that stand in them.
#![tactic(auto)]

ghost use Rattle.std.specs.Prelude.{◌≡◌, true, ℕ, ◌+◌, ◌*◌, ◌<◌, ◌≤◌, pos, length, get_or, unwrap_or, IfSome};
ghost use Rattle.paper.specs.Tests.{judge};
ghost use Rattle.paper.specs.Refused.{verdict_told};
ghost use Rattle.paper.specs.File.{bad_triangle, first_bad, limits, trailer_at, file_length, trailer, file_v, file_t, file_sizes};
ghost use Rattle.paper.specs.File.{file_vertices, file_triangles, laid_out, file_tests};
ghost use Rattle.layout.specs.Laid.{any_from, Ranged};

use codec::Number;
use paper::{Refusal, Sizes};

// ── tests ──

// V and T go along as two numbers, as the documents have them: a struct of the two would be no plainer.

// "V is at most 2,000,000 and T at most 4,000,000."
#[tactic(auto, unfolding(paper::specs::File::limits))]
pub fn within_limits(nv: usize, nt: usize) -> bool
    ensures { result ≡ limits nv nt }
{
    nv <= 2000000 && nt <= 4000000
}

// Whether one of a triangle's three numbers is not below nv.
pub fn any_from(nv: usize, a: u32, b: u32, c: u32) -> bool
    ensures { result ≡ any_from nv a b c }
{
    nv <= a as usize || nv <= b as usize || nv <= c as usize
}

// Where the trailer stands: "16V + 12T".
pub fn trailer_at(nv: usize, nt: usize) -> usize
    requires { (nv < 4294967296) × (nt < 4294967296) }
    ensures { result ≡ trailer_at nv nt }
{
    16 * nv + 12 * nt
}

// How long a file is.
#[tactic(auto, unfolding(paper::specs::File::file_length))]
pub fn file_length(nv: usize, nt: usize) -> usize
    requires { (nv < 4294967296) × (nt < 4294967296) }
    ensures { result ≡ file_length nv nt }
{
    trailer_at(nv, nt) + 24
}

// ── a file's trailer ──

// That it has 24 bytes is a bound as any index has one, and found at each call: a struct that holds it would be no plainer.

// The number at a place of the trailer.
#[tactic(auto, unfolding(paper::specs::File::trailer))]
fn trailer_number<N: Number>(bytes: &[u8], at: usize) -> N
    requires { (24 ≤ length bytes.now) × (at + N.SIZE ≤ 24) }
    ensures { result ≡ N.of (trailer N.SIZE bytes.now at) }
{
    N::get(bytes, bytes.len() - 24 + at)
}

// V, by the trailer.
#[tactic(auto, unfolding(paper::specs::File::file_v))]
pub fn vertex_count(bytes: &[u8]) -> usize
    requires { 24 ≤ length bytes.now }
    ensures { (result ≡ file_v bytes.now) × (result < 4294967296) }
{
    trailer_number::<u32>(bytes, 4) as usize
}

// T, by the trailer.
#[tactic(auto, unfolding(paper::specs::File::file_t))]
pub fn triangle_count(bytes: &[u8]) -> usize
    requires { 24 ≤ length bytes.now }
    ensures { (result ≡ file_t bytes.now) × (result < 4294967296) }
{
    trailer_number::<u32>(bytes, 12) as usize
}

// nx, ny and nz, by the trailer.
#[tactic(auto, unfolding(paper::specs::File::file_sizes))]
pub fn sizes_of(bytes: &[u8]) -> Sizes
    requires { 24 ≤ length bytes.now }
    ensures { result ≡ file_sizes bytes.now }
{
    Sizes {
        nx: trailer_number::<u16>(bytes, 16) as usize,
        ny: trailer_number::<u16>(bytes, 18) as usize,
        nz: trailer_number::<u16>(bytes, 20) as usize,
    }
}

// 14: "V or T is above its limit, or a distance or the file's length is not what V and T give"
#[tactic(auto, unfolding(paper::specs::File::laid_out, paper::specs::File::file_length))]
fn laid_out(bytes: &[u8]) -> bool
    requires { 24 ≤ length bytes.now }
    ensures { result ≡ laid_out bytes.now }
{
    let nv = vertex_count(bytes);
    let nt = triangle_count(bytes);
    within_limits(nv, nt)
        && trailer_number::<u32>(bytes, 0) as usize == trailer_at(nv, nt)
        && trailer_number::<u32>(bytes, 8) as usize == 12 * nt
        && bytes.len() == file_length(nv, nt)
}

// ── a file's records and triangles ──

// The bytes of a file that passes test 14, with its counts.
#[derive(Clone, Copy)]
pub struct SheetFile<'a> {
    pub bytes: &'a [u8],
    pub vertices: usize,
    pub triangles: usize,
    pub ghost ranged: { Ranged bytes.now },
    pub ghost counted_v: { vertices ≡ file_v bytes.now },
    pub ghost counted_t: { triangles ≡ file_t bytes.now },
}

impl SheetFile<'_> {
    // With the counts of its trailer.
    pub fn new(bytes: &[u8]) -> SheetFile<'_>
        requires { Ranged bytes.now }
        ensures { result.bytes.now ≡ bytes.now }
    {
        SheetFile {
            bytes,
            vertices: vertex_count(bytes),
            triangles: triangle_count(bytes),
        }
    }

    // The number i of the vertex records.
    pub fn record_word(&self, i: usize) -> i32
        requires { i < 4 * self.now.vertices }
        ensures { result ≡ get_or (file_vertices self.now.bytes.now) i (pos 0) }
    {
        i32::get(self.bytes, 4 * i)
    }

    // The number i of the triangles.
    pub fn triangle_word(&self, i: usize) -> u32
        requires { i < 3 * self.now.triangles }
        ensures { result ≡ get_or (file_triangles self.now.bytes.now) i 0 }
    {
        u32::get(self.bytes, 16 * self.vertices + 4 * i)
    }

    // ── test 15 ──

    // Whether number i of the triangles is below n.
    fn is_below(&self, n: u32, i: usize) -> bool
        requires { i < 3 * self.now.triangles }
        ensures { result ≡ true → get_or (file_triangles self.now.bytes.now) i 0 < n }
    {
        self.triangle_word(i) < n
    }

    // The same of number i of each of the first eight parts of the triangles' numbers, `part` numbers to a part. Written out, so that
    // no read waits for another.
    fn eight_below(&self, n: u32, part: usize, i: usize) -> bool
        requires { (8 * part ≤ 3 * self.now.triangles) × (i < part) }
        ensures { result ≡ true → (k : ℕ) → k < 8 → get_or (file_triangles self.now.bytes.now) (k * part + i) 0 < n }
    {
        self.is_below(n, i)
            & self.is_below(n, part + i)
            & self.is_below(n, 2 * part + i)
            & self.is_below(n, 3 * part + i)
            & self.is_below(n, 4 * part + i)
            & self.is_below(n, 5 * part + i)
            & self.is_below(n, 6 * part + i)
            & self.is_below(n, 7 * part + i)
    }

    // Whether the numbers of these eight parts are all below n: memory is read faster in eight places than in one.
    fn parts_below(&self, n: u32, part: usize) -> bool
        requires { 8 * part ≤ 3 * self.now.triangles }
        ensures { result ≡ true → (j : ℕ) → j < 8 * part → get_or (file_triangles self.now.bytes.now) j 0 < n }
    {
        let mut below = true;
        for i in 0..part {
            below &= self.eight_below(n, part, i);
        }
        below
    }

    // Whether the numbers from number `from` to number `to` are all below n.
    fn rest_below(&self, n: u32, from: usize, to: usize) -> bool
        requires { (from ≤ to) × (to ≤ 3 * self.now.triangles) }
        ensures { result ≡ true → (j : ℕ) → from ≤ j → j < to → get_or (file_triangles self.now.bytes.now) j 0 < n }
    {
        let mut below = true;
        for i in from..to {
            below &= self.is_below(n, i);
        }
        below
    }

    // Whether the triangles' numbers are all below V: loops without a way out, so that many are looked at in a turn.
    fn all_below(&self) -> bool
        ensures { result ≡ true
            → (j : ℕ) → j < 3 * self.now.triangles → get_or (file_triangles self.now.bytes.now) j 0 < self.now.vertices }
    {
        let n = self.vertices as u32;
        let to = 3 * self.triangles;
        let part = to / 8;
        self.parts_below(n, part) && self.rest_below(n, 8 * part, to)
    }

    // 15: "a triangle index is not below V"
    #[tactic(auto, using(crate::proofs::Trailer::bad_is))]
    fn is_bad(&self, i: usize) -> bool
        requires { i < self.now.triangles }
        ensures { result ≡ bad_triangle self.now.vertices (file_triangles self.now.bytes.now) i }
    {
        let at = 3 * i;
        any_from(
            self.vertices,
            self.triangle_word(at),
            self.triangle_word(at + 1),
            self.triangle_word(at + 2),
        )
    }

    // The first such triangle.
    fn first_bad(&self) -> Option<usize>
        ensures first { let file = self.now in
            unwrap_or result file.triangles ≡ first_bad file.vertices file.triangles (file_triangles file.bytes.now) }
        ensures within { IfSome result (λ i. i < self.now.triangles) }
    {
        if self.all_below() {
            return None;
        }
        (0..self.triangles).find(|i| self.is_bad(*i))
    }
}

// "then 11, 12, 1, 14, 15 on the file"
#[tactic(auto, unfolding(paper::specs::File::file_tests))]
pub fn tested(bytes: &[u8]) -> Result<(), Refusal>
    ensures { verdict_told result ≡ judge (file_tests bytes.now) }
{
    if bytes.len() < 24 {
        return Err(Refusal::ShortFile);
    }
    if trailer_number::<u16>(bytes, 22) != 21331 {
        return Err(Refusal::Mark);
    }
    if !lattice::axes_pass(sizes_of(bytes)) {
        return Err(Refusal::Axes);
    }
    if !laid_out(bytes) {
        return Err(Refusal::Layout);
    }
    match SheetFile::new(bytes).first_bad() {
        Some(i) => Err(Refusal::Index(i)),
        None => Ok(()),
    }
}
