// A file's vertex records of a row of anchors, one by one, against the edges of the row.
#![tactic(auto)]

ghost use Rattle.std.specs.Prelude.{◌≡◌, ℕ, ◌+◌, ◌-◌, ◌*◌, ◌<◌, ◌≤◌, true, length, pos, ◌+ℤ◌, ◌*ℤ◌, if◌then◌else◌, slice_index_or, IfSome};
ghost use Rattle.std.specs.Bool.{xor};
ghost use Rattle.paper.specs.Lattice.{lattice, air, place, corner};
ghost use Rattle.paper.specs.Sheet.{ends_of, coordinate, vertex_record};
ghost use Rattle.paper.specs.File.{file_vertices};
ghost use Rattle.paper.specs.Within.{SampleIn};
ghost use Rattle.crossing.specs.Vertex.{NearPlaces, Crosses};
ghost use Rattle.check_entries.specs.Entries.{along, Stepping, Ends, Long, RowCrosses, Entry};

use codec::Number;
use lattice::Volume;
use layout::SheetFile;
use paper::{Rule, Sizes};

// ── t from the first end ──

// Of the values of an edge's ends, which are on different sides, the solid one and the air one, and how far s units from the first end are
// from the solid one.
fn from_solid(first: i16, second: i16, s: u32) -> (i16, i16, u32)
    requires { s ≤ 65536 }
    ensures { (result.0 ≡ (if air first then second else first))
        × (result.1 ≡ (if air first then first else second))
        × (result.2 ≡ (if air first then 65536 - s else s)) }
{
    if sides::is_air(first) {
        return (second, first, 65536 - s);
    }
    (first, second, s)
}

// Whether the crossing between ends with these values, by a rule, is s units from the first.
fn is_along(rule: Rule, first: i16, second: i16, s: u32) -> bool
    requires { xor (air first) (air second) ≡ true }
    ensures { result ≡ true → (s ≤ 65536) × (s ≡ along rule first second) }
{
    if 65536 < s {
        return false;
    }
    let (p, q, t) = from_solid(first, second, s);
    crossing::is_crossing(rule, p, q, t)
}

// ── positions ──

// The coordinate that is s units from another in a direction.
fn towards(from: usize, dir: i32, s: u32) -> i32
    requires { Stepping from dir s }
    ensures { result ≡ pos from +ℤ dir *ℤ pos s }
{
    (from as i32) + dir * (s as i32)
}

// Whether number j of the records is that.
fn stands(file: &SheetFile, j: usize, from: usize, dir: i32, s: u32) -> bool
    requires { (j < 4 * file.now.vertices) × Stepping from dir s }
    ensures { result ≡ true → slice_index_or (file_vertices file.now.bytes.now) j (pos 0) ≡ pos from +ℤ dir *ℤ pos s }
{
    file.record_word(j) == towards(from, dir, s)
}

// A record's edge by the row's first edge, where it is one of the row's `wide` edges from `low` on.
fn edge_in_row(w: i32, row: usize, wide: usize, low: usize) -> Option<usize>
    requires { (row + wide < 4294967296) × (low ≤ wide) }
    ensures { IfSome result (λ e. (e < wide) × (w ≡ pos (row + e)) × (low ≤ e)) }
{
    if w < 0 {
        return None;
    }
    let e = w as usize;
    if e < row + low || row + wide <= e {
        return None;
    }
    Some(e - row)
}

// ── one record ──

// The row of anchors at y and z, whose first is sample number `here`, and how its edges run, by their kinds. The slices stand side by side:
// each is read by numbers of its own.
#[derive(Clone, Copy)]
pub struct Lines<'a> {
    pub sizes: Sizes,
    pub y: usize,
    pub z: usize,
    pub here: usize,
    // how far the two ends of a kind are from the anchor, by the numbers of samples
    pub off: &'a [usize],
    // 65,536 times the three coordinates of the first end, x from the anchor on, and the directions of the three axes
    pub from: &'a [usize],
    pub dirs: &'a [i32],
    // the number of a record that grows along the edge, where it starts but for x, and whether it starts at x
    pub main: &'a [usize],
    pub org: &'a [u32],
    pub mask: &'a [u32],
    pub ghost placed: { (y < sizes.ny) × (z < sizes.nz) × (here ≡ sizes.nx * (y + sizes.ny * z)) },
    pub ghost ends: { Ends sizes y z off.now from.now dirs.now main.now },
    pub ghost long: { Long off.now from.now dirs.now main.now org.now mask.now },
}

impl Lines<'_> {
    // Whether the positions of record i are those that are s units from the first end of the edge of a kind at the anchor x.
    fn same_places(&self, file: &SheetFile, i: usize, kind: usize, x: usize, s: u32) -> bool
        requires few { (i < file.now.vertices) × (kind < 7) × (x < 64) × (s ≤ 65536) }
        requires near_places { let p = place x self.now.y self.now.z in
            NearPlaces (corner p (ends_of kind).a) (corner p (ends_of kind).b) }
        ensures { let p = place x self.now.y self.now.z in
            let u = corner p (ends_of kind).a in
            let v = corner p (ends_of kind).b in
            let fs = file_vertices file.now.bytes.now in
            (result ≡ true → (slice_index_or fs (4 * i + 1) (pos 0) ≡ pos (coordinate u.x v.x s))
            × (slice_index_or fs (4 * i + 2) (pos 0) ≡ pos (coordinate u.y v.y s))
            × (slice_index_or fs (4 * i + 3) (pos 0) ≡ pos (coordinate u.z v.z s))) }
    {
        let at = 4 * i;
        let k = 3 * kind;
        stands(file, at + 1, 65536 * x + self.from[k], self.dirs[k], s)
            && stands(file, at + 2, self.from[k + 1], self.dirs[k + 1], s)
            && stands(file, at + 3, self.from[k + 2], self.dirs[k + 2], s)
    }

    // How far record i says that it is from the first end of its edge, of a kind at an anchor x; nothing hangs on it.
    fn told(&self, file: &SheetFile, i: usize, kind: usize, x: usize) -> u32
        requires { (i < file.now.vertices) × (kind < 7) × (x < 64) }
    {
        let c = u32::get(file.bytes, 16 * i + 4 * self.main[kind]);
        let at = self.org[kind].wrapping_add(65536 * (x as u32) & self.mask[kind]);
        c.wrapping_sub(at)
    }

    // Whether the positions of record i are, by a rule, those of the vertex on the edge of a kind at the anchor x.
    fn same_vertex(
        &self,
        rule: Rule,
        volume: &Volume,
        x: usize,
        kind: usize,
        file: &SheetFile,
        i: usize,
    ) -> bool
        requires sizes { self.now.sizes ≡ volume.now.sizes }
        requires crosses { let p = place x self.now.y self.now.z in
            SampleIn volume.now.sizes p × Crosses (lattice volume.now.sizes volume.now.samples.now) p kind }
        requires within { i < file.now.vertices }
        ensures { let vs = vertex_record rule (lattice volume.now.sizes volume.now.samples.now) (7 * (self.now.here + x) + kind) in
            let fs = file_vertices file.now.bytes.now in
            (result ≡ true → (j : ℕ) → 0 < j → j < 4 → slice_index_or fs (4 * i + j) (pos 0) ≡ slice_index_or vs j (pos 0)) }
    {
        let at = self.here + x;
        let first = volume.samples[at + self.off[2 * kind]];
        let second = volume.samples[at + self.off[2 * kind + 1]];
        let s = self.told(file, i, kind, x);
        is_along(rule, first, second, s) && self.same_places(file, i, kind, x, s)
    }

    // The edge of record i, counted from the row's first, where it is at least `low`, the row, by the words ks of its kinds, has it, and
    // the record is its vertex's by a rule.
    pub fn edge_of(
        &self,
        rule: Rule,
        volume: &Volume,
        ks: &[u64],
        file: &SheetFile,
        i: usize,
        low: usize,
    ) -> Option<usize>
        requires sizes { self.now.sizes ≡ volume.now.sizes }
        requires row_crosses { let n = volume.now.sizes in
            RowCrosses (lattice n volume.now.samples.now) self.now.y self.now.z (7 * n.nx) ks.now × (7 ≤ length ks.now) }
        requires within { (i < file.now.vertices) × (low ≤ 7 * volume.now.sizes.nx) }
        ensures { let n = volume.now.sizes in
            let fs = file_vertices file.now.bytes.now in
            IfSome result (λ e. (e < 7 * n.nx)
            × Entry rule (lattice n volume.now.samples.now) ks.now fs (7 * self.now.here) i low e) }
    {
        let word = file.record_word(4 * i);
        let e = edge_in_row(word, 7 * self.here, 7 * self.sizes.nx, low)?;
        let x = e / 7;
        let kind = e % 7;
        if bits::has_bit(ks[kind], x) && self.same_vertex(rule, volume, x, kind, file, i) {
            Some(e)
        } else {
            None
        }
    }
}
