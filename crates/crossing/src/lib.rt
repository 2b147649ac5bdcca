// Crossings: t, positions, and the record of a vertex.
#![tactic(auto)]

ghost use Rattle.std.specs.Prelude.{◌≡◌, true, false, ◌+◌, ◌*◌, ◌≤◌, ◌<◌, pos, length, unsigned_abs};
ghost use Rattle.std.proofs.lemmas.List.Edits.{sets};
ghost use Rattle.paper.specs.Lattice.{lattice, air, sample_no, air_at, corner};
ghost use Rattle.paper.specs.Sheet.{edge_from, ends_of, rounded, crossing, coordinate, record_at, vertex_record};
ghost use Rattle.paper.specs.Within.{SampleIn};
ghost use Rattle.crossing.specs.Vertex.{numbers, Near, NearPlaces, Crosses};
ghost use Rattle.crossing.specs.Rounding.{more_by};

use lattice::Volume;
use paper::{Place, Rule};

// A vertex record.
#[derive(Clone, Copy, Debug, PartialEq, Eq)]
pub struct Vertex {
    pub edge: i32,
    pub x: i32,
    pub y: i32,
    pub z: i32,
}

// What is added to n before it is divided by d, so that the quotient is rounded by a rule: nothing, or the most that is below half of d,
// which leaves a tie where it is. Twice n, which would not fit, is not needed.
fn more_by(rule: Rule, d: u32) -> u32
    requires { (0 < d) × (d ≤ 65536) }
    ensures { (result ≡ more_by rule d) × (result ≤ 32767) }
{
    match rule {
        Rule::Down => 0,
        Rule::Nearest => (d - 1) / 2,
    }
}

// n / d in whole units, by a rule.
fn rounded_by(rule: Rule, n: u32, d: u32) -> u32
    requires { (n ≤ 2147483648) × (0 < d) × (d ≤ 65536) }
    ensures { result ≡ rounded rule n d }
{
    (n + more_by(rule, d)) / d
}

// Whether t is n / d in whole units, by a rule.
fn is_rounded(rule: Rule, n: u32, d: u32, t: u32) -> bool
    requires { (n ≤ 2147483648) × (0 < d) × (d ≤ 65535) × (t ≤ 65536) }
    ensures { result ≡ true → t ≡ rounded rule n d }
{
    let m = n + more_by(rule, d);
    let low = t * d;
    low <= m && m - low < d
}

// −p and q − p, for the solid end's value p and the air end's value q.
fn solid_and_whole(p: i16, q: i16) -> (u32, u32)
    requires { (air p ≡ false) × (air q ≡ true) }
    ensures values { (result.0 ≡ unsigned_abs p) × (result.1 ≡ unsigned_abs q + unsigned_abs p) }
    ensures small { (result.0 ≤ 32768) × (0 < result.1) × (result.1 ≤ 65535) }
{
    let n = -(p as i32);
    let d = (q as i32) - (p as i32);
    (n as u32, d as u32)
}

// t by a rule, for the solid end's value p and the air end's value q.
pub fn crossing_of(rule: Rule, p: i16, q: i16) -> u32
    requires { (air p ≡ false) × (air q ≡ true) }
    ensures { (result ≡ crossing rule p q) × (result ≤ 65534) }
{
    let (n, d) = solid_and_whole(p, q);
    rounded_by(rule, 65536 * n, d)
}

// Whether t is that number: a product where it is found by a quotient.
pub fn is_crossing(rule: Rule, p: i16, q: i16, t: u32) -> bool
    requires { (air p ≡ false) × (air q ≡ true) × (t ≤ 65536) }
    ensures { result ≡ true → t ≡ crossing rule p q }
{
    let (n, d) = solid_and_whole(p, q);
    is_rounded(rule, 65536 * n, d, t)
}

// The coordinate, on one axis, of a crossing that stands t units from the solid end towards the air end.
pub fn position(solid: usize, airy: usize, t: u32) -> i32
    requires { Near solid airy × (t < 65536) }
    ensures { result ≡ pos (coordinate solid airy t) }
{
    let from = solid as i32;
    let step = (airy as i32) - from;
    65536 * from + step * (t as i32)
}

// The record of edge e by a rule, with the solid end at s and the air end at a.
fn record_of(rule: Rule, volume: &Volume, e: usize, s: Place, a: Place) -> Vertex
    requires within { SampleIn volume.now.sizes s × SampleIn volume.now.sizes a × NearPlaces s a × (e < 2147483648) }
    requires s_value { let L = lattice volume.now.sizes volume.now.samples.now in
        (air_at L s ≡ false) × (air_at L a ≡ true) }
    ensures { numbers result ≡ record_at rule (lattice volume.now.sizes volume.now.samples.now) e s a }
{
    let t = crossing_of(rule, volume.value(s), volume.value(a));
    Vertex {
        edge: e as i32,
        x: position(s.x, a.x, t),
        y: position(s.y, a.y, t),
        z: position(s.z, a.z, t),
    }
}

// The ends of an edge of a kind, as corners from the anchor: R adds 1, T 2, F 4. A kind is a number here and above, since an edge's number
// is 7 times its anchor's plus the kind.
#[tactic(auto, unfolding(paper::specs::Sheet::ends_of, paper::specs::Tables::kinds))]
fn ends(kind: usize) -> (usize, usize)
    requires { kind < 7 }
    ensures values { (result.0 ≡ (ends_of kind).a) × (result.1 ≡ (ends_of kind).b) }
    ensures small { (result.0 < 8) × (result.1 < 8) }
{
    match kind {
        0 => (0, 1),
        1 => (0, 2),
        2 => (0, 4),
        3 => (2, 4),
        4 => (1, 4),
        5 => (2, 1),
        _ => (3, 4),
    }
}

// The sample at a corner of the cube at p.
#[tactic(auto, unfolding(paper::specs::Lattice::corner))]
pub fn corner_of(p: Place, c: usize) -> Place
    requires { (p.x < 64) × (p.y < 64) × (p.z < 64) × (c < 8) }
    ensures { result ≡ corner p c }
{
    Place {
        x: p.x + c % 2,
        y: p.y + c / 2 % 2,
        z: p.z + c / 4,
    }
}

// The record, by a rule, of the vertex on the edge of a kind at the anchor p.
pub fn vertex_on(rule: Rule, volume: &Volume, p: Place, kind: usize) -> Vertex
    requires { SampleIn volume.now.sizes p × Crosses (lattice volume.now.sizes volume.now.samples.now) p kind }
    ensures { let L = lattice volume.now.sizes volume.now.samples.now in
        numbers result ≡ vertex_record rule L (7 * sample_no volume.now.sizes p + kind) }
{
    let e = 7 * lattice::sample_no(volume.sizes, p) + kind;
    let (a, b) = ends(kind);
    let u = corner_of(p, a);
    let v = corner_of(p, b);
    if sides::is_air(volume.value(u)) {
        record_of(rule, volume, e, v, u)
    } else {
        record_of(rule, volume, e, u, v)
    }
}

// A record at place k of a vertex slice, number by number: `copy_from_slice` would bring them by way of the stack.
pub fn put_vertex(vertices: &mut [i32], k: usize, v: Vertex)
    requires { 4 * k + 4 ≤ length vertices.old }
    ensures { vertices.new ≡ sets vertices.old (4 * k) (numbers v) }
{
    let at = 4 * k;
    vertices[at] = v.edge;
    vertices[at + 1] = v.x;
    vertices[at + 2] = v.y;
    vertices[at + 3] = v.z;
}
