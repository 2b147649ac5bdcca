// Test 17: the vertex records of a file, one by one, against the slots of the sheet's vertices.
#![tactic(auto)]

ghost use Rattle.std.specs.Prelude.{◌≡◌, ◌*◌, ◌/◌, ◌≤◌, ◌<◌, IfSome, unwrap_or, length};
ghost use Rattle.paper.specs.Lattice.{lattice, sample_at};
ghost use Rattle.paper.specs.Room.{needed_slots};
ghost use Rattle.paper.specs.Within.{Sized, SampleIn};
ghost use Rattle.paper.specs.File.{file_v, file_vertices};
ghost use Rattle.paper.specs.Check.{record_of, same_numbers};
ghost use Rattle.crossing.specs.Vertex.{numbers};
ghost use Rattle.check_records.specs.Records.{AllCross, edge_in, good_edge, first_bad_in, slots_after};

use crossing::Vertex;
use lattice::Volume;
use layout::SheetFile;
use paper::{Place, Rule, Sizes};

// A record's edge, where it is one of n.
pub fn edge_in(e: i32, n: usize) -> Option<usize>
    ensures is { unwrap_or result n ≡ edge_in e n }
    ensures below { IfSome result (λ m. m < n) }
{
    match usize::try_from(e) {
        Ok(m) if m < n => Some(m),
        _ => None,
    }
}

// The place of the anchor of edge e.

pub fn anchor_of(sizes: Sizes, e: usize) -> Place
    requires { Sized sizes × (e < needed_slots sizes) }
    ensures { (result ≡ sample_at sizes (e / 7)) × SampleIn sizes result }
{
    lattice::place_of(e / 7, sizes.nx, sizes.ny)
}

// Record i of a file.
fn record_at(file: &SheetFile, i: usize) -> Vertex
    requires { i < file.now.vertices }
    ensures { numbers result ≡ record_of (file_vertices file.now.bytes.now) i }
{
    let at = 4 * i;
    Vertex {
        edge: file.record_word(at),
        x: file.record_word(at + 1),
        y: file.record_word(at + 2),
        z: file.record_word(at + 3),
    }
}

// Whether two records have the same numbers.
fn same_vertex(v: &Vertex, w: &Vertex) -> bool
    ensures { result ≡ same_numbers (numbers v.now) (numbers w.now) }
{
    v.edge == w.edge && v.x == w.x && v.y == w.y && v.z == w.z
}

// The edge of record i, where its slot is used and the record is its vertex's by a rule.
fn good_edge(
    rule: Rule,
    volume: &Volume,
    file: &SheetFile,
    slots: &[u32],
    i: usize,
) -> Option<usize>
    requires in_file { i < file.now.vertices }
    requires all_cross { AllCross (lattice volume.now.sizes volume.now.samples.now) slots.now
        × (needed_slots volume.now.sizes ≤ length slots.now) }
    ensures is { let L = lattice volume.now.sizes volume.now.samples.now in
        unwrap_or result (needed_slots volume.now.sizes) ≡ good_edge rule L (file_vertices file.now.bytes.now) slots.now i }
    ensures below { IfSome result (λ e. e < needed_slots volume.now.sizes) }
{
    let v = record_at(file, i);
    let e = edge_in(v.edge, 7 * lattice::sample_count(volume.sizes))?;
    if slots[e] == 0 {
        return None;
    }
    let p = anchor_of(volume.sizes, e);
    let w = crossing::vertex_on(rule, volume, p, e % 7);
    if same_vertex(&v, &w) { Some(e) } else { None }
}

// The first record that is not, by a rule, that of a vertex, or whose edge an earlier record has; the slots of the edges before it become
// 0.
pub fn first_bad(rule: Rule, volume: &Volume, file: &SheetFile, slots: &mut [u32]) -> Option<usize>
    requires { AllCross (lattice volume.now.sizes volume.now.samples.now) slots.old
        × (needed_slots volume.now.sizes ≤ length slots.old) }
    ensures first { let L = lattice volume.now.sizes volume.now.samples.now in
        let vs = file_vertices file.now.bytes.now in
        let nv = file_v file.now.bytes.now in
        (unwrap_or result nv ≡ first_bad_in rule L vs slots.old nv) × (slots.new ≡ slots_after L vs slots.old (unwrap_or result nv)) }
    ensures below { IfSome result (λ i. i < file_v file.now.bytes.now) }
{
    for i in 0..file.vertices {
        match good_edge(rule, volume, file, slots, i) {
            Some(e) => slots[e] = 0,
            None => return Some(i),
        }
    }
    None
}
