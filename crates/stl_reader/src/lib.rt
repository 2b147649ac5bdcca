// Reads the corners of a binary STL file's facets.
#![tactic(auto)]

ghost use Rattle.std.specs.Prelude.{◌≡◌, true, ◌+◌, ◌*◌, ◌≤◌, ◌<◌, length, unwrap_or, IfSome};
ghost use Rattle.std.proofs.lemmas.List.Edits.{sets};
ghost use Rattle.lists.specs.Lists.{range, each};
ghost use Rattle.paper.specs.Refused.{verdict_told};
ghost use Rattle.facets.specs.Facets.{facet_stands};
ghost use Rattle.stl.specs.Stl.{stl_length, stl_count, stl_facet, nine_at, first_untaken, stl_read_verdict, StlReads};
ghost use Rattle.stl.specs.Told.{loaded_told};
ghost use Rattle.stl.specs.Within.{AllStand};

use codec::Number;
use paper::Refusal;

// How many facets a file says it has.
#[tactic(auto, unfolding(stl::specs::Stl::stl_count))]
fn facet_count(bytes: &[u8]) -> usize
    requires { 84 ≤ length bytes.now }
    ensures { (result ≡ stl_count bytes.now) × (result < 4294967296) }
{
    u32::get(bytes, 80) as usize
}

// Whether the floats of facet i are all coordinates'.
#[tactic(auto, unfolding(stl::specs::Stl::stl_facet))]
fn facet_taken(bytes: &[u8], i: usize) -> bool
    requires { (i < 4294967296) × (84 + 50 * i + 50 ≤ length bytes.now) }
    ensures { result ≡ facet_stands (stl_facet bytes.now i) }
{
    facet_reader::facet_taken(bytes, stl::stl_length(i))
}

// The first of n facets with a float that no coordinate gives.
fn first_untaken(bytes: &[u8], n: usize) -> Option<usize>
    requires { (n ≡ stl_count bytes.now) × (stl_length n ≤ length bytes.now) × (n < 4294967296) }
    ensures first { unwrap_or result n ≡ first_untaken bytes.now }
    ensures within { IfSome result (λ i. i < n) }
{
    (0..n).find(|i| !facet_taken(bytes, *i))
}

// "reading 14 .., 25 .., 7"
#[tactic(auto, unfolding(stl::specs::Stl::stl_read_verdict))]
fn readable(bytes: &[u8], room: usize) -> Result<(), Refusal>
    ensures { verdict_told result ≡ stl_read_verdict bytes.now room }
{
    if bytes.len() < 84 {
        return Err(Refusal::Layout);
    }
    let n = facet_count(bytes);
    if bytes.len() != stl::stl_length(n) {
        return Err(Refusal::Layout);
    }
    if let Some(i) = first_untaken(bytes, n) {
        return Err(Refusal::Coordinate(i));
    }
    if room < 9 * n {
        return Err(Refusal::TriangleRoom);
    }
    Ok(())
}

// The nine integers of facet i.
#[tactic(auto, unfolding(stl::specs::Stl::nine_at, stl::specs::Stl::stl_facet))]
fn get_nine(bytes: &[u8], i: usize, out: &mut [i32])
    requires { (84 + 50 * i + 50 ≤ length bytes.now) × (9 * i + 9 ≤ length out.old) × (i < 4294967296)
        × (facet_stands (stl_facet bytes.now i) ≡ true) }
    ensures { out.new ≡ sets out.old (9 * i) (nine_at bytes.now i) }
{
    let f = facet_reader::get_facet(bytes, stl::stl_length(i));
    facet_reader::put_nine(out, 9 * i, f);
}

// The integers of n facets, at the front of the lent slice.
fn get_facets(bytes: &[u8], n: usize, out: &mut [i32])
    requires { (stl_length n ≤ length bytes.now) × (9 * n ≤ length out.old) × AllStand bytes.now n × (n < 4294967296) }
    ensures { out.new ≡ sets out.old 0 (each (nine_at bytes.now) (range 0 n)) }
{
    for i in 0..n {
        get_nine(bytes, i, out);
    }
}

// The facets' corners in the sheet's order, at the front of the lent slice: how many facets there are.
pub fn read(bytes: &[u8], out: &mut [i32]) -> Result<usize, Refusal>
    ensures { StlReads bytes.now out.old (loaded_told result) out.new }
{
    readable(bytes, out.len())?;
    let n = facet_count(bytes);
    get_facets(bytes, n, out);
    Ok(n)
}
