// The listing of bytes: their header, their samples, and the sheet of these from the lowest crossed cube.
#![tactic(auto)]

ghost use Rattle.std.specs.Prelude.{◌≡◌, ◌+◌, ◌*◌, ◌≤◌, length, map};
ghost use Rattle.lists.specs.Lists.{range};
ghost use Rattle.lists.specs.Bytes.{signed, field};
ghost use Rattle.paper.specs.Lattice.{lattice};
ghost use Rattle.paper.specs.Tests.{judge};
ghost use Rattle.paper.specs.Refused.{verdict_told, built_told};
ghost use Rattle.paper.specs.Build.{built, lent_after};
ghost use Rattle.paper.specs.declared.Start.TheVariants.{Lowest};
ghost use Rattle.lister.specs.Listing.{listed_sizes, listable, listing_tests, listing_room, Lists};

use codec::Number;
use paper::{BuildError, Refusal, SheetCounts, Sizes, Start};

// "nx, ny, nz (u16)"
#[tactic(auto, unfolding(crate::specs::Listing::listed_sizes))]
fn sizes_of(input: &[u8]) -> Sizes
    requires { 6 ≤ length input.now }
    ensures { result ≡ listed_sizes input.now }
{
    Sizes {
        nx: usize::from(u16::get(input, 0)),
        ny: usize::from(u16::get(input, 2)),
        nz: usize::from(u16::get(input, 4)),
    }
}

// "Its own room is 8 samples an axis"
#[tactic(auto, unfolding(crate::specs::Listing::listable))]
fn in_room(z: Sizes) -> bool
    ensures { result ≡ listable z }
{
    z.nx <= 8 && z.ny <= 8 && z.nz <= 8
}

// The tests, before anything is read but the header.
#[tactic(auto, unfolding(crate::specs::Listing::listing_tests), using(paper::proofs::Judged::sized))]
fn tested(input: &[u8]) -> Result<(), Refusal>
    ensures { verdict_told result ≡ judge (listing_tests input.now) }
{
    if input.len() < 6 {
        return Err(Refusal::Axes);
    }
    let sizes = sizes_of(input);
    if !lattice::axes_pass(sizes) || !in_room(sizes) {
        return Err(Refusal::Axes);
    }
    if input.len() != 6 + 2 * lattice::sample_count(sizes) {
        return Err(Refusal::SampleCount);
    }
    Ok(())
}

// The samples, from the bytes behind the header. By index: of what is written through iter_mut a proof knows the length only.
fn get_samples(input: &[u8], samples: &mut [i16])
    requires { 6 + 2 * length samples.old ≤ length input.now }
    ensures { samples.new ≡ map (λ i. signed 32768 (field 2 input.now (6 + 2 * i))) (range 0 (length samples.old)) }
{
    for i in 0..samples.len() {
        samples[i] = i16::get(input, 6 + 2 * i);
    }
}

// The sheet of samples, in work room of its own.
#[tactic(auto, unfolding(crate::specs::Listing::listing_room))]
fn mesh(
    samples: &[i16],
    sizes: Sizes,
    vertices: &mut [i32],
    triangles: &mut [u32],
) -> Result<SheetCounts, BuildError>
    ensures { let L = lattice sizes samples.now in
        let room = listing_room vertices.old triangles.old in
        let left = lent_after L Lowest room in
        (built_told result ≡ built L Lowest room) × (vertices.new ≡ left.vertices) × (triangles.new ≡ left.triangles) }
{
    let mut words = [0u16; 343];
    let mut waiting = [0u32; 343];
    let mut slots = [0u32; 3584];
    builder::build(
        samples,
        sizes,
        Start::Lowest,
        vertices,
        triangles,
        &mut words,
        &mut waiting,
        &mut slots,
    )
}

// The sheet that bytes list, or the first test that fails. "Its own room is .. 1,000 vertices and 2,000 triangles."
pub fn list(
    input: &[u8],
    vertices: &mut [i32; 4000],
    triangles: &mut [u32; 6000],
) -> Result<SheetCounts, BuildError>
    ensures { Lists input.now vertices.old triangles.old (built_told result) vertices.new triangles.new }
{
    tested(input)?;
    let sizes = sizes_of(input);
    let n = lattice::sample_count(sizes);
    let mut room = [0i16; 512];
    let samples = &mut room[..n];
    get_samples(input, samples);
    mesh(samples, sizes, vertices, triangles)
}
