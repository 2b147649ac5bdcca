// Tests 1 to 5 on the samples, which building and checking share, the rows of sides and of cubes that may be visited, and the start cube.
#![tactic(auto)]

ghost use Rattle.std.specs.Prelude.{◌≡◌, ◌≤◌, length};
ghost use Rattle.paper.specs.Lattice.{lattice, in_lattice};
ghost use Rattle.paper.specs.Room.{of_lengths, roomy};
ghost use Rattle.paper.specs.Within.{Sized};
ghost use Rattle.paper.specs.declared.Start.TheVariants.{Cube};
ghost use Rattle.ready.specs.Ready.{unplaced, Shaped, ChosenBy, Readied};

use lattice::Volume;
use paper::{Place, Refusal, Sizes, Start};
use rows::Rows;

// Test 3.
#[tactic(auto, unfolding(paper::specs::Room::roomy))]
fn has_room(sizes: Sizes, words: usize, waiting: usize, slots: usize) -> bool
    requires { Sized sizes }
    ensures { result ≡ roomy sizes (of_lengths words waiting slots) }
{
    let n = lattice::cube_count(sizes);
    n <= words && n <= waiting && 7 * lattice::sample_count(sizes) <= slots
}

// Test 4 of a named cube.
#[tactic(auto, unfolding(paper::specs::Lattice::in_lattice))]
fn is_cube(sizes: Sizes, p: Place) -> bool
    requires { Sized sizes }
    ensures { result ≡ in_lattice sizes p }
{
    p.x < sizes.nx - 1 && p.y < sizes.ny - 1 && p.z < sizes.nz - 1
}

// Tests 4 and 5 of a named cube.
fn named_cube(rows: &Rows, p: Place) -> Result<usize, Refusal>
    ensures { ChosenBy rows.now.sizes rows.now.sides.now rows.now.cubes.now (Cube p) result }
{
    if !is_cube(rows.sizes, p) {
        return Err(Refusal::NoCube);
    }
    if !rows.is_crossed(p) {
        return Err(Refusal::NotCrossed);
    }
    Ok(lattice::cube_no(rows.sizes, p))
}

// Test 5 where no place is given: the lowest crossed cube, of all or of those off the bounds.
fn lowest_cube(rows: &Rows, off: bool) -> Result<usize, Refusal>
    ensures { ChosenBy rows.now.sizes rows.now.sides.now rows.now.cubes.now (unplaced off) result }
{
    match lowest::lowest_crossed(rows, off) {
        Some(k) => Ok(k),
        None => Err(Refusal::NotCrossed),
    }
}

// Tests 4 and 5, by the rows of sides and of cubes that may be visited.
fn choose(rows: &Rows, start: Start) -> Result<usize, Refusal>
    ensures { ChosenBy rows.now.sizes rows.now.sides.now rows.now.cubes.now start result }
{
    match start {
        Start::Unnamed => lowest_cube(rows, true),
        Start::Lowest => lowest_cube(rows, false),
        Start::Cube(p) => named_cube(rows, p),
    }
}

// Tests 1 to 3; words, waiting and slots are the lengths of the work slices. They stay three: a struct would be made in three places and
// taken apart here.
#[tactic(auto, unfolding(paper::specs::Build::shape_tests))]
pub fn shape(
    samples: &[i16],
    sizes: Sizes,
    words: usize,
    waiting: usize,
    slots: usize,
) -> Result<(), Refusal>
    ensures { Shaped (lattice sizes samples.now) (of_lengths words waiting slots) result }
{
    if !lattice::axes_pass(sizes) {
        return Err(Refusal::Axes);
    }
    if samples.len() != lattice::sample_count(sizes) {
        return Err(Refusal::SampleCount);
    }
    if !has_room(sizes, words, waiting, slots) {
        return Err(Refusal::WorkRoom);
    }
    Ok(())
}

// Tests 1 to 5; where the first three are passed, the rows of sides and of cubes that may be visited are made.
pub fn begin(
    samples: &[i16],
    sizes: Sizes,
    start: Start,
    words: usize,
    waiting: usize,
    slots: usize,
    rows: &mut [u64],
    may: &mut [u64],
) -> Result<usize, Refusal>
    requires { (4096 ≤ length rows.old) × (4096 ≤ length may.old) }
    ensures { let L = lattice sizes samples.now in
        Readied L start (of_lengths words waiting slots) rows.new may.new result }
{
    shape(samples, sizes, words, waiting, slots)?;
    sampling::sample_rows(&Volume { sizes, samples }, rows, may);
    sampling::free_rows(sizes, may);
    choose(
        &Rows {
            sizes,
            sides: rows,
            cubes: may,
        },
        start,
    )
}
