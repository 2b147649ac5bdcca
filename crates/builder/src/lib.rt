// Building one sheet, each t to the nearest unit.
#![tactic(auto)]

ghost use Rattle.std.specs.Prelude.{◌≡◌, ◌*◌, ◌≤◌, length};
ghost use Rattle.paper.specs.Lattice.{lattice};
ghost use Rattle.paper.specs.Room.{work};
ghost use Rattle.paper.specs.Build.{lent, Builds};
ghost use Rattle.paper.specs.Refused.{built_told};
ghost use Rattle.paper.specs.Within.{Full};

use paper::{BuildError, SheetCounts, Sizes, Start};
use rows::{Rows, Surface};

// Samples with their rows of sides and of cubes that may be visited.
fn surface_of<'a>(
    samples: &'a [i16],
    sizes: Sizes,
    sides: &'a [u64],
    cubes: &'a [u64],
) -> Surface<'a>
    requires full { Full (lattice sizes samples.now) }
    requires long { (sizes.ny * sizes.nz ≤ length sides.now) × (sizes.ny * sizes.nz ≤ length cubes.now) }
    ensures { (result.samples.now ≡ samples.now) × (result.rows.sizes ≡ sizes)
        × (result.rows.sides.now ≡ sides.now) × (result.rows.cubes.now ≡ cubes.now) }
{
    let rows = Rows {
        sizes,
        sides,
        cubes,
    };
    Surface { samples, rows }
}

// The sheet of a lattice from a start cube, or the first test that fails.
pub fn build(
    samples: &[i16],
    sizes: Sizes,
    start: Start,
    vertices: &mut [i32],
    triangles: &mut [u32],
    words: &mut [u16],
    waiting: &mut [u32],
    slots: &mut [u32],
) -> Result<SheetCounts, BuildError>
    ensures { let work_before = work words.old waiting.old slots.old in
        let work_after = work words.new waiting.new slots.new in
        let before = lent vertices.old triangles.old work_before in
        let after = lent vertices.new triangles.new work_after in
        Builds (lattice sizes samples.now) start before (built_told result) after }
{
    let mut sides = [0u64; 4096];
    let mut may = [0u64; 4096];
    let begun = ready::begin(
        samples,
        sizes,
        start,
        words.len(),
        waiting.len(),
        slots.len(),
        &mut sides,
        &mut may,
    );
    let k = match begun {
        Ok(k) => k,
        Err(e) => return Err(BuildError::Refused(e)),
    };
    let surface = surface_of(samples, sizes, &sides, &may);
    build_past::build_from(&surface, k, vertices, triangles, words, waiting, slots)
}
