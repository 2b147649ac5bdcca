// A build past tests 1 to 5, from a crossed cube.
#![tactic(auto)]

ghost use Rattle.std.specs.Prelude.{◌<◌, T};
ghost use Rattle.paper.specs.Lattice.{lattice, cubes, crossed};
ghost use Rattle.paper.specs.Room.{work, lengths};
ghost use Rattle.paper.specs.Build.{lent};
ghost use Rattle.paper.specs.Refused.{built_told};
ghost use Rattle.paper.specs.Within.{Roomy};
ghost use Rattle.rows.specs.Rows.{HasBoth};
ghost use Rattle.build_output.specs.Output.{BuildsFrom};

use paper::{BuildError, SheetCounts};
use rows::{Rows, Surface};

// The sheet from cube k, a crossed one, of samples with their rows of sides and of cubes that may be visited, past tests 1 to 5.
pub fn build_from(
    surface: &Surface,
    k: usize,
    vertices: &mut [i32],
    triangles: &mut [u32],
    words: &mut [u16],
    waiting: &mut [u32],
    slots: &mut [u32],
) -> Result<SheetCounts, BuildError>
    requires { let r = surface.now.rows in
        let L = lattice r.sizes surface.now.samples.now in
        HasBoth L r.sides.now r.cubes.now × (k < cubes r.sizes) × T (crossed L k)
        × Roomy r.sizes (lengths (work words.old waiting.old slots.old)) }
    ensures { let work_before = work words.old waiting.old slots.old in
        let work_after = work words.new waiting.new slots.new in
        let before = lent vertices.old triangles.old work_before in
        let after = lent vertices.new triangles.new work_after in
        BuildsFrom (lattice surface.now.rows.sizes surface.now.samples.now) k before (built_told result) after }
{
    let sizes = surface.rows.sizes;
    let mut vis = [0u64; 4096];
    let cubes = spread::visit(&surface.rows, k, &mut vis, waiting);
    let rows = Rows {
        sizes,
        sides: surface.rows.sides,
        cubes: &vis,
    };
    let counts = tally::counts_of(&rows);
    let c = SheetCounts {
        vertices: counts.vertices,
        triangles: counts.triangles,
        cubes,
    };
    let seen = Surface {
        samples: surface.samples,
        rows,
    };
    let built = build_output::with_room(c, vertices.len(), triangles.len());
    build_output::put_sheet(built, &seen, slots, vertices, triangles);
    clear::clear_work(sizes, words, waiting, slots);
    built
}
