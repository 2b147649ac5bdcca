// What a build writes, each t to the nearest unit, where there is room.
#![tactic(auto)]

ghost use Rattle.std.specs.Prelude.{◌≡◌, ◌/◌, ◌≤◌, length};
ghost use Rattle.lists.specs.Lists.{Beyond};
ghost use Rattle.paper.specs.Lattice.{lattice};
ghost use Rattle.paper.specs.Tests.{judge};
ghost use Rattle.paper.specs.Room.{needed_slots, room_tests};
ghost use Rattle.paper.specs.Refused.{built_with, built_told};
ghost use Rattle.spread.specs.Flooded.{Standing};
ghost use Rattle.build_output.specs.Output.{output, Fits, Puts};

use paper::{BuildError, Rule, SheetCounts};
use rows::Surface;
use tiles::Tiling;

// Tests 6 and 7, for a sheet's counts and the lengths of the lent output: the counts, where there is room for as many.
#[tactic(auto, unfolding(paper::specs::Room::room_tests))]
pub fn with_room(
    c: SheetCounts,
    vertices: usize,
    triangles: usize,
) -> Result<SheetCounts, BuildError>
    ensures { let n = (judge (room_tests c.vertices c.triangles (vertices / 4) (triangles / 3))).number in
        built_told result ≡ built_with n c }
{
    if vertices / 4 < c.vertices {
        return Err(BuildError::VertexRoom(c));
    }
    if triangles / 3 < c.triangles {
        return Err(BuildError::TriangleRoom(c));
    }
    Ok(c)
}

// The vertices and triangles of the visited cubes are written, where tests 6 and 7 have passed.
pub fn put_sheet(
    built: Result<SheetCounts, BuildError>,
    surface: &Surface,
    slots: &mut [u32],
    vertices: &mut [i32],
    triangles: &mut [u32],
)
    requires standing { let r = surface.now.rows in
        Standing (lattice r.sizes surface.now.samples.now) r.sides.now r.cubes.now }
    requires fits { let r = surface.now.rows in
        let room = Fits (lattice r.sizes surface.now.samples.now) r.sides.now r.cubes.now (length vertices.old) (length triangles.old) in
        ((built_told built).number ≡ 0 → room) }
    requires slots_in_bounds { needed_slots surface.now.rows.sizes ≤ length slots.old }
    ensures { let r = surface.now.rows in
        let before = output vertices.old triangles.old in
        let after = output vertices.new triangles.new in
        Puts (lattice r.sizes surface.now.samples.now) r.sides.now r.cubes.now (built_told built).number before after
        × Beyond (needed_slots r.sizes) slots.old slots.new }
{
    if let Err(_) = built {
        return;
    }
    let mut table = [0u16; 9216];
    let mut counts = [0usize; 256];
    patterns::pattern_table(surface.rows.sizes, &mut table, &mut counts);
    build_vertices::put_vertices(Rule::Nearest, surface, slots, vertices);
    let tiling = Tiling {
        table: &table,
        counts: &counts,
        slots,
        rows: surface.rows,
    };
    tiles::put_triangles(&tiling, triangles);
}
