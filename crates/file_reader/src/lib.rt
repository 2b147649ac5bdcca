// Reads a sheet file.
#![tactic(auto)]

ghost use Rattle.std.specs.Prelude.{◌≡◌, ◌++◌, ◌+◌};
ghost use Rattle.paper.specs.Tests.{judge};
ghost use Rattle.paper.specs.Refused.{verdict_told, got_told};
ghost use Rattle.paper.specs.Room.{room_tests};
ghost use Rattle.paper.specs.File.{file_v, file_t, file_tests, Reads};

use layout::SheetFile;
use paper::{Contents, Refusal};

// "Reading: 11, 12, 1, 14, 15, 6, 7."; rv and rt are the rooms.
#[tactic(auto, unfolding(paper::specs::Room::room_tests))]
fn readable(bytes: &[u8], rv: usize, rt: usize) -> Result<(), Refusal>
    ensures { let bs = bytes.now in
        verdict_told result ≡ judge (file_tests bs ++ room_tests (file_v bs) (file_t bs) rv rt) }
{
    layout::tested(bytes)?;
    if rv < layout::vertex_count(bytes) {
        return Err(Refusal::VertexRoom);
    }
    if rt < layout::triangle_count(bytes) {
        return Err(Refusal::TriangleRoom);
    }
    Ok(())
}

// The file's records and triangles, at the front of the lent slices.
pub fn read(bytes: &[u8], vertices: &mut [i32], triangles: &mut [u32]) -> Result<Contents, Refusal>
    ensures { Reads bytes.now vertices.old triangles.old (got_told result) vertices.new triangles.new }
{
    readable(bytes, vertices.len() / 4, triangles.len() / 3)?;
    let file = SheetFile::new(bytes);
    codec::get_all(bytes, 0, &mut vertices[..4 * file.vertices]);
    codec::get_all(
        bytes,
        16 * file.vertices,
        &mut triangles[..3 * file.triangles],
    );
    Ok(Contents {
        vertices: file.vertices,
        triangles: file.triangles,
        sizes: layout::sizes_of(bytes),
    })
}
