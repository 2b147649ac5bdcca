// Writes a sheet file.
#![tactic(auto)]

ghost use Rattle.std.specs.Prelude.{◌≡◌, ◌&&◌, ◌+◌, ◌*◌, ◌<◌, ◌≤◌, leb, length, unwrap_or, IfSome};
ghost use Rattle.std.proofs.lemmas.List.Edits.{sets};
ghost use Rattle.lists.specs.Lists.{over};
ghost use Rattle.paper.specs.Within.{Sized};
ghost use Rattle.paper.specs.Refused.{verdict_told, wrote_told};
ghost use Rattle.paper.specs.File.{content_of, file_bytes, bad_triangle, first_bad, limits, write_verdict, Writes};
ghost use Rattle.sheetfile.specs.Taken.{count_bytes, size_bytes, Writable};

use paper::{Refusal, Sizes};

// 15: "a triangle index is not below V". Of a slice's numbers, as layout's is of a file's: with a closure for the numbers, one function for
// both would be no plainer.
#[tactic(auto, using(layout::proofs::Trailer::bad_is))]
fn is_bad(nv: usize, triangles: &[u32], i: usize) -> bool
    requires { 3 * i + 3 ≤ length triangles.now }
    ensures { result ≡ bad_triangle nv triangles.now i }
{
    let at = 3 * i;
    layout::any_from(nv, triangles[at], triangles[at + 1], triangles[at + 2])
}

// The first triangle of nt with an index that is not below nv.
pub fn first_bad(nv: usize, nt: usize, triangles: &[u32]) -> Option<usize>
    requires { 3 * nt ≤ length triangles.now }
    ensures first { unwrap_or result nt ≡ first_bad nv nt triangles.now }
    ensures within { IfSome result (λ i. i < nt) }
{
    (0..nt).find(|i| is_bad(nv, triangles, *i))
}

// 9: "a count given to the writer exceeds its slice's room, or V's or T's limit"; rv and rt are the rooms.
pub fn counts_fit(nv: usize, nt: usize, rv: usize, rt: usize) -> bool
    ensures { result ≡ (leb nv rv && leb nt rt && limits nv nt) }
{
    nv <= rv && nt <= rt && layout::within_limits(nv, nt)
}

// "Writing: 1, 9, 15, 8."
#[tactic(auto, unfolding(paper::specs::File::write_verdict))]
fn writable(
    sizes: Sizes,
    nv: usize,
    nt: usize,
    vertices: &[i32],
    triangles: &[u32],
    room: usize,
) -> Result<(), Refusal>
    ensures { verdict_told result ≡ write_verdict sizes nv nt vertices.now triangles.now room }
{
    if !lattice::axes_pass(sizes) {
        return Err(Refusal::Axes);
    }
    if !counts_fit(nv, nt, vertices.len() / 4, triangles.len() / 3) {
        return Err(Refusal::CountLimit);
    }
    if let Some(i) = first_bad(nv, nt, triangles) {
        return Err(Refusal::Index(i));
    }
    if room < layout::file_length(nv, nt) {
        return Err(Refusal::ByteRoom);
    }
    Ok(())
}

// "distance to the vertices (16V + 12T), V, distance to the triangles (12T), T, as four u32"
#[tactic(auto, unfolding(sheetfile::specs::Taken::count_bytes))]
fn put_counts(bytes: &mut [u8], at: usize, nv: usize, nt: usize)
    requires { (at + 16 ≤ length bytes.old) × (nv ≤ 2000000) × (nt ≤ 4000000) }
    ensures { bytes.new ≡ sets bytes.old at (count_bytes nv nt) }
{
    let front = layout::trailer_at(nv, nt);
    codec::put_all(
        bytes,
        at,
        &[front as u32, nv as u32, (12 * nt) as u32, nt as u32],
    );
}

// "nx, ny, nz and the mark 21,331 as four u16"
#[tactic(auto, unfolding(sheetfile::specs::Taken::size_bytes))]
fn put_sizes(bytes: &mut [u8], at: usize, z: Sizes)
    requires { (at + 8 ≤ length bytes.old) × Sized z }
    ensures { bytes.new ≡ sets bytes.old at (size_bytes z) }
{
    codec::put_all(bytes, at, &[z.nx as u16, z.ny as u16, z.nz as u16, 21331]);
}

// The whole file, from the first byte on.
fn put_file(
    sizes: Sizes,
    nv: usize,
    nt: usize,
    vertices: &[i32],
    triangles: &[u32],
    bytes: &mut [u8],
)
    requires { Sized sizes × Writable nv nt (length vertices.now) (length triangles.now)
        × (16 * nv + 12 * nt + 24 ≤ length bytes.old) }
    ensures { let file = file_bytes (content_of sizes nv nt vertices.now triangles.now) in
        bytes.new ≡ over file bytes.old }
{
    let front = layout::trailer_at(nv, nt);
    codec::put_all(bytes, 0, &vertices[..4 * nv]);
    codec::put_all(bytes, 16 * nv, &triangles[..3 * nt]);
    put_counts(bytes, front, nv, nt);
    put_sizes(bytes, front + 16, sizes);
}

// The sheet as a file, at the front of the lent bytes: how many of them it takes.
pub fn write(
    sizes: Sizes,
    nv: usize,
    nt: usize,
    vertices: &[i32],
    triangles: &[u32],
    bytes: &mut [u8],
) -> Result<usize, Refusal>
    ensures { Writes sizes nv nt vertices.now triangles.now bytes.old (wrote_told result) bytes.new }
{
    writable(sizes, nv, nt, vertices, triangles, bytes.len())?;
    put_file(sizes, nv, nt, vertices, triangles, bytes);
    Ok(layout::file_length(nv, nt))
}
