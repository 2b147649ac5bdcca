// A listing as text. What is printed is tested by the stored runs of the programs above, and not proved: no contract can
// say what a program writes. Proved is that each line's numbers stand in the room that was lent, and all that `lister` says.
// Each function that writes or reads answers with the system's error where a write or a read fails. Nothing is kept between calls, so such
// an error leaves what was written before it, and nothing else.
#![tactic(auto)]

ghost use Rattle.std.specs.Prelude.{◌*◌, ◌≤◌, length, IfOk};

use paper::{BuildError, Refusal};
use std::io;
use std::io::Read;

// A line for each vertex: its edge number and its place.
pub fn vertices(rt: &impl Print, v: &[i32], n: usize) -> io::Result<()>
    requires { 4 * n ≤ length v.now }
{
    let (records, _) = v.as_chunks::<4>();
    for [edge, x, y, z] in &records[..n] {
        println!(rt; "v {edge} {x} {y} {z}")?;
    }
    Ok(())
}

// A line for each triangle: its three vertices.
pub fn triangles(rt: &impl Print, t: &[u32], n: usize) -> io::Result<()>
    requires { 3 * n ≤ length t.now }
{
    let (triples, _) = t.as_chunks::<3>();
    for [a, b, c] in &triples[..n] {
        println!(rt; "t {a} {b} {c}")?;
    }
    Ok(())
}

// Why a build is refused.
fn refusal_of(e: BuildError) -> Refusal {
    match e {
        BuildError::Refused(refusal) => refusal,
        BuildError::VertexRoom(_) => Refusal::VertexRoom,
        BuildError::TriangleRoom(_) => Refusal::TriangleRoom,
    }
}

// The listing of bytes, printed. "Its own room is .. 1,000 vertices and 2,000 triangles."
pub fn listing(rt: &impl Print, input: &[u8]) -> io::Result<()> {
    let mut vs = [0i32; 4000];
    let mut ts = [0u32; 6000];
    match lister::list(input, &mut vs, &mut ts) {
        Ok(counts) => {
            println!(rt; "{} {} {}", counts.vertices, counts.triangles, counts.cubes)?;
            vertices(rt, &vs, counts.vertices)?;
            triangles(rt, &ts, counts.triangles)
        }
        Err(e) => println!(rt; "{}", refusal_of(e)),
    }
}

// Standard input, up to its end or to as many bytes as there is room for: how many bytes it put at the front of the room. Where a read
// fails, the front of the room holds what was read before.
pub fn read_input(rt: &impl Input, room: &mut [u8]) -> io::Result<usize>
    ensures { IfOk result (λ n. n ≤ length room.new) }
{
    let mut input = rt.reader();
    let mut done = 0;
    // A while: each read takes as many bytes as it finds.
    while done < room.len() {
        let n = input.read(&mut room[done..])?;
        if n == 0 {
            break;
        }
        done += n;
    }
    Ok(done)
}

// Lists standard input. A listing has at most 1,030 bytes, so 4,096 show each count that is wrong.
pub fn run(rt: &(impl Input + Print)) -> io::Result<()> {
    let mut input = [0u8; 4096];
    let n = read_input(rt, &mut input)?;
    listing(rt, &input[..n])
}
