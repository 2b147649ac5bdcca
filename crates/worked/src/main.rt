// Document 01's "Sheets worked by hand", each run through the entry points, one line an answer, in the document's order, with t by both
// rules of document 02 (vi) behind document 01's. The stored run holds what the documents say of them. Where they name no sample's value,
// air is 3 and solid is -1. A write that fails ends the run with the system's error, which each function that writes hands on.
#![tactic(auto)]

ghost use Rattle.std.specs.Prelude.{◌≡◌, true, false, ◌≤◌};
ghost use Rattle.paper.specs.Lattice.{air};

use paper::{
    BuildError, Built, Contents, Got, Place, Refusal, Rule, SheetCounts, Sizes, Start, Verdict,
    Wrote,
};
use std::io;

// ── answers as text ──

fn say_built(rt: &impl Print, answer: Result<SheetCounts, BuildError>) -> io::Result<()> {
    let r = Built::from(answer);
    println!(rt;
        "build {}, {} vertices, {} triangles, {} cubes",
        r.number, r.vertices, r.triangles, r.cubes
    )
}

fn say_wrote(rt: &impl Print, answer: Result<usize, Refusal>) -> io::Result<()> {
    let r = Wrote::from(answer);
    print!(rt; "write {}, {} bytes", r.number, r.bytes)
}

fn say_got(rt: &impl Print, answer: Result<Contents, Refusal>) -> io::Result<()> {
    let r = Got::from(answer);
    print!(rt;
        "read {}, {} vertices, {} triangles, ",
        r.number, r.vertices, r.triangles
    )?;
    println!(rt; "{}x{}x{}", r.sizes.nx, r.sizes.ny, r.sizes.nz)
}

fn say_verdict(rt: &impl Print, answer: Result<(), Refusal>) -> io::Result<()> {
    let r = Verdict::from(answer);
    println!(rt; "check {} at {}", r.number, r.place)
}

// ── building and checking in room of its own ──

fn sized(nx: usize, ny: usize, nz: usize) -> Sizes {
    Sizes { nx, ny, nz }
}

// A build in work room for 260 samples, as many as the largest lattice here has.
fn build(
    samples: &[i16],
    sizes: Sizes,
    start: Start,
    vertices: &mut [i32],
    triangles: &mut [u32],
) -> Result<SheetCounts, BuildError> {
    let mut words = [0u16; 64];
    let mut waiting = [0u32; 64];
    let mut slots = [0u32; 1820];
    builder::build(
        samples,
        sizes,
        start,
        vertices,
        triangles,
        &mut words,
        &mut waiting,
        &mut slots,
    )
}

// The answer of a build in room for nv vertices and nt triangles.
fn answer_in(
    rt: &impl Print,
    samples: &[i16],
    sizes: Sizes,
    start: Start,
    nv: usize,
    nt: usize,
) -> io::Result<()>
    requires { (nv ≤ 100) × (nt ≤ 100) }
{
    let mut vertices = [0i32; 400];
    let mut triangles = [0u32; 300];
    let r = build(
        samples,
        sizes,
        start,
        &mut vertices[..4 * nv],
        &mut triangles[..3 * nt],
    );
    say_built(rt, r)
}

// The answer of a build in more room than any sheet here needs.
fn answer(rt: &impl Print, samples: &[i16], sizes: Sizes, start: Start) -> io::Result<()> {
    answer_in(rt, samples, sizes, start, 100, 100)
}

// The place of a start, and the answer from there.
fn answer_from(rt: &impl Print, samples: &[i16], sizes: Sizes, p: Place) -> io::Result<()> {
    print!(rt; "({},{},{}): ", p.x, p.y, p.z)?;
    answer(rt, samples, sizes, Start::Cube(p))
}

// ── the listing and its file ──

// "3, −1, −1, −1, −1, −1, −1, −1"
const LISTED: [i16; 8] = [3, -1, -1, -1, -1, -1, -1, -1];

// The listing's sheet.
fn build_listed(vertices: &mut [i32], triangles: &mut [u32]) -> Result<SheetCounts, BuildError> {
    build(&LISTED, sized(2, 2, 2), Start::Lowest, vertices, triangles)
}

// A file, made under a rule, against the listing's samples, in work room for just these.
fn check_listed(rule: Rule, bytes: &[u8]) -> Result<(), Refusal> {
    let mut words = [0u16; 1];
    let mut waiting = [0u32; 1];
    let mut slots = [0u32; 56];
    checker::check(
        rule,
        &LISTED,
        sized(2, 2, 2),
        Start::Lowest,
        bytes,
        &mut words,
        &mut waiting,
        &mut slots,
    )
}

// The `v` and `t` lines of three vertices and one triangle.
fn say_sheet(rt: &impl Print, vertices: &[i32; 12], triangles: &[u32; 3]) -> io::Result<()> {
    printer::vertices(rt, vertices, 3)?;
    printer::triangles(rt, triangles, 1)
}

// "its file has 84 bytes, trailer 60, 3, 12, 1, 2, 2, 2, 21331": four u32 and four u16
fn say_trailer(rt: &impl Print, bytes: &[u8; 84]) -> io::Result<()> {
    print!(rt; ", trailer")?;
    let (words, _) = bytes[60..76].as_chunks();
    for word in words {
        print!(rt; " {}", u32::from_le_bytes(*word))?;
    }
    let (halves, _) = bytes[76..].as_chunks();
    for half in halves {
        print!(rt; " {}", u16::from_le_bytes(*half))?;
    }
    println!(rt)
}

// What is read from its file.
fn read_back(rt: &impl Print, bytes: &[u8]) -> io::Result<()> {
    let mut vertices = [0i32; 12];
    let mut triangles = [0u32; 3];
    print!(rt; "its file: ")?;
    say_got(rt, file_reader::read(bytes, &mut vertices, &mut triangles))?;
    say_sheet(rt, &vertices, &triangles)
}

// Its file under each rule: 65,536 × 1 is divided by 4 with nothing left.
fn check_both(rt: &impl Print, bytes: &[u8]) -> io::Result<()> {
    print!(rt; "its file, rounded down: ")?;
    say_verdict(rt, check_listed(Rule::Down, bytes))?;
    print!(rt; "its file, rounded to nearest: ")?;
    say_verdict(rt, check_listed(Rule::Nearest, bytes))
}

// Its file, written and read back, and checked.
fn write_and_read(rt: &impl Print, vertices: &[i32], triangles: &[u32]) -> io::Result<()> {
    let mut bytes = [0u8; 84];
    let w = file_writer::write(sized(2, 2, 2), 3, 1, vertices, triangles, &mut bytes);
    print!(rt; "its file: ")?;
    say_wrote(rt, w)?;
    say_trailer(rt, &bytes)?;
    read_back(rt, &bytes)?;
    check_both(rt, &bytes)
}

// "the listing above"
fn listing(rt: &impl Print) -> io::Result<()> {
    let mut vertices = [0i32; 12];
    let mut triangles = [0u32; 3];
    print!(rt; "the listing, 2x2x2, only (0,0,0) air: ")?;
    say_built(rt, build_listed(&mut vertices, &mut triangles))?;
    say_sheet(rt, &vertices, &triangles)?;
    write_and_read(rt, &vertices, &triangles)
}

// ── sheets ──

// "2×2×2, only RTN air"
fn rtn_air(rt: &impl Print) -> io::Result<()> {
    let samples: [i16; 8] = [-1, -1, -1, 3, -1, -1, -1, -1];
    print!(rt; "2x2x2, only (1,1,0) air: ")?;
    answer(rt, &samples, sized(2, 2, 2), Start::Lowest)
}

fn middle_from(rt: &impl Print, samples: &[i16], p: Place) -> io::Result<()> {
    print!(rt; "3x3x3, only (1,1,1) air, start ")?;
    answer_from(rt, samples, sized(3, 3, 3), p)
}

// "from any of the 8 starts"
fn middle_starts(rt: &impl Print, samples: &[i16]) -> io::Result<()> {
    for k in 0..8 {
        middle_from(
            rt,
            samples,
            Place {
                x: k % 2,
                y: k / 2 % 2,
                z: k / 4,
            },
        )?;
    }
    Ok(())
}

fn middle_in_room(rt: &impl Print, samples: &[i16], nv: usize, nt: usize) -> io::Result<()>
    requires { (nv ≤ 100) × (nt ≤ 100) }
{
    print!(rt; "3x3x3, only (1,1,1) air, room {nv} and {nt}: ")?;
    answer_in(rt, samples, sized(3, 3, 3), Start::Lowest, nv, nt)
}

// "3×3×3, only (1,1,1) air"
fn middle_air(rt: &impl Print) -> io::Result<()> {
    let mut samples = [-1i16; 27];
    samples[13] = 3;
    middle_starts(rt, &samples)?;
    middle_in_room(rt, &samples, 13, 24)?;
    middle_in_room(rt, &samples, 14, 23)
}

fn ends_from(rt: &impl Print, x: usize) -> io::Result<()> {
    let mut samples = [-1i16; 20];
    samples[0] = 3;
    samples[4] = 3;
    print!(rt; "5x2x2, only (0,0,0) and (4,0,0) air, start ")?;
    answer_from(rt, &samples, sized(5, 2, 2), Place { x, y: 0, z: 0 })
}

// "5×2×2, only (0,0,0) and (4,0,0) air"
fn ends_air(rt: &impl Print) -> io::Result<()> {
    for x in [0, 3, 1, 4] {
        ends_from(rt, x)?;
    }
    Ok(())
}

// "all samples 0"
fn all_zero(rt: &impl Print) -> io::Result<()> {
    let samples = [0i16; 8];
    print!(rt; "2x2x2, all samples 0: ")?;
    answer(rt, &samples, sized(2, 2, 2), Start::Lowest)
}

// ── t ──

// "t for p, q", by document 01's rule
fn t_for(rt: &impl Print, p: i16, q: i16) -> io::Result<()>
    requires { (air p ≡ false) × (air q ≡ true) }
{
    let t = crossing::crossing_of(Rule::Down, p, q);
    println!(rt; "t for {p} and {q}: {t}")
}

// Calls and no table: that a pair is a solid and an air value is proved at its call.
#[tactic(auto, unfolding(paper::specs::Lattice::air))]
fn crossings(rt: &impl Print) -> io::Result<()> {
    t_for(rt, 0, 1)?;
    t_for(rt, -1, 32767)?;
    t_for(rt, -2, 1)?;
    t_for(rt, -32768, 32767)?;
    t_for(rt, -32768, 1)
}

// The same by both rules, document 02 (vi).
fn t_both(rt: &impl Print, p: i16, q: i16) -> io::Result<()>
    requires { (air p ≡ false) × (air q ≡ true) }
{
    let down = crossing::crossing_of(Rule::Down, p, q);
    let nearest = crossing::crossing_of(Rule::Nearest, p, q);
    println!(rt; "t for {p} and {q}: down {down}, nearest {nearest}")
}

#[tactic(auto, unfolding(paper::specs::Lattice::air))]
fn both_rules(rt: &impl Print) -> io::Result<()> {
    t_both(rt, 0, 1)?;
    t_both(rt, -2, 1)?;
    t_both(rt, -3, 2)?;
    t_both(rt, -1, 5)?;
    t_both(rt, -1, 2)?;
    t_both(rt, -32767, 1)?;
    t_both(rt, -1, 32767)
}

// ── axes ──

// A lattice of these sizes, which has n samples.
fn axes(rt: &impl Print, sizes: Sizes, n: usize) -> io::Result<()>
    requires { n ≤ 260 }
{
    let mut samples = [-1i16; 260];
    samples[0] = 3;
    print!(rt;
        "{}x{}x{}, only (0,0,0) air: ",
        sizes.nx, sizes.ny, sizes.nz
    )?;
    answer(rt, &samples[..n], sizes, Start::Lowest)
}

// Each axis in turn has n samples, the others 2.
fn axis_of(rt: &impl Print, n: usize) -> io::Result<()>
    requires { n ≤ 65 }
{
    axes(rt, sized(n, 2, 2), 4 * n)?;
    axes(rt, sized(2, n, 2), 4 * n)?;
    axes(rt, sized(2, 2, n), 4 * n)
}

// "Axes of 1 and 65 are refused, 2 and 64 not."
fn axis_limits(rt: &impl Print) -> io::Result<()> {
    axis_of(rt, 1)?;
    axis_of(rt, 65)?;
    axes(rt, sized(2, 2, 2), 8)?;
    axis_of(rt, 64)
}

// ── files ──

// "A 23-byte file is 11.": the trailer of the listing's file, without its first byte.
fn short_file(rt: &impl Print) -> io::Result<()> {
    let bytes =
        b"\x00\x00\x00\x03\x00\x00\x00\x0c\x00\x00\x00\x01\x00\x00\x00\x02\x00\x02\x00\x02\x00SS";
    let mut vertices = [0i32; 12];
    let mut triangles = [0u32; 3];
    print!(rt; "a file of 23 bytes: ")?;
    say_got(rt, file_reader::read(bytes, &mut vertices, &mut triangles))?;
    print!(rt; "a file of 23 bytes: ")?;
    say_verdict(rt, check_listed(Rule::Nearest, bytes))
}

// "The listing's file", but with nt of these triangles, in bytes for just that file.
fn altered(
    rt: &impl Print,
    with: &str,
    vertices: &[i32],
    triangles: &[u32],
    nt: usize,
    bytes: &mut [u8],
) -> io::Result<()> {
    print!(rt; "the listing's file with {with}: ")?;
    say_wrote(
        rt,
        file_writer::write(sized(2, 2, 2), 3, nt, vertices, triangles, bytes),
    )?;
    print!(rt; ", ")?;
    say_verdict(rt, check_listed(Rule::Nearest, bytes))
}

// "with triangle 2 0 1 .. with 1 0 2 .. with it twice .. with none"
fn altered_files(rt: &impl Print) -> io::Result<()> {
    let mut vertices = [0i32; 12];
    let mut triangles = [0u32; 3];
    let _built = build_listed(&mut vertices, &mut triangles);
    altered(
        rt,
        "triangle 2 0 1",
        &vertices,
        &[2, 0, 1],
        1,
        &mut [0u8; 84],
    )?;
    altered(
        rt,
        "triangle 1 0 2",
        &vertices,
        &[1, 0, 2],
        1,
        &mut [0u8; 84],
    )?;
    altered(
        rt,
        "triangle 2 0 1 twice",
        &vertices,
        &[2, 0, 1, 2, 0, 1],
        2,
        &mut [0u8; 96],
    )?;
    altered(rt, "no triangle", &vertices, &[], 0, &mut [0u8; 72])
}

fn main(rt: HostRuntime) -> io::Result<()> {
    listing(&rt)?;
    rtn_air(&rt)?;
    middle_air(&rt)?;
    ends_air(&rt)?;
    all_zero(&rt)?;
    crossings(&rt)?;
    both_rules(&rt)?;
    axis_limits(&rt)?;
    short_file(&rt)?;
    altered_files(&rt)
}
