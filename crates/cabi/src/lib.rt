// The library for programs in other languages: the entry points under plain names, a start as a number and a place, a rule as a number,
// a level as a flag and two greys.
#![tactic(auto)]

ghost use Rattle.std.specs.Prelude.{◌≡◌};
ghost use Rattle.paper.specs.Lattice.{lattice};
ghost use Rattle.paper.specs.Room.{work};
ghost use Rattle.paper.specs.Build.{lent, Builds};
ghost use Rattle.paper.specs.File.{Writes, Reads};
ghost use Rattle.paper.specs.Check.{Checks};
ghost use Rattle.stl.specs.Stl.{StlWrites, StlReads};
ghost use Rattle.greys.specs.Convert.{Converts};
ghost use Rattle.tray.specs.Pieces.{lent as list_lent, Finds};
ghost use Rattle.cabi.specs.Named.{start_if, rule_if, level_if};

use greys::Level;
use paper::{Built, Got, Place, Rule, Sizes, Start, Verdict, Wrote};
use stl::Loaded;
use tray::Found;

// The start that a number and a place name: 0 none, 1 the lowest crossed cube, any other number the cube at the place. A function and no
// `From`, as the two below: neither type of the conversion is this crate's.
#[tactic(auto, unfolding(crate::specs::Named::start_if))]
fn start_if(from: u32, start: Place) -> Start
    ensures { result ≡ start_if from start }
{
    match from {
        0 => Start::Unnamed,
        1 => Start::Lowest,
        _ => Start::Cube(start),
    }
}

#[unsafe(no_mangle)]
pub extern "C" fn malxuqeed_build(
    sizes: Sizes,
    from: u32,
    start: Place,
    samples: &[i16],
    vertices: &mut [i32],
    triangles: &mut [u32],
    words: &mut [u16],
    waiting: &mut [u32],
    slots: &mut [u32],
) -> Built
    ensures { let before = lent vertices.old triangles.old
        (work words.old waiting.old slots.old) in
        let after = lent vertices.new triangles.new
        (work words.new waiting.new slots.new) in
        Builds (lattice sizes samples.now) (start_if from start) before result after }
{
    let at = start_if(from, start);
    Built::from(builder::build(
        samples, sizes, at, vertices, triangles, words, waiting, slots,
    ))
}

#[unsafe(no_mangle)]
pub extern "C" fn malxuqeed_write(
    sizes: Sizes,
    nv: usize,
    nt: usize,
    vertices: &[i32],
    triangles: &[u32],
    bytes: &mut [u8],
) -> Wrote
    ensures { Writes sizes nv nt vertices.now triangles.now bytes.old result bytes.new }
{
    Wrote::from(file_writer::write(sizes, nv, nt, vertices, triangles, bytes))
}

#[unsafe(no_mangle)]
pub extern "C" fn malxuqeed_read(bytes: &[u8], vertices: &mut [i32], triangles: &mut [u32]) -> Got
    ensures { Reads bytes.now vertices.old triangles.old result vertices.new triangles.new }
{
    Got::from(file_reader::read(bytes, vertices, triangles))
}

// The rule that a number names: 0 down, any other number nearest.
#[tactic(auto, unfolding(crate::specs::Named::rule_if))]
fn rule_if(rule: u32) -> Rule
    ensures { result ≡ rule_if rule }
{
    match rule {
        0 => Rule::Down,
        _ => Rule::Nearest,
    }
}

#[unsafe(no_mangle)]
pub extern "C" fn malxuqeed_check(
    sizes: Sizes,
    from: u32,
    start: Place,
    rule: u32,
    samples: &[i16],
    bytes: &[u8],
    words: &mut [u16],
    waiting: &mut [u32],
    slots: &mut [u32],
) -> Verdict
    ensures { let before = work words.old waiting.old slots.old in
        let after = work words.new waiting.new slots.new in
        Checks (rule_if rule) (lattice sizes samples.now) (start_if from start) bytes.now before result after }
{
    let at = start_if(from, start);
    let by = rule_if(rule);
    Verdict::from(checker::check(by, samples, sizes, at, bytes, words, waiting, slots))
}

#[unsafe(no_mangle)]
pub extern "C" fn malxuqeed_stl_write(
    nv: usize,
    nt: usize,
    vertices: &[i32],
    triangles: &[u32],
    bytes: &mut [u8],
) -> Wrote
    ensures { StlWrites nv nt vertices.now triangles.now bytes.old result bytes.new }
{
    Wrote::from(stl_writer::write(nv, nt, vertices, triangles, bytes))
}

#[unsafe(no_mangle)]
pub extern "C" fn malxuqeed_stl_read(bytes: &[u8], corners: &mut [i32]) -> Loaded
    ensures { StlReads bytes.now corners.old result corners.new }
{
    Loaded::from(stl_reader::read(bytes, corners))
}

// The level that a flag and two greys give.
#[tactic(auto, unfolding(crate::specs::Named::level_if))]
fn level_if(halfway: bool, grey: f32, material: f32) -> Level
    ensures { result ≡ level_if halfway grey material }
{
    if halfway {
        Level::Halfway(grey, material)
    } else {
        Level::Fixed(grey)
    }
}

#[unsafe(no_mangle)]
pub extern "C" fn malxuqeed_convert(
    halfway: bool,
    grey: f32,
    material: f32,
    scale: u32,
    voxels: &[f32],
    samples: &mut [i16],
) -> Verdict
    ensures { Converts (level_if halfway grey material) scale voxels.now samples.old result samples.new }
{
    let level = level_if(halfway, grey, material);
    Verdict::from(floats::convert(voxels, level, scale, samples))
}

#[unsafe(no_mangle)]
pub extern "C" fn malxuqeed_pieces(
    sizes: Sizes,
    samples: &[i16],
    list: &mut [u32],
    words: &mut [u16],
    waiting: &mut [u32],
    slots: &mut [u32],
) -> Found
    ensures { let before = list_lent list.old (work words.old waiting.old slots.old) in
        let after = list_lent list.new (work words.new waiting.new slots.new) in
        Finds (lattice sizes samples.now) before result after }
{
    Found::from(pieces::find(samples, sizes, list, words, waiting, slots))
}
