// The static library for programs in other languages: each entry point of `cabi` under the name and by the calling convention of C, with
// its contract word for word. C's declarations of these are include/malxuqeed.h.
#![tactic(auto)]

ghost use Rattle.paper.specs.Lattice.{lattice};
ghost use Rattle.paper.specs.Room.{work};
ghost use Rattle.paper.specs.Build.{lent, Builds};
ghost use Rattle.paper.specs.File.{Writes, Reads};
ghost use Rattle.paper.specs.Check.{Checks};
ghost use Rattle.stl.specs.Stl.{StlWrites, StlReads};
ghost use Rattle.greys.specs.Convert.{Converts};
ghost use Rattle.tray.specs.Pieces.{lent as list_lent, Finds};
ghost use Rattle.cabi.specs.Named.{start_if, rule_if, level_if};

use paper::{Built, Got, Place, Sizes, Verdict, Wrote};
use stl::Loaded;
use tray::Found;

#[unsafe(no_mangle)]
pub extern "C" fn malxuqeed_build(
    sizes: Sizes,
    from: u32,
    start: Place,
    samples: &[i16],
    vertices: &mut [i32],
    triangles: &mut [u32],
    words: &mut [u16],
    waiting: &mut [u32],
    slots: &mut [u32],
) -> Built
    ensures { let before = lent vertices.old triangles.old
        (work words.old waiting.old slots.old) in
        let after = lent vertices.new triangles.new
        (work words.new waiting.new slots.new) in
        Builds (lattice sizes samples.now) (start_if from start) before result after }
{
    cabi::malxuqeed_build(
        sizes, from, start, samples, vertices, triangles, words, waiting, slots,
    )
}

#[unsafe(no_mangle)]
pub extern "C" fn malxuqeed_write(
    sizes: Sizes,
    nv: usize,
    nt: usize,
    vertices: &[i32],
    triangles: &[u32],
    bytes: &mut [u8],
) -> Wrote
    ensures { Writes sizes nv nt vertices.now triangles.now bytes.old result bytes.new }
{
    cabi::malxuqeed_write(sizes, nv, nt, vertices, triangles, bytes)
}

#[unsafe(no_mangle)]
pub extern "C" fn malxuqeed_read(bytes: &[u8], vertices: &mut [i32], triangles: &mut [u32]) -> Got
    ensures { Reads bytes.now vertices.old triangles.old result vertices.new triangles.new }
{
    cabi::malxuqeed_read(bytes, vertices, triangles)
}

#[unsafe(no_mangle)]
pub extern "C" fn malxuqeed_check(
    sizes: Sizes,
    from: u32,
    start: Place,
    rule: u32,
    samples: &[i16],
    bytes: &[u8],
    words: &mut [u16],
    waiting: &mut [u32],
    slots: &mut [u32],
) -> Verdict
    ensures { let before = work words.old waiting.old slots.old in
        let after = work words.new waiting.new slots.new in
        Checks (rule_if rule) (lattice sizes samples.now) (start_if from start) bytes.now before result after }
{
    cabi::malxuqeed_check(
        sizes, from, start, rule, samples, bytes, words, waiting, slots,
    )
}

#[unsafe(no_mangle)]
pub extern "C" fn malxuqeed_stl_write(
    nv: usize,
    nt: usize,
    vertices: &[i32],
    triangles: &[u32],
    bytes: &mut [u8],
) -> Wrote
    ensures { StlWrites nv nt vertices.now triangles.now bytes.old result bytes.new }
{
    cabi::malxuqeed_stl_write(nv, nt, vertices, triangles, bytes)
}

#[unsafe(no_mangle)]
pub extern "C" fn malxuqeed_stl_read(bytes: &[u8], corners: &mut [i32]) -> Loaded
    ensures { StlReads bytes.now corners.old result corners.new }
{
    cabi::malxuqeed_stl_read(bytes, corners)
}

#[unsafe(no_mangle)]
pub extern "C" fn malxuqeed_convert(
    halfway: bool,
    grey: f32,
    material: f32,
    scale: u32,
    voxels: &[f32],
    samples: &mut [i16],
) -> Verdict
    ensures { Converts (level_if halfway grey material) scale voxels.now samples.old result samples.new }
{
    cabi::malxuqeed_convert(halfway, grey, material, scale, voxels, samples)
}

#[unsafe(no_mangle)]
pub extern "C" fn malxuqeed_pieces(
    sizes: Sizes,
    samples: &[i16],
    list: &mut [u32],
    words: &mut [u16],
    waiting: &mut [u32],
    slots: &mut [u32],
) -> Found
    ensures { let before = list_lent list.old (work words.old waiting.old slots.old) in
        let after = list_lent list.new (work words.new waiting.new slots.new) in
        Finds (lattice sizes samples.now) before result after }
{
    cabi::malxuqeed_pieces(sizes, samples, list, words, waiting, slots)
}
