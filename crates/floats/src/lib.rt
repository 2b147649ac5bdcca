// Volumes in f32, document 02 (vii): voxels and a level to samples.
#![tactic(auto)]

ghost use Rattle.std.specs.Prelude.{◌≡◌, ◌<◌, ◌≤◌, length, map, unwrap_or, IfSome};
ghost use Rattle.lists.specs.Lists.{over};
ghost use Rattle.paper.specs.Refused.{verdict_told};
ghost use Rattle.greys.specs.Sample.{sample_of};
ghost use Rattle.greys.specs.Convert.{first_bad, convert_verdict, Converts};
ghost use Rattle.greys.specs.Within.{Fine};

use greys::Level;
use paper::Refusal;

// The first voxel that is no grey.
fn first_bad(voxels: &[f32]) -> Option<usize>
    ensures first { unwrap_or result (length voxels.now) ≡ first_bad voxels.now }
    ensures within { IfSome result (λ i. i < length voxels.now) }
{
    (0..voxels.len()).find(|&i| !voxels::is_grey(voxels[i]))
}

// The samples of all voxels, at the front of the lent slice. By index: of what was written through `iter_mut` nothing can be proved.
fn put_samples(voxels: &[f32], level: f32, scale: u32, samples: &mut [i16])
    requires { Fine level scale voxels.now × (length voxels.now ≤ length samples.old) }
    ensures { samples.new ≡ over (map (sample_of level scale) voxels.now) samples.old }
{
    for i in 0..voxels.len() {
        samples[i] = voxels::sample_of(level, scale, voxels[i]);
    }
}

// "Refusals, in this order: 26 ..; 21 ..; 22 ..; 2 .."
#[tactic(auto, unfolding(greys::specs::Convert::convert_verdict))]
fn convertible(voxels: &[f32], level: Level, scale: u32, room: usize) -> Result<(), Refusal>
    ensures { verdict_told result ≡ convert_verdict level scale voxels.now room }
{
    if !voxels::is_scale(scale) {
        return Err(Refusal::Scale);
    }
    if !voxels::are_greys(level) {
        return Err(Refusal::Grey(0));
    }
    if let Some(place) = first_bad(voxels) {
        return Err(Refusal::Grey(place));
    }
    if !voxels::is_ordered(level) {
        return Err(Refusal::LevelOrder);
    }
    if voxels.len() != room {
        return Err(Refusal::SampleCount);
    }
    Ok(())
}

// The samples of a volume in f32, or a refusal, which writes nothing.
pub fn convert(voxels: &[f32], level: Level, scale: u32, samples: &mut [i16]) -> Result<(), Refusal>
    ensures { Converts level scale voxels.now samples.old (verdict_told result) samples.new }
{
    convertible(voxels, level, scale, samples.len())?;
    let g = voxels::level_of(level);
    put_samples(voxels, g, scale, samples);
    Ok(())
}
