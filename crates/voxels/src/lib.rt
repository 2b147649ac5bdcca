// Greys, a level and a scale tested, and the sample of one voxel.
#![tactic(auto)]

ghost use Rattle.std.specs.Prelude.{◌≡◌, true, ◌≤◌, max, T, pos, neg_ℤ};
ghost use Rattle.std.specs.Float.{binary32};
ghost use Rattle.std.specs.Float.Ieee.{fits};
ghost use Rattle.greys.specs.Level.{is_grey, level_of, are_greys, is_ordered};
ghost use Rattle.greys.specs.Sample.{is_scale, held, sample_of};
ghost use Rattle.greys.specs.Within.{Scale, Plain, whole, Bounded};

use greys::Level;

// ── greys and levels ──

// A number, and within ±65,536.
pub fn is_grey(v: f32) -> bool
    ensures { result ≡ is_grey v }
{
    -65536.0 <= v && v <= 65536.0
}

// The grey that is sought.
#[tactic(auto, unfolding(greys::specs::Level::level_of))]
pub fn level_of(l: Level) -> f32
    ensures { result ≡ level_of l }
{
    match l {
        Level::Fixed(g) => g,
        Level::Halfway(air, material) => (air + material) / 2.0,
    }
}

#[tactic(auto, unfolding(greys::specs::Level::are_greys))]
pub fn are_greys(l: Level) -> bool
    ensures { result ≡ are_greys l }
{
    match l {
        Level::Fixed(g) => is_grey(g),
        Level::Halfway(air, material) => is_grey(air) && is_grey(material),
    }
}

// Whether air is below material.
#[tactic(auto, unfolding(greys::specs::Level::is_ordered))]
pub fn is_ordered(l: Level) -> bool
    ensures { result ≡ is_ordered l }
{
    match l {
        Level::Fixed(_) => true,
        Level::Halfway(air, material) => air < material,
    }
}

// Powers of two up to 256 are the divisors of 256.
#[tactic(auto, using(greys::proofs::Scales::no_scale, greys::proofs::Scales::divides))]
pub fn is_scale(n: u32) -> bool
    ensures { result ≡ is_scale n }
{
    n != 0 && 256 % n == 0
}

// ── a sample ──

// The whole part of p. From 2^23 to 2^24 floats are the whole numbers, so the sum's last digits are the whole number nearest to p.
fn whole_part(p: f32) -> u16
    requires { Plain p }
    ensures { (result ≡ whole p) × (result ≤ 32767) }
{
    let near = ((p + 8388608.0).to_bits() - 1258291200) as u16;
    if p < (near as f32) { near - 1 } else { near }
}

// d times the scale in size, held and cut. The product is not rounded.
fn steps(d: f32, scale: u32) -> u16
    requires { Scale scale × Bounded 131072 d × T (fits binary32 d) }
    ensures { (result ≡ held d scale) × (result ≤ 32767) }
{
    whole_part((d.abs() * (scale as f32)).min(32767.0))
}

// A sample of air is at least 1.
fn air(c: u16) -> i16
    requires { c ≤ 32767 }
    ensures { result ≡ pos (max 1 c) }
{
    c.max(1) as i16
}

// A sample of solid is not above 0.
fn solid(c: u16) -> i16
    requires { c ≤ 32767 }
    ensures { result ≡ neg_ℤ (pos c) }
{
    -(c as i16)
}

pub fn sample_of(level: f32, scale: u32, voxel: f32) -> i16
    requires { Scale scale × (is_grey level ≡ true) × (is_grey voxel ≡ true) }
    ensures { result ≡ sample_of level scale voxel }
{
    let d = level - voxel;
    let size = steps(d, scale);
    if 0.0 < d { air(size) } else { solid(size) }
}
