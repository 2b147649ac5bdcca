// Coordinates as f32 in sample steps, and corners. What the bytes of a facet are stands in specs.
#![tactic(auto)]

ghost use Rattle.std.specs.Prelude.{◌≡◌, true, not, T};
ghost use Rattle.std.specs.Float.{binary32};
ghost use Rattle.std.specs.Float.Ieee.{of_bits, is_nan};
ghost use Rattle.facets.specs.Steps.{float_of, in_bounds, is_image, word_of, nat_of, Candidate};
ghost use Rattle.facets.specs.Facets.{Bounded, corner_of, corner_stands, corner_words};

// "A corner is one record of three floats.", in sample steps.
#[derive(Clone, Copy)]
pub struct Corner {
    pub x: f32,
    pub y: f32,
    pub z: f32,
}

// A triangle's corners, in the sheet's order.
#[derive(Clone, Copy)]
pub struct Facet {
    pub a: Corner,
    pub b: Corner,
    pub c: Corner,
}

// The greatest coordinate that a float is taken for.
const MOST: u32 = 4128768;

// A sheet's number / 65,536, exactly.
fn float_of(w: i32) -> f32
    requires { in_bounds w ≡ true }
    ensures { result ≡ float_of (nat_of w) }
{
    (w as f32) / 65536.0
}

// The only coordinate whose float x can be: between 128 and 256 floats lie 1/65,536 apart, so the sum's last digits are it.
#[tactic(auto, using(crate::proofs::Images::more_number, crate::proofs::Images::candidate_is))]
fn candidate(x: f32) -> u32
    requires { T (not (is_nan x)) }
    ensures { Candidate x result }
{
    (x + 128.0).to_bits() % 8388608
}

// Whether 32 bits are those of a coordinate's float. From 64 on, below 0 and of no number they are not.
pub fn bits_stand(b: u32) -> bool
    ensures { result ≡ is_image (of_bits binary32 b) }
{
    if b >= 1115684864 {
        return false;
    }
    let n = candidate(f32::from_bits(b));
    n <= MOST && float_of(n as i32).to_bits() == b
}

// The coordinate of a float that has one, as a sheet's number.
#[tactic(auto, using(crate::proofs::Images::image_number))]
pub fn word_of(x: f32) -> i32
    requires { is_image x ≡ true }
    ensures { result ≡ word_of x }
{
    candidate(x) as i32
}

// Whether a sheet's number is a coordinate, 0 to 4,128,768.
#[tactic(auto, unfolding(crate::specs::Steps::in_bounds))]
pub fn in_bounds(w: i32) -> bool
    ensures { result ≡ in_bounds w }
{
    (0..=4128768).contains(&w)
}

impl Corner {
    // That of three coordinates.
    #[tactic(auto, unfolding(crate::specs::Facets::corner_of))]
    pub fn at(x: i32, y: i32, z: i32) -> Corner
        requires { Bounded x y z }
        ensures { result ≡ corner_of x y z }
    {
        Corner {
            x: float_of(x),
            y: float_of(y),
            z: float_of(z),
        }
    }

    // Its three coordinates, where it has them.
    #[tactic(auto, unfolding(crate::specs::Facets::corner_stands, crate::specs::Facets::corner_words))]
    pub fn words(self) -> [i32; 3]
        requires { corner_stands self ≡ true }
        ensures { result ≡ corner_words self }
    {
        [word_of(self.x), word_of(self.y), word_of(self.z)]
    }
}
