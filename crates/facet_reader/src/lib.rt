// Reads a facet of a binary STL file.
#![tactic(auto)]

ghost use Rattle.std.specs.Prelude.{◌≡◌, ◌+◌, ◌≤◌, true, length};
ghost use Rattle.std.specs.Float.{binary32};
ghost use Rattle.std.specs.Float.Ieee.{of_bits};
ghost use Rattle.std.proofs.lemmas.List.Edits.{sets};
ghost use Rattle.lists.specs.Bytes.{field};
ghost use Rattle.facets.specs.Steps.{is_image};
ghost use Rattle.facets.specs.Facets.{corner_at, corner_stands, corner_words, facet_at, facet_stands, facet_words};

use codec::Number;
use facets::{Corner, Facet};

// Whether the four bytes from `at` on are a coordinate's float.
fn float_taken(s: &[u8], at: usize) -> bool
    requires { at + 4 ≤ length s.now }
    ensures { result ≡ is_image (of_bits binary32 (field 4 s.now at)) }
{
    facets::bits_stand(u32::get(s, at))
}

// Whether the three floats from `at` on are coordinates'.
#[tactic(auto, unfolding(facets::specs::Facets::corner_stands, facets::specs::Facets::corner_at))]
fn corner_taken(s: &[u8], at: usize) -> bool
    requires { at + 12 ≤ length s.now }
    ensures { result ≡ corner_stands (corner_at s.now at) }
{
    float_taken(s, at) && float_taken(s, at + 4) && float_taken(s, at + 8)
}

// The float that four bytes give, which is a coordinate's.
fn float_at(s: &[u8], at: usize) -> f32
    requires { (at + 4 ≤ length s.now) × (is_image (of_bits binary32 (field 4 s.now at)) ≡ true) }
    ensures { result ≡ of_bits binary32 (field 4 s.now at) }
{
    f32::from_bits(u32::get(s, at))
}

// The corner that twelve bytes give.
#[tactic(auto, unfolding(facets::specs::Facets::corner_stands, facets::specs::Facets::corner_at))]
fn get_corner(s: &[u8], at: usize) -> Corner
    requires { (at + 12 ≤ length s.now) × (corner_stands (corner_at s.now at) ≡ true) }
    ensures { result ≡ corner_at s.now at }
{
    Corner {
        x: float_at(s, at),
        y: float_at(s, at + 4),
        z: float_at(s, at + 8),
    }
}

// The three coordinates of a corner that has them, one by one: `copy_from_slice` would bring them by way of the stack.
#[tactic(auto, unfolding(facets::specs::Facets::corner_words))]
fn put_words(out: &mut [i32], at: usize, c: Corner)
    requires { (at + 3 ≤ length out.old) × (corner_stands c ≡ true) }
    ensures { out.new ≡ sets out.old at (corner_words c) }
{
    let [x, y, z] = c.words();
    out[at] = x;
    out[at + 1] = y;
    out[at + 2] = z;
}

// Whether all floats of the facet are coordinates'. Normal and attribute are not looked at.
#[tactic(auto, unfolding(facets::specs::Facets::facet_stands, facets::specs::Facets::facet_at))]
pub fn facet_taken(s: &[u8], at: usize) -> bool
    requires { at + 50 ≤ length s.now }
    ensures { result ≡ facet_stands (facet_at s.now at) }
{
    corner_taken(s, at + 12) && corner_taken(s, at + 36) && corner_taken(s, at + 24)
}

// The corners of a facet in the sheet's order.
#[tactic(auto, unfolding(facets::specs::Facets::facet_stands, facets::specs::Facets::facet_at))]
pub fn get_facet(s: &[u8], at: usize) -> Facet
    requires { (at + 50 ≤ length s.now) × (facet_stands (facet_at s.now at) ≡ true) }
    ensures { result ≡ facet_at s.now at }
{
    Facet {
        a: get_corner(s, at + 12),
        b: get_corner(s, at + 36),
        c: get_corner(s, at + 24),
    }
}

// Its nine coordinates.
#[tactic(auto, using(facets::proofs::Facets::nine), unfolding(facets::specs::Facets::facet_stands))]
pub fn put_nine(out: &mut [i32], at: usize, f: Facet)
    requires { (at + 9 ≤ length out.old) × (facet_stands f ≡ true) }
    ensures { out.new ≡ sets out.old at (facet_words f) }
{
    put_words(out, at, f.a);
    put_words(out, at + 3, f.b);
    put_words(out, at + 6, f.c);
}
