// Writes a facet of a binary STL file.
#![tactic(auto)]

ghost use Rattle.std.specs.Prelude.{◌≡◌, ◌+◌, ◌≤◌, length};
ghost use Rattle.std.proofs.lemmas.List.Edits.{sets};
ghost use Rattle.facets.specs.Facets.{Numbers, corner_bytes, facet_bytes};

use codec::Number;
use facets::Corner;

// The 12 bytes of a corner.
#[tactic(auto, unfolding(facets::specs::Facets::corner_bytes))]
fn put_corner(out: &mut [u8], at: usize, c: Corner)
    requires { (at + 12 ≤ length out.old) × Numbers c }
    ensures { out.new ≡ sets out.old at (corner_bytes c) }
{
    codec::put_all(out, at, &[c.x.to_bits(), c.y.to_bits(), c.z.to_bits()]);
}

// The 50 bytes of a facet: no normal, the corners with the second and third exchanged, no attribute.
#[tactic(auto, using(facets::proofs::Facets::five))]
pub fn put_facet(out: &mut [u8], at: usize, a: Corner, b: Corner, c: Corner)
    requires { (at + 50 ≤ length out.old) × Numbers a × Numbers b × Numbers c }
    ensures { out.new ≡ sets out.old at (facet_bytes a b c) }
{
    codec::put_all(out, at, &[0u32, 0, 0]);
    put_corner(out, at + 12, a);
    put_corner(out, at + 24, c);
    put_corner(out, at + 36, b);
    0u16.put(out, at + 48);
}
