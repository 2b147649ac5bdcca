// Places of a lattice and their numbers.
#![tactic(auto)]

ghost use Rattle.std.specs.Prelude.{◌≡◌, ◌+◌, ◌*◌, ◌/◌, ◌%◌, ◌≤◌, ◌<◌};
ghost use Rattle.paper.specs.Lattice.{lattice, place, axis, axes, samples, sample_no, cubes, cube_no, cube_at, value_at};
ghost use Rattle.paper.specs.Within.{Sized, Full, SampleIn, CubeIn};

use paper::{Place, Sizes};

// The samples of a lattice that passes tests 1 and 2.
#[derive(Clone, Copy)]
pub struct Volume<'a> {
    pub sizes: Sizes,
    pub samples: &'a [i16],
    pub ghost full: { Full (lattice sizes samples.now) },
}

impl Volume<'_> {
    // The sample at a place.
    pub fn value(&self, p: Place) -> i16
        requires { SampleIn self.now.sizes p }
        ensures { result ≡ value_at (lattice self.now.sizes self.now.samples.now) p }
    {
        self.samples[sample_no(self.sizes, p)]
    }
}

// "An axis has 2 to 64 samples."
#[tactic(auto, unfolding(paper::specs::Lattice::axis))]
fn axis_passes(n: usize) -> bool
    ensures { result ≡ axis n }
{
    2 <= n && n <= 64
}

// Test 1.
#[tactic(auto, unfolding(paper::specs::Lattice::axes))]
pub fn axes_pass(sizes: Sizes) -> bool
    ensures { result ≡ axes sizes }
{
    axis_passes(sizes.nx) && axis_passes(sizes.ny) && axis_passes(sizes.nz)
}

// How many samples there are.
pub fn sample_count(sizes: Sizes) -> usize
    requires { Sized sizes }
    ensures { (result ≡ samples sizes) × (result ≤ 262144) }
{
    sizes.nx * (sizes.ny * sizes.nz)
}

// How many cubes there are.
pub fn cube_count(sizes: Sizes) -> usize
    requires { Sized sizes }
    ensures { (result ≡ cubes sizes) × (result ≤ 250047) }
{
    (sizes.nx - 1) * ((sizes.ny - 1) * (sizes.nz - 1))
}

// The number of the sample at a place.
pub fn sample_no(sizes: Sizes, p: Place) -> usize
    requires { Sized sizes × SampleIn sizes p }
    ensures { (result ≡ sample_no sizes p) × (result < samples sizes) }
{
    p.x + sizes.nx * (p.y + sizes.ny * p.z)
}

// The number of the cube at a place.
pub fn cube_no(sizes: Sizes, p: Place) -> usize
    requires { Sized sizes × CubeIn sizes p }
    ensures { (result ≡ cube_no sizes p) × (result < cubes sizes) }
{
    p.x + (sizes.nx - 1) * (p.y + (sizes.ny - 1) * p.z)
}

// The place of number n in rows of w and layers of h rows. Numbers of 32 bits are divided faster.
pub fn place_of(n: usize, w: usize, h: usize) -> Place
    requires { (n < 4294967296) × (0 < w) × (w ≤ 64) × (0 < h) × (h ≤ 64) }
    ensures { result ≡ place (n % w) (n / w % h) (n / (w * h)) }
{
    let k = n as u32;
    let row = w as u32;
    let rows = h as u32;
    let q = k / row;
    Place {
        x: (k % row) as usize,
        y: (q % rows) as usize,
        z: (q / rows) as usize,
    }
}

// The place of the cube of a number.
pub fn cube_at(sizes: Sizes, k: usize) -> Place
    requires { Sized sizes × (k < cubes sizes) }
    ensures { (result ≡ cube_at sizes k) × CubeIn sizes result }
{
    let w = sizes.nx - 1;
    let h = sizes.ny - 1;
    place_of(k, w, h)
}
