// Writes a sheet as a binary STL file.
#![tactic(auto)]

ghost use Rattle.std.specs.Prelude.{◌≡◌, true, ◌+◌, ◌*◌, ◌≤◌, ◌<◌, length, unwrap_or, IfSome};
ghost use Rattle.std.proofs.lemmas.List.Edits.{sets};
ghost use Rattle.lists.specs.Lists.{range, each, over};
ghost use Rattle.paper.specs.Sheet.{record_length};
ghost use Rattle.paper.specs.Refused.{verdict_told, wrote_told};
ghost use Rattle.stl.specs.Stl.{vertex_corner, vertex_within, triangle_bytes, triangle_within};
ghost use Rattle.stl.specs.Stl.{stl_bytes, first_outside, stl_write_verdict, StlWrites};
ghost use Rattle.stl.specs.Within.{AllNamed, Fine};

use codec::Number;
use facets::Corner;
use paper::Refusal;

// The first `count` triangles of a sheet, whose vertices are all there.
#[derive(Clone, Copy)]
struct Triangles<'a> {
    vertices: &'a [i32],
    triangles: &'a [u32],
    count: usize,
    ghost named: { AllNamed count vertices.now triangles.now },
}

impl Triangles<'_> {
    // The corner at vertex v.
    #[tactic(auto, using(stl::proofs::Laws::vertex_bounded), unfolding(stl::specs::Stl::vertex_corner))]
    fn corner(&self, v: usize) -> Corner
        requires { let vs = self.now.vertices.now in
            (record_length * v + record_length ≤ length vs) × (vertex_within vs v ≡ true) }
        ensures { result ≡ vertex_corner self.now.vertices.now v }
    {
        let at = 4 * v;
        Corner::at(
            self.vertices[at + 1],
            self.vertices[at + 2],
            self.vertices[at + 3],
        )
    }

    // Whether no coordinate of vertex v is outside 0 to 4,128,768.
    #[tactic(auto, unfolding(stl::specs::Stl::vertex_within))]
    fn vertex_within(&self, v: usize) -> bool
        requires { record_length * v + record_length ≤ length self.now.vertices.now }
        ensures { result ≡ vertex_within self.now.vertices.now v }
    {
        let at = 4 * v;
        facets::in_bounds(self.vertices[at + 1])
            && facets::in_bounds(self.vertices[at + 2])
            && facets::in_bounds(self.vertices[at + 3])
    }

    // The same of the vertices of triangle i.
    #[tactic(auto, unfolding(stl::specs::Stl::triangle_within))]
    fn is_within(&self, i: usize) -> bool
        requires { i < self.now.count }
        ensures { result ≡ triangle_within self.now.vertices.now self.now.triangles.now i }
    {
        let at = 3 * i;
        self.vertex_within(self.triangles[at] as usize)
            && self.vertex_within(self.triangles[at + 1] as usize)
            && self.vertex_within(self.triangles[at + 2] as usize)
    }

    // The first triangle with a coordinate outside.
    fn first_outside(&self) -> Option<usize>
        ensures first { let s = self.now in
            unwrap_or result s.count ≡ first_outside s.count s.vertices.now s.triangles.now }
        ensures within { IfSome result (λ i. i < self.now.count) }
    {
        (0..self.count).find(|i| !self.is_within(*i))
    }

    // Stores the facet of triangle i.
    fn put_facet(&self, i: usize, bytes: &mut [u8])
        requires { (i < self.now.count) × (triangle_within self.now.vertices.now self.now.triangles.now i ≡ true)
            × (i < 4294967296) × (84 + 50 * i + 50 ≤ length bytes.old) }
        ensures { bytes.new
            ≡ sets bytes.old (84 + 50 * i) (triangle_bytes self.now.vertices.now self.now.triangles.now i) }
    {
        let at = 3 * i;
        let a = self.corner(self.triangles[at] as usize);
        let b = self.corner(self.triangles[at + 1] as usize);
        let c = self.corner(self.triangles[at + 2] as usize);
        facet_writer::put_facet(bytes, 84 + 50 * i, a, b, c);
    }

    // Stores all facets.
    fn put_facets(&self, bytes: &mut [u8])
        requires { Fine self.now.count self.now.vertices.now self.now.triangles.now (length bytes.old) }
        ensures { let s = self.now in
            bytes.new ≡ sets bytes.old 84 (each (triangle_bytes s.vertices.now s.triangles.now) (range 0 s.count)) }
    {
        for i in 0..self.count {
            self.put_facet(i, bytes);
        }
    }

    // Stores the whole file, from the first byte on: "80 header bytes (ours zero)", the count and the facets.
    fn put_file(&self, bytes: &mut [u8])
        requires { Fine self.now.count self.now.vertices.now self.now.triangles.now (length bytes.old) }
        ensures { let s = self.now in
            bytes.new ≡ over (stl_bytes s.count s.vertices.now s.triangles.now) bytes.old }
    {
        bytes[..80].fill(0);
        (self.count as u32).put(bytes, 80);
        self.put_facets(bytes);
    }
}

// "writing 9, 15, 25 .., 8"
#[tactic(auto, unfolding(stl::specs::Stl::stl_write_verdict))]
fn writable(
    nv: usize,
    nt: usize,
    vertices: &[i32],
    triangles: &[u32],
    room: usize,
) -> Result<(), Refusal>
    ensures { verdict_told result ≡ stl_write_verdict nv nt vertices.now triangles.now room }
{
    if !file_writer::counts_fit(nv, nt, vertices.len() / 4, triangles.len() / 3) {
        return Err(Refusal::CountLimit);
    }
    if let Some(i) = file_writer::first_bad(nv, nt, triangles) {
        return Err(Refusal::Index(i));
    }
    let sheet = Triangles {
        vertices,
        triangles,
        count: nt,
    };
    if let Some(i) = sheet.first_outside() {
        return Err(Refusal::Coordinate(i));
    }
    if room < stl::stl_length(nt) {
        return Err(Refusal::ByteRoom);
    }
    Ok(())
}

// The sheet's triangles as an STL file, at the front of the lent bytes: how many of them it takes.
pub fn write(
    nv: usize,
    nt: usize,
    vertices: &[i32],
    triangles: &[u32],
    bytes: &mut [u8],
) -> Result<usize, Refusal>
    ensures { StlWrites nv nt vertices.now triangles.now bytes.old (wrote_told result) bytes.new }
{
    writable(nv, nt, vertices, triangles, bytes.len())?;
    let sheet = Triangles {
        vertices,
        triangles,
        count: nt,
    };
    sheet.put_file(bytes);
    Ok(stl::stl_length(nt))
}
