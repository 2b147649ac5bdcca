// What the documents' answers, refusals, starts and rules are made of. The definitions that they give them stand in specs/.
#![tactic(auto)]

ghost use Rattle.std.specs.Prelude.{◌≡◌};
ghost use Rattle.paper.specs.declared.BuildError.TheVariants.{Refused};
ghost use Rattle.paper.specs.Refused.{verdict_of, verdict_told, built_told, wrote_told, got_told};

use std::fmt;

// How many samples a lattice has on each axis.
#[repr(C)]
#[derive(Clone, Copy, Debug, PartialEq, Eq)]
pub struct Sizes {
    pub nx: usize,
    pub ny: usize,
    pub nz: usize,
}

// Where a sample or a cube stands.
#[repr(C)]
#[derive(Clone, Copy, Debug, PartialEq, Eq)]
pub struct Place {
    pub x: usize,
    pub y: usize,
    pub z: usize,
}

// The start: none named, the lowest crossed cube by name, or the cube at a place.
#[derive(Clone, Copy, Debug, PartialEq, Eq)]
pub enum Start {
    Unnamed,
    Lowest,
    Cube(Place),
}

// How t is rounded: down, as in document 01, or to the nearest unit.
#[derive(Clone, Copy, Debug, PartialEq, Eq)]
pub enum Rule {
    Down,
    Nearest,
}

// Why a call is refused: the test that is not passed, and the place of what fails it where the documents give one.
#[derive(Clone, Copy, Debug, PartialEq, Eq)]
pub enum Refusal {
    Axes,
    SampleCount,
    WorkRoom,
    NoCube,
    NotCrossed,
    VertexRoom,
    TriangleRoom,
    ByteRoom,
    CountLimit,
    ShortFile,
    Mark,
    Layout,
    Index(usize),
    OtherSizes,
    Record(usize),
    Triangle(usize),
    Absent,
    Grey(usize),
    LevelOrder,
    Coordinate(usize),
    Scale,
}

impl Refusal {
    // The number that the documents give it.
    pub fn number(self) -> usize
        ensures { result ≡ (verdict_of self).number }
    {
        Verdict::from(self).number
    }
}

impl fmt::Display for Refusal {
    fn fmt<W: fmt::Write>(&self, f: &mut fmt::Formatter<W>) -> fmt::Result {
        let n = self.number();
        write!(f, "refused {n}")
    }
}

// The counts of a sheet.
#[derive(Clone, Copy, Debug, PartialEq, Eq)]
pub struct SheetCounts {
    pub vertices: usize,
    pub triangles: usize,
    pub cubes: usize,
}

// Why a build is refused: a test that is not passed before there is a sheet, or a sheet with more vertices, or more triangles, than room.
#[derive(Clone, Copy, Debug, PartialEq, Eq)]
pub enum BuildError {
    Refused(Refusal),
    VertexRoom(SheetCounts),
    TriangleRoom(SheetCounts),
}

impl From<Refusal> for BuildError {
    ghost from_gives = { λ r e. e ≡ Refused r };

    fn from(r: Refusal) -> BuildError {
        BuildError::Refused(r)
    }
}

// What a file holds, by its trailer.
#[derive(Clone, Copy, Debug, PartialEq, Eq)]
pub struct Contents {
    pub vertices: usize,
    pub triangles: usize,
    pub sizes: Sizes,
}

// ── answers as numbers, for C ──

// The answer of a test: 0 or the number of a refusal, and its place.
#[repr(C)]
#[derive(Clone, Copy)]
pub struct Verdict {
    pub number: usize,
    pub place: usize,
}

// The answer of a build.
#[repr(C)]
#[derive(Clone, Copy)]
pub struct Built {
    pub number: usize,
    pub vertices: usize,
    pub triangles: usize,
    pub cubes: usize,
}

// The answer of a writer.
#[repr(C)]
#[derive(Clone, Copy)]
pub struct Wrote {
    pub number: usize,
    pub place: usize,
    pub bytes: usize,
}

// The answer of a reader.
#[repr(C)]
#[derive(Clone, Copy)]
pub struct Got {
    pub number: usize,
    pub place: usize,
    pub vertices: usize,
    pub triangles: usize,
    pub sizes: Sizes,
}

impl From<Refusal> for Verdict {
    ghost from_gives = { λ r v. v ≡ verdict_of r };

    fn from(r: Refusal) -> Verdict {
        match r {
            Refusal::Axes => numbered(1, 0),
            Refusal::SampleCount => numbered(2, 0),
            Refusal::WorkRoom => numbered(3, 0),
            Refusal::NoCube => numbered(4, 0),
            Refusal::NotCrossed => numbered(5, 0),
            Refusal::VertexRoom => numbered(6, 0),
            Refusal::TriangleRoom => numbered(7, 0),
            Refusal::ByteRoom => numbered(8, 0),
            Refusal::CountLimit => numbered(9, 0),
            Refusal::ShortFile => numbered(11, 0),
            Refusal::Mark => numbered(12, 0),
            Refusal::Layout => numbered(14, 0),
            Refusal::Index(i) => numbered(15, i),
            Refusal::OtherSizes => numbered(16, 0),
            Refusal::Record(i) => numbered(17, i),
            Refusal::Triangle(i) => numbered(18, i),
            Refusal::Absent => numbered(19, 0),
            Refusal::Grey(i) => numbered(21, i),
            Refusal::LevelOrder => numbered(22, 0),
            Refusal::Coordinate(i) => numbered(25, i),
            Refusal::Scale => numbered(26, 0),
        }
    }
}

fn numbered(number: usize, place: usize) -> Verdict
    ensures { result ≡ record { number = number; place = place } }
{
    Verdict { number, place }
}

impl From<Result<(), Refusal>> for Verdict {
    ghost from_gives = { λ r v. v ≡ verdict_told r };

    fn from(r: Result<(), Refusal>) -> Verdict {
        match r {
            Ok(()) => numbered(0, 0),
            Err(e) => Verdict::from(e),
        }
    }
}

fn counted(number: usize, c: SheetCounts) -> Built
    ensures { result ≡ record { number = number; vertices = c.vertices; triangles = c.triangles; cubes = c.cubes } }
{
    Built {
        number,
        vertices: c.vertices,
        triangles: c.triangles,
        cubes: c.cubes,
    }
}

impl From<Result<SheetCounts, BuildError>> for Built {
    ghost from_gives = { λ r b. b ≡ built_told r };

    fn from(r: Result<SheetCounts, BuildError>) -> Built {
        match r {
            Ok(c) => counted(0, c),
            Err(BuildError::Refused(e)) => Built {
                number: e.number(),
                vertices: 0,
                triangles: 0,
                cubes: 0,
            },
            Err(BuildError::VertexRoom(c)) => counted(6, c),
            Err(BuildError::TriangleRoom(c)) => counted(7, c),
        }
    }
}

impl From<Result<usize, Refusal>> for Wrote {
    ghost from_gives = { λ r w. w ≡ wrote_told r };

    fn from(r: Result<usize, Refusal>) -> Wrote {
        match r {
            Ok(bytes) => Wrote {
                number: 0,
                place: 0,
                bytes,
            },
            Err(e) => {
                let v = Verdict::from(e);
                Wrote {
                    number: v.number,
                    place: v.place,
                    bytes: 0,
                }
            }
        }
    }
}

impl From<Result<Contents, Refusal>> for Got {
    ghost from_gives = { λ r g. g ≡ got_told r };

    fn from(r: Result<Contents, Refusal>) -> Got {
        match r {
            Ok(c) => Got {
                number: 0,
                place: 0,
                vertices: c.vertices,
                triangles: c.triangles,
                sizes: c.sizes,
            },
            Err(e) => {
                let v = Verdict::from(e);
                let none = Sizes {
                    nx: 0,
                    ny: 0,
                    nz: 0,
                };
                Got {
                    number: v.number,
                    place: v.place,
                    vertices: 0,
                    triangles: 0,
                    sizes: none,
                }
            }
        }
    }
}
