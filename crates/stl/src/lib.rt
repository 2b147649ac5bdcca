// Binary STL: what a sheet's triangles are as facets, and what a reader and a writer answer. What is defined stands in specs, what follows
// in proofs.
#![tactic(auto)]

ghost use Rattle.std.specs.Prelude.{◌≡◌, ◌<◌};
ghost use Rattle.stl.specs.Stl.{stl_length};
ghost use Rattle.stl.specs.Told.{loaded_told};

use paper::{Refusal, Verdict};

// The answer of a reader, for C.
#[repr(C)]
#[derive(Clone, Copy)]
pub struct Loaded {
    pub number: usize,
    pub place: usize,
    pub facets: usize,
}

impl From<Result<usize, Refusal>> for Loaded {
    ghost from_gives = { λ r l. l ≡ loaded_told r };

    fn from(r: Result<usize, Refusal>) -> Loaded {
        match r {
            Ok(facets) => Loaded {
                number: 0,
                place: 0,
                facets,
            },
            Err(e) => {
                let v = Verdict::from(e);
                Loaded {
                    number: v.number,
                    place: v.place,
                    facets: 0,
                }
            }
        }
    }
}

// How long a file of n facets is, which is where facet n of a longer one stands.
pub fn stl_length(n: usize) -> usize
    requires { n < 4294967296 }
    ensures { result ≡ stl_length n }
{
    84 + 50 * n
}
