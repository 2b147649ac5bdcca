// Document 02 (v), "Every piece on the tray": what a search for pieces answers. What is defined stands in specs, what follows in proofs.
#![tactic(auto)]

ghost use Rattle.std.specs.Prelude.{◌≡◌};
ghost use Rattle.tray.specs.declared.FindError.TheVariants.{Refused};
ghost use Rattle.tray.specs.Told.{found_told};

use paper::Refusal;

// Why a search is refused: a test that is not passed before pieces are listed, or more pieces than the list holds, and how many.
#[derive(Clone, Copy, Debug, PartialEq, Eq)]
pub enum FindError {
    Refused(Refusal),
    ListRoom(usize),
}

impl From<Refusal> for FindError {
    ghost from_gives = { λ r e. e ≡ Refused r };

    fn from(r: Refusal) -> FindError {
        FindError::Refused(r)
    }
}

// The answer of a search, for C: 0 or the number of a refusal, and how many pieces there are.
#[repr(C)]
#[derive(Clone, Copy)]
pub struct Found {
    pub number: usize,
    pub pieces: usize,
}

impl From<Result<usize, FindError>> for Found {
    ghost from_gives = { λ r f. f ≡ found_told r };

    fn from(r: Result<usize, FindError>) -> Found {
        match r {
            Ok(pieces) => Found { number: 0, pieces },
            Err(FindError::Refused(e)) => Found {
                number: e.number(),
                pieces: 0,
            },
            Err(FindError::ListRoom(pieces)) => Found { number: 20, pieces },
        }
    }
}
