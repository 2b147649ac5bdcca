// The checker: a sheet file against its samples and a start, under a rule of rounding.
#![tactic(auto)]

ghost use Rattle.paper.specs.Lattice.{lattice};
ghost use Rattle.paper.specs.Room.{work};
ghost use Rattle.paper.specs.Refused.{verdict_told};
ghost use Rattle.paper.specs.Check.{Checks};

use layout::SheetFile;
use paper::{Refusal, Rule, Sizes, Start};
use rows::Rows;

// A sheet file, made under a rule, against its samples and a start.
pub fn check(
    rule: Rule,
    samples: &[i16],
    sizes: Sizes,
    start: Start,
    bytes: &[u8],
    words: &mut [u16],
    waiting: &mut [u32],
    slots: &mut [u32],
) -> Result<(), Refusal>
    ensures { let before = work words.old waiting.old slots.old in
        let after = work words.new waiting.new slots.new in
        Checks rule (lattice sizes samples.now) start bytes.now before (verdict_told result) after }
{
    let mut sides = [0u64; 4096];
    let mut may = [0u64; 4096];
    let cube = ready::begin(
        samples,
        sizes,
        start,
        words.len(),
        waiting.len(),
        slots.len(),
        &mut sides,
        &mut may,
    )?;
    layout::tested(bytes)?;
    if layout::sizes_of(bytes) != sizes {
        return Err(Refusal::OtherSizes);
    }
    let rows = Rows {
        sizes,
        sides: &sides,
        cubes: &may,
    };
    let file = SheetFile::new(bytes);
    check_past::check_from(rule, samples, &rows, cube, &file, words, waiting, slots)
}
