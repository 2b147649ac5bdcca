// The lowest cube of each piece of a lattice.
#![tactic(auto)]

ghost use Rattle.std.specs.Prelude.{◌≡◌, if◌then◌else◌, List, ◌≤◌, nat_le, ℤ, length};
ghost use Rattle.paper.specs.Lattice.{lattice};
ghost use Rattle.paper.specs.Room.{work, lengths, output_after};
ghost use Rattle.paper.specs.Within.{Roomy};
ghost use Rattle.rows.specs.Rows.{HasBoth};
ghost use Rattle.tray.specs.Pieces.{lent, Finds};
ghost use Rattle.tray.specs.Told.{found_told};
ghost use Rattle.tray.specs.declared.FindError.TheVariants.{ListRoom};
ghost use Rattle.pieces.specs.Past.{FindsPast};

use lattice::Volume;
use paper::{Refusal, Sizes};
use rows::Rows;
use tray::FindError;

// Test 20; where it is passed, the pieces are written to the front of the list. How many they are is returned.
#[tactic(auto, unfolding(paper::specs::Room::output_after))]
fn put_list(pieces: &[u32], list: &mut [u32]) -> Result<usize, FindError>
    ensures room { let n = length pieces.now in
        result ≡ (if nat_le n (length list.old) then Ok n else Err (ListRoom n)) }
    ensures put { list.new ≡ output_after (found_told result).number pieces.now list.old }
{
    let n = pieces.len();
    if list.len() < n {
        return Err(FindError::ListRoom(n));
    }
    // By number: copy_from_slice would have C's archive ask for memmove besides memcpy and memset.
    for i in 0..n {
        list[i] = pieces[i];
    }
    Ok(n)
}

// The pieces of a lattice that has these rows, past tests 1 to 3.
fn find_past(
    rows: &Rows,
    list: &mut [u32],
    words: &mut [u16],
    waiting: &mut [u32],
    slots: &mut [u32],
) -> Result<usize, FindError>
    requires { Roomy rows.now.sizes (lengths (work words.old waiting.old slots.old)) }
    ensures { let z = rows.now.sizes in
        let before = lent list.old (work words.old waiting.old slots.old) in
        let after = lent list.new (work words.new waiting.new slots.new) in
        ((s : List ℤ) → HasBoth (lattice z s) rows.now.sides.now rows.now.cubes.now
        → FindsPast (lattice z s) before (found_told result) after) }
{
    let mut found = [0u64; 4096];
    let mut vis = [0u64; 4096];
    let mut due = [0u64; 4096];
    marking::mark_crossed(rows, &mut found);
    let n = gather::scan_lattice(rows, &found, &mut vis, &mut due, waiting, slots);
    if n == 0 {
        return Err(FindError::Refused(Refusal::NotCrossed));
    }
    let listed = put_list(&slots[..n], list);
    clear::clear_work(rows.sizes, words, waiting, slots);
    listed
}

// The lowest cube of each piece by rising number, and how many they are, or the first test that fails.
pub fn find(
    samples: &[i16],
    sizes: Sizes,
    list: &mut [u32],
    words: &mut [u16],
    waiting: &mut [u32],
    slots: &mut [u32],
) -> Result<usize, FindError>
    ensures { let before = lent list.old (work words.old waiting.old slots.old) in
        let after = lent list.new (work words.new waiting.new slots.new) in
        Finds (lattice sizes samples.now) before (found_told result) after }
{
    ready::shape(samples, sizes, words.len(), waiting.len(), slots.len())?;
    let mut rows = [0u64; 4096];
    let mut may = [0u64; 4096];
    sampling::sample_rows(&Volume { sizes, samples }, &mut rows, &mut may);
    sampling::free_rows(sizes, &mut may);
    let rows = Rows {
        sizes,
        sides: &rows,
        cubes: &may,
    };
    find_past(&rows, list, words, waiting, slots)
}
