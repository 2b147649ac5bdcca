// Tests 17 to 19 of a file whose records and triangles may be in any order.
#![tactic(auto)]

ghost use Rattle.std.specs.Prelude.{◌≤◌, length};
ghost use Rattle.lists.specs.Lists.{Beyond};
ghost use Rattle.paper.specs.Lattice.{lattice};
ghost use Rattle.paper.specs.Room.{work, lengths, needed, needed_slots};
ghost use Rattle.paper.specs.Within.{Roomy};
ghost use Rattle.paper.specs.Refused.{verdict_told};
ghost use Rattle.layout.specs.Laid.{LaidOut};
ghost use Rattle.spread.specs.Flooded.{Standing};
ghost use Rattle.check_triangles.specs.Words.{words_by};
ghost use Rattle.check_any_order.specs.Checked.{Compared, Comparable, Answers};

use lattice::Volume;
use layout::SheetFile;
use paper::{Refusal, Rule};
use rows::Surface;
use tally::Counts;

// Tests 17 to 19 on numbered slots and an empty waiting list.
fn compare(
    rule: Rule,
    surface: &Surface,
    file: &SheetFile,
    counts: Counts,
    waiting: &mut [u32],
    slots: &mut [u32],
) -> Result<(), Refusal>
    requires { let w = surface.now.rows in
        let lent = work (words_by w.sizes w.sides.now w.cubes.now) waiting.old slots.old in
        Comparable (lattice w.sizes surface.now.samples.now) file.now.bytes.now lent × Roomy w.sizes (lengths lent) }
    ensures { let w = surface.now.rows in
        let words = words_by w.sizes w.sides.now w.cubes.now in
        let before = work words waiting.old slots.old in
        let after = work words waiting.new slots.new in
        Compared rule (lattice w.sizes surface.now.samples.now) file.now.bytes.now counts before (verdict_told result) after }
{
    let volume = Volume {
        sizes: surface.rows.sizes,
        samples: surface.samples,
    };
    if let Some(i) = check_records::first_bad(rule, &volume, file, slots) {
        return Err(Refusal::Record(i));
    }
    if let Some(j) = check_triangles::first_bad(file, &surface.rows, waiting) {
        return Err(Refusal::Triangle(j));
    }
    if file.vertices != counts.vertices || file.triangles != counts.triangles {
        return Err(Refusal::Absent);
    }
    Ok(())
}

// Tests 17 to 19, with the file's records and triangles in any order.
pub fn in_any_order(
    rule: Rule,
    surface: &Surface,
    file: &SheetFile,
    waiting: &mut [u32],
    slots: &mut [u32],
) -> Result<(), Refusal>
    requires standing { let w = surface.now.rows in
        Standing (lattice w.sizes surface.now.samples.now) w.sides.now w.cubes.now × LaidOut file.now.bytes.now }
    requires room { let n = surface.now.rows.sizes in (needed n ≤ length waiting.old) × (needed_slots n ≤ length slots.old) }
    ensures { let w = surface.now.rows in
        Answers rule (lattice w.sizes surface.now.samples.now) w.sides.now w.cubes.now file.now.bytes.now (verdict_told result)
        × Beyond (needed w.sizes) waiting.old waiting.new
        × Beyond (needed_slots w.sizes) slots.old slots.new }
{
    let sizes = surface.rows.sizes;
    let n = lattice::cube_count(sizes);
    waiting[..n].fill(0);
    let m = lattice::sample_count(sizes);
    slots[..7 * m].fill(0);
    check_slots::number_slots(surface, slots);
    let counts = tally::counts_of(&surface.rows);
    compare(rule, surface, file, counts, waiting, slots)
}
