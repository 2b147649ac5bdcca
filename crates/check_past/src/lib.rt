// A check past test 16: in the sheet's own order, and where that fails in any order.
#![tactic(auto)]

ghost use Rattle.std.specs.Prelude.{◌≡◌, true, ◌≤◌, ◌<◌, T, length};
ghost use Rattle.lists.specs.Lists.{Beyond};
ghost use Rattle.paper.specs.Lattice.{lattice, cubes, crossed};
ghost use Rattle.paper.specs.Room.{work, lengths, needed, needed_slots, clean};
ghost use Rattle.paper.specs.Within.{Full, Roomy};
ghost use Rattle.paper.specs.Tests.{judge};
ghost use Rattle.paper.specs.Refused.{verdict_told};
ghost use Rattle.layout.specs.Laid.{LaidOut};
ghost use Rattle.rows.specs.Rows.{HasBoth};
ghost use Rattle.spread.specs.Flooded.{Standing};
ghost use Rattle.check_any_order.specs.Checked.{last_tests, Accepts, Answers};

use layout::SheetFile;
use paper::{Refusal, Rule};
use rows::{Rows, Surface};
use tiles::Tiling;

// Whether the file has the numbers of the sheet in the sheet's own order.
fn in_order(rule: Rule, surface: &Surface, file: &SheetFile, slots: &mut [u32]) -> bool
    requires standing { let w = surface.now.rows in
        Standing (lattice w.sizes surface.now.samples.now) w.sides.now w.cubes.now × LaidOut file.now.bytes.now }
    requires room { needed_slots surface.now.rows.sizes ≤ length slots.old }
    ensures { let w = surface.now.rows in
        (result ≡ true → Accepts rule (lattice w.sizes surface.now.samples.now) w.sides.now w.cubes.now file.now.bytes.now)
        × Beyond (needed_slots w.sizes) slots.old slots.new }
{
    if !check_ordered_records::same_vertices(rule, surface, file, slots) {
        return false;
    }
    let mut table = [0u16; 9216];
    let mut counts = [0usize; 256];
    patterns::pattern_table(surface.rows.sizes, &mut table, &mut counts);
    let tiling = Tiling {
        table: &table,
        counts: &counts,
        slots,
        rows: surface.rows,
    };
    check_ordered_triangles::same_triangles(&tiling, file)
}

// Tests 17 to 19.
fn last_tests(
    rule: Rule,
    surface: &Surface,
    file: &SheetFile,
    waiting: &mut [u32],
    slots: &mut [u32],
) -> Result<(), Refusal>
    requires standing { let w = surface.now.rows in
        Standing (lattice w.sizes surface.now.samples.now) w.sides.now w.cubes.now × LaidOut file.now.bytes.now }
    requires room { let n = surface.now.rows.sizes in (needed n ≤ length waiting.old) × (needed_slots n ≤ length slots.old) }
    ensures { let w = surface.now.rows in
        Answers rule (lattice w.sizes surface.now.samples.now) w.sides.now w.cubes.now file.now.bytes.now (verdict_told result)
        × Beyond (needed w.sizes) waiting.old waiting.new
        × Beyond (needed_slots w.sizes) slots.old slots.new }
{
    if in_order(rule, surface, file, slots) {
        return Ok(());
    }
    check_any_order::in_any_order(rule, surface, file, waiting, slots)
}

// Tests 17 to 19 of the sheet from cube k, a crossed one, on work slices that are then cleared; the rows have the cubes that may be
// visited. One lifetime is named: the surface of the visited cubes holds the samples beside the rows.
pub fn check_from<'a>(
    rule: Rule,
    samples: &'a [i16],
    rows: &Rows<'a>,
    k: usize,
    file: &SheetFile,
    words: &mut [u16],
    waiting: &mut [u32],
    slots: &mut [u32],
) -> Result<(), Refusal>
    requires begun { let L = lattice rows.now.sizes samples.now in
        Full L × HasBoth L rows.now.sides.now rows.now.cubes.now × (k < cubes rows.now.sizes) × T (crossed L k)
        × LaidOut file.now.bytes.now }
    requires roomy { Roomy rows.now.sizes (lengths (work words.old waiting.old slots.old)) }
    ensures { let n = rows.now.sizes in
        let before = work words.old waiting.old slots.old in
        let after = work words.new waiting.new slots.new in
        (verdict_told result ≡ judge (last_tests rule (lattice n samples.now) k file.now.bytes.now)) × (after ≡ clean n before) }
{
    let mut vis = [0u64; 4096];
    spread::visit(rows, k, &mut vis[..], waiting);
    let visited = Surface {
        samples,
        rows: Rows {
            sizes: rows.sizes,
            sides: rows.sides,
            cubes: &vis[..],
        },
    };
    let answer = last_tests(rule, &visited, file, waiting, slots);
    clear::clear_work(rows.sizes, words, waiting, slots);
    answer
}
