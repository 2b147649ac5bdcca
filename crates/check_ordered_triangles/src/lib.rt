// A file's triangles against those of the sheet, in the sheet's own order.
#![tactic(auto)]

ghost use Rattle.std.specs.Prelude.{◌≡◌, true, ◌+◌, ◌*◌, ◌≤◌, ◌<◌, IfSome, length, take, drop};
ghost use Rattle.paper.specs.File.{file_triangles};
ghost use Rattle.tiles.specs.Tiles.{source, row_tiles_at, layer_tiles, tiles_by};
ghost use Rattle.check_ordered.specs.Ordered.{Follows};

use layout::SheetFile;
use tiles::Tiling;

// Whether the numbers of the triangles from number `at` on begin with these words. It looks at all, by index, so that many are compared in
// a turn.
fn same_words(file: &SheetFile, at: usize, words: &[u32]) -> bool
    requires { at + length words.now ≤ 3 * file.now.triangles }
    ensures { result ≡ true → take (length words.now) (drop at (file_triangles file.now.bytes.now)) ≡ words.now }
{
    let mut same = true;
    for i in 0..words.len() {
        same &= file.triangle_word(at + i) == words[i];
    }
    same
}

// The place behind the triangles of the row of cubes at y and z, where the file has them from place `at` on; they are written to the front
// of a slice.
fn behind_row(
    tiling: &Tiling,
    y: usize,
    z: usize,
    file: &SheetFile,
    row: &mut [u32],
    at: usize,
) -> Option<usize>
    requires fact { (y + 1 < tiling.now.rows.sizes.ny) × (z + 1 < tiling.now.rows.sizes.nz) }
    requires at_le_end { (at ≤ 3 * file.now.triangles) × (2304 ≤ length row.old) }
    ensures { let S = source tiling.now.table.now tiling.now.counts.now tiling.now.slots.now in
        let new = row_tiles_at S tiling.now.rows.sizes tiling.now.rows.sides.now tiling.now.rows.cubes.now y z in
        IfSome result (λ next. (next ≤ 3 * file.now.triangles) × Follows (file_triangles file.now.bytes.now) at new next) }
{
    let n = tiling.put_row_at(y, z, row, 0);
    if 3 * file.triangles < at + n {
        return None;
    }
    if same_words(file, at, &row[..n]) {
        Some(at + n)
    } else {
        None
    }
}

// The same for the triangles of the cubes of layer z.
fn behind_layer(
    tiling: &Tiling,
    z: usize,
    file: &SheetFile,
    row: &mut [u32],
    at: usize,
) -> Option<usize>
    requires fact { z + 1 < tiling.now.rows.sizes.nz }
    requires at_le_end { (at ≤ 3 * file.now.triangles) × (2304 ≤ length row.old) }
    ensures { let S = source tiling.now.table.now tiling.now.counts.now tiling.now.slots.now in
        let new = layer_tiles S tiling.now.rows.sizes tiling.now.rows.sides.now tiling.now.rows.cubes.now z in
        IfSome result (λ next. (next ≤ 3 * file.now.triangles) × Follows (file_triangles file.now.bytes.now) at new next) }
{
    let mut next = at;
    for y in 0..tiling.rows.sizes.ny - 1 {
        next = behind_row(tiling, y, z, file, row, next)?;
    }
    Some(next)
}

// The same for the triangles of all cubes that the rows have, from the first place on.
fn behind_layers(tiling: &Tiling, file: &SheetFile, row: &mut [u32]) -> Option<usize>
    requires { 2304 ≤ length row.old }
    ensures { let S = source tiling.now.table.now tiling.now.counts.now tiling.now.slots.now in
        let new = tiles_by S tiling.now.rows.sizes tiling.now.rows.sides.now tiling.now.rows.cubes.now in
        IfSome result (λ next. Follows (file_triangles file.now.bytes.now) 0 new next) }
{
    let mut next = 0;
    for z in 0..tiling.rows.sizes.nz - 1 {
        next = behind_layer(tiling, z, file, row, next)?;
    }
    Some(next)
}

// Whether the file's triangles are those of the cubes that the rows have, in their own order.
pub fn same_triangles(tiling: &Tiling, file: &SheetFile) -> bool
    ensures { let S = source tiling.now.table.now tiling.now.counts.now tiling.now.slots.now in
        let new = tiles_by S tiling.now.rows.sizes tiling.now.rows.sides.now tiling.now.rows.cubes.now in
        (result ≡ true → file_triangles file.now.bytes.now ≡ new) }
{
    let mut row = [0u32; 2304];
    match behind_layers(tiling, file, &mut row) {
        Some(next) => next == 3 * file.triangles,
        None => false,
    }
}
