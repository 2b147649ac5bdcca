// The ways from a row of cubes: through the gates of the row, and through the doors to the four rows beside it, which then wait.
#![tactic(auto)]

ghost use Rattle.std.specs.Prelude.{◌≡◌, ◌≤◌, ◌<◌, length, get_or, unwrap_or};
ghost use Rattle.paper.specs.Within.{Sized};
ghost use Rattle.bits.specs.Words.{less};
ghost use Rattle.ways.specs.Along.{Filled};
ghost use Rattle.ways.specs.Flow.{flow, wait, sends, Roomy};
ghost use Rattle.ways.specs.Ways.{no_way, way_at, door_by, beside_by, words, rows_of, is_row, RowIn};

use paper::Sizes;
use rows::{Quad, Rows};

// A way out of a row of cubes.
#[derive(Clone, Copy)]
pub struct Out {
    pub to: usize,
    pub door: u64,
}

// The places that open gates lead to from those of `from`.
pub fn filled(from: u64, gate: u64) -> u64
    ensures { Filled from gate result }
{
    // A while: each round makes the next word, until one adds nothing.
    let mut f = from;
    let mut g = f | ((f << 1) & gate) | ((f & gate) >> 1);
    while g != f {
        f = g;
        g = f | ((f << 1) & gate) | ((f & gate) >> 1);
    }
    f
}

// The places f of row r become due, and the row waits, if it does not yet. The words of due places, the list and its height stay three
// parameters: a method of a struct that holds both lent slices would also have to promise that they are the same slices after it.
#[tactic(auto, unfolding(crate::specs::Flow::wait))]
pub fn wait_row(due: &mut [u64], waiting: &mut [u32], h: usize, r: usize, f: u64) -> usize
    requires { (r < length due.old) × (r < 4294967296) × (get_or due.old r 0 ≡ 0 → h < length waiting.old) }
    ensures { let before = flow due.old waiting.old h in
        let after = flow due.new waiting.new result in
        after ≡ wait r f before }
{
    if f == 0 {
        return h;
    }
    let old = due[r];
    due[r] = old | f;
    if old != 0 {
        return h;
    }
    waiting[h] = r as u32;
    h + 1
}

// The places m of row `to` that are not visited become due.
fn send(vis: &[u64], due: &mut [u64], waiting: &mut [u32], h: usize, to: usize, m: u64) -> usize
    requires to_in_bounds { (to < length vis.now) × (to < length due.old) × (to < 4294967296) }
    requires h_in_bounds { get_or due.old to 0 ≡ 0 → h < length waiting.old }
    ensures { let before = flow due.old waiting.old h in
        let after = flow due.new waiting.new result in
        after ≡ wait to (less m (get_or vis.now to 0)) before }
{
    let v = vis[to];
    wait_row(due, waiting, h, to, m & !v)
}

// The way out of row r by door k, where there is one: at the low and the high y end, at the low and the high z end.
#[tactic(auto, unfolding(crate::specs::Ways::is_way, crate::specs::Ways::next_row))]
fn way(z: Sizes, q: Quad, r: usize, k: usize) -> Option<Out>
    requires { Sized z × RowIn z r × (k < 4) }
    ensures { unwrap_or result (no_way r) ≡ way_at z q r k }
{
    let door = q.faces(k + 2);
    match k {
        0 if 0 < r % z.ny => Some(Out { to: r - 1, door }),
        1 if r % z.ny + 2 < z.ny => Some(Out { to: r + 1, door }),
        2 if 0 < r / z.ny => Some(Out { to: r - z.ny, door }),
        3 if r / z.ny + 2 < z.nz => Some(Out { to: r + z.ny, door }),
        _ => None,
    }
}

// The places f of row r pass the doors of the row, to cubes that may be visited.
pub fn pass_doors(
    rows: &Rows,
    q: Quad,
    vis: &[u64],
    due: &mut [u64],
    waiting: &mut [u32],
    height: usize,
    r: usize,
    f: u64,
) -> usize
    requires sized { let z = rows.now.sizes in RowIn z r × (words z ≤ length vis.now) }
    requires roomy { let z = rows.now.sizes in Roomy (words z) (rows_of z) (is_row z) (flow due.old waiting.old height) }
    ensures { let z = rows.now.sizes in
        let before = flow due.old waiting.old height in
        let after = flow due.new waiting.new result in
        after ≡ sends vis.now (door_by z rows.now.cubes.now q r) (beside_by z q r) f 4 before }
{
    let mut h = height;
    for k in 0..4 {
        if let Some(w) = way(rows.sizes, q, r, k) {
            let m = rows.cubes[w.to];
            h = send(vis, due, waiting, h, w.to, f & (w.door & m));
        }
    }
    h
}
