// Listings one after another, to hold the printed text to what it should be: standard input has, for each, its byte count (u16) and its
// bytes, as the listing program would read them. They are, in this order: five bytes; an axis of 9 and an axis of 1, with all their
// samples; document 01's example with a byte more, and with a byte less; samples that are all 0; air and solid in turn, which gives
// 1,687 vertices; a sheet with many handles, 966 vertices and yet 2,004 triangles; document 01's example; 5 x 4 x 3 samples from -32,767
// to 32,767; the same with the fill for each -32,767, which leaves no cube free of it; and 3 x 3 x 3 samples with air in the middle and
// the fill at (0, 0, 0).
#![tactic(auto)]

use std::io;

// The listings of the bytes, each as long as its count says, so a `while`. Where a write fails, the listings before it are written, and the answer is the system's error.
fn each(rt: &impl Print, input: &[u8]) -> io::Result<()> {
    let mut rest = input;
    while let Some((count, after)) = rest.split_first_chunk() {
        let n = usize::from(u16::from_le_bytes(*count));
        let Some((listing, others)) = after.split_at_checked(n) else {
            break;
        };
        printer::listing(rt, listing)?;
        rest = others;
    }
    Ok(())
}

fn main(rt: HostRuntime) -> io::Result<()> {
    let mut input = [0u8; 4096];
    let n = printer::read_input(&rt, &mut input)?;
    each(&rt, &input[..n])
}
