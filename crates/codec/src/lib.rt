// Numbers as bytes, the low one first, and slices of them.
#![tactic(auto)]

ghost use Rattle.std.specs.Prelude.{◌≡◌, List, map, ℕ, ◌+◌, ◌*◌, ◌≤◌, length};
ghost use Rattle.std.proofs.Common.{rules};
ghost use Rattle.std.proofs.lemmas.List.Edits.{sets};
ghost use Rattle.lists.specs.Lists.{range, each};
ghost use Rattle.lists.specs.Bytes.{le, signed, field};
ghost use Rattle.paper.specs.File.{signed32};
ghost use Rattle.codec.specs.Words.{half_bytes, word_bytes};

// A number that stands in a file as its bytes.
pub trait Number: Copy {
    // how many bytes it has
    ghost SIZE: { ℕ };

    const SIZE: usize;

    // its bytes, and the number whose bytes give n
    ghost bytes: { Self → List ℕ };

    ghost of: { ℕ → Self };

    // Stores it from `at` on.
    fn put(self, out: &mut [u8], at: usize)
        requires { at + SIZE ≤ length out.old }
        ensures { out.new ≡ sets out.old at (bytes self) };

    // The one that stands at a place.
    fn get(s: &[u8], at: usize) -> Self
        requires { at + SIZE ≤ length s.now }
        ensures { result ≡ of (field SIZE s.now at) };

    ghost wide: { (x : Self) → length (bytes x) ≡ SIZE };
}

// An impl for each type, written out: none may be written by a macro of the repository's own.

impl Number for u16 {
    ghost SIZE = { 2 };

    const SIZE: usize = 2;

    ghost bytes = { le 2 };

    ghost of = { λ n. n };

    fn put(self, out: &mut [u8], at: usize) {
        out[at..at + 2].copy_from_slice(&self.to_le_bytes());
    }

    #[tactic(auto, using(crate::proofs::Bytes::field_two))]
    fn get(s: &[u8], at: usize) -> u16 {
        u16::from_le_bytes([s[at], s[at + 1]])
    }

    ghost wide = { λ x. Prim.search rules };
}

impl Number for u32 {
    ghost SIZE = { 4 };

    const SIZE: usize = 4;

    ghost bytes = { le 4 };

    ghost of = { λ n. n };

    #[tactic(auto, using(crate::proofs::Bytes::le_four, crate::proofs::Runs::put_sets))]
    fn put(self, out: &mut [u8], at: usize) {
        out[at..at + 4].copy_from_slice(&self.to_le_bytes());
    }

    #[tactic(auto, using(crate::proofs::Bytes::field_four))]
    fn get(s: &[u8], at: usize) -> u32 {
        u32::from_le_bytes([s[at], s[at + 1], s[at + 2], s[at + 3]])
    }

    ghost wide = { λ x. Prim.search rules };
}

impl Number for i16 {
    ghost SIZE = { 2 };

    const SIZE: usize = 2;

    ghost bytes = { half_bytes };

    ghost of = { signed 32768 };

    #[tactic(auto, using(crate::proofs::Signed::halves_are))]
    fn put(self, out: &mut [u8], at: usize) {
        self.cast_unsigned().put(out, at);
    }

    #[tactic(auto, using(crate::proofs::Signed::half_is))]
    fn get(s: &[u8], at: usize) -> i16 {
        u16::get(s, at).cast_signed()
    }

    ghost wide = { λ x. Prim.search rules };
}

impl Number for i32 {
    ghost SIZE = { 4 };

    const SIZE: usize = 4;

    ghost bytes = { word_bytes };

    ghost of = { signed32 };

    #[tactic(auto, using(crate::proofs::Signed::bits_are))]
    fn put(self, out: &mut [u8], at: usize) {
        self.cast_unsigned().put(out, at);
    }

    #[tactic(auto, using(crate::proofs::Signed::word_is))]
    fn get(s: &[u8], at: usize) -> i32 {
        u32::get(s, at).cast_signed()
    }

    ghost wide = { λ x. Prim.search rules };
}

// The numbers of v as bytes, from `at` on. By index, which also says where a number stands.
pub fn put_all<T: Number>(out: &mut [u8], at: usize, v: &[T])
    requires { at + T.SIZE * length v.now ≤ length out.old }
    ensures { out.new ≡ sets out.old at (each T.bytes v.now) }
{
    for i in 0..v.len() {
        v[i].put(out, at + T::SIZE * i);
    }
}

// As many numbers as v holds, from the bytes from `at` on. By index: of what is written through iter_mut a proof knows the length only.
pub fn get_all<T: Number>(s: &[u8], at: usize, v: &mut [T])
    requires { at + T.SIZE * length v.old ≤ length s.now }
    ensures { v.new ≡ map (λ i. T.of (field T.SIZE s.now (at + T.SIZE * i))) (range 0 (length v.old)) }
{
    for i in 0..v.len() {
        v[i] = T::get(s, at + T::SIZE * i);
    }
}
