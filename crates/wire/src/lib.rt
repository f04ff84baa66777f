// Words in bytes: unsigned 32-bit numbers, little-endian. Every file number of the gate stands so.
#![tactic(auto)]

ghost use Rattle.std.specs.Prelude.{◌≡◌, ◌++◌, ◌+◌, ◌*◌, ◌≤◌, ◌/◌, length, drop};
ghost use Rattle.wire.specs.Word.{le32};
ghost use Rattle.wire.specs.Put.{put32};
ghost use Rattle.wire.specs.Words.{words};

// The word whose four bytes stand from `at` on.
#[tactic(auto, unfolding(crate::specs::Word::le32))]
pub fn read32(b: &[u8], at: usize) -> u32
    requires { at + 4 ≤ length b.now }
    ensures { result ≡ le32 b.now at }
{
    u32::from_le_bytes([b[at], b[at + 1], b[at + 2], b[at + 3]])
}

// Puts x into the four bytes from `at` on.
#[tactic(auto, using(crate::proofs::Written::written))]
pub fn write32(b: &mut [u8], at: usize, x: u32)
    requires { at + 4 ≤ length b.old }
    ensures { b.new ≡ put32 b.old at x }
{
    b[at..at + 4].copy_from_slice(&x.to_le_bytes());
}

// The whole words of b, to the front of `out`; what lies beyond them stays. How many they are.
pub fn decode(b: &[u8], out: &mut [u32]) -> usize
    requires { length b.now / 4 ≤ length out.old }
    ensures { (result ≡ length b.now / 4) × (out.new ≡ words b.now result ++ drop result out.old) }
{
    let (words, _) = b.as_chunks::<4>();
    // kept: the place counted: after a zip with `iter_mut` a proof knows nothing of what was written.
    for (i, word) in words.iter().enumerate() {
        out[i] = u32::from_le_bytes(*word);
    }
    words.len()
}

// Copies bytes.
// kept: a loop, which the compiler makes a block copy of 32 bytes a turn: the library's copy is a call of `memmove`, a name that the archive for C would need
// from outside, and by its copy of 128 bytes at a time, which is none, a delivery of 16 sheets of 4,000 bytes takes a quarter longer.
pub fn copy(from: &[u8], to: &mut [u8])
    requires { length to.old ≡ length from.now }
    ensures { to.new ≡ from.now }
{
    for i in 0..from.len() {
        to[i] = from[i];
    }
}
