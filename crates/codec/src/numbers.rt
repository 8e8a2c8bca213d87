// Numbers as bytes, big-endian.
// Bytes go by numbers, since in edition 2 those of a word stand apart, which no slice can say.
// A count's always stand in a row, so it has functions of its own.
ghost use Rattle.std.specs.Prelude.{◌≡◌, ◌+◌, ◌*◌, ◌≤◌, ◌<◌, length, take, drop};
ghost use Rattle.model.specs.Bytes.{big_endian, value_of};
ghost use Rattle.codec.specs.Placed.{placed, strewn, picked};

// Writes a number below 2^32 as 4 bytes.
#[tactic(auto, using(crate::proofs::Digits::count_placed))]
pub fn put_count(out: &mut [u8], at: usize, n: u64)
    requires { at + 4 ≤ length out.old }
    ensures { out.new ≡ placed at (big_endian 4 n) out.old }
{
    out[at..at + 4].copy_from_slice(&n.to_be_bytes()[4..]);
}

// The number that 4 bytes are.
#[tactic(auto, using(crate::proofs::Digits::count_value))]
pub fn get_count(bytes: &[u8], at: usize) -> u64
    requires { at + 4 ≤ length bytes.now }
    ensures { result ≡ value_of (take 4 (drop at bytes.now)) }
{
    u32::from_be_bytes([bytes[at], bytes[at + 1], bytes[at + 2], bytes[at + 3]]) as u64
}

// Writes a number as 8 bytes that stand `step` apart. Inlined, so that where the step is 1 it is one store.
#[inline(always)]
pub fn put_word(out: &mut [u8], at: usize, step: usize, n: u64)
    requires { at + 7 * step < length out.old }
    ensures { out.new ≡ strewn at step (big_endian 8 n) out.old }
{
    let bytes = n.to_be_bytes();
    for j in 0..8 {
        out[at + j * step] = bytes[j];
    }
}

// The number that 8 bytes, `step` apart, are. Inlined, so that where the step is 1 it is one load.
#[inline(always)]
#[tactic(auto, using(crate::proofs::Apart::word_value))]
pub fn get_word(bytes: &[u8], at: usize, step: usize) -> u64
    requires { at + 7 * step < length bytes.now }
    ensures { result ≡ value_of (picked 8 at step bytes.now) }
{
    u64::from_be_bytes([
        bytes[at],
        bytes[at + step],
        bytes[at + 2 * step],
        bytes[at + 3 * step],
        bytes[at + 4 * step],
        bytes[at + 5 * step],
        bytes[at + 6 * step],
        bytes[at + 7 * step],
    ])
}
