// The padding bits of a map of n positions, those from bit n on: how many are one, and zeroing them.
// n is how many bits of the bytes are used, which their length does not tell.
ghost use Rattle.std.specs.Prelude.{◌≡◌, ◌≤◌, length};
ghost use Rattle.model.specs.Bytes.{map_length, stray_bits};
ghost use Rattle.codec.specs.Padding.{Clears};

// How many padding bits are one. They are the last byte's from bit n % 8 on, and whole bytes have none.
#[tactic(auto, using(crate::proofs::LastByte::stray_none, crate::proofs::LastByte::stray_last))]
pub fn stray_bits(bytes: &[u8], n: u64) -> u64
    requires le_n { 1 ≤ n }
    requires bytes_len { length bytes.now ≡ map_length n }
    ensures { result ≡ stray_bits n bytes.now }
{
    let used = n % 8;
    if used == 0 {
        return 0;
    }
    let last = bytes[bytes.len() - 1];
    u64::from((last >> used).count_ones())
}

// Zeroes the padding bits, and returns how many were one. Only the last byte is written, and that only where one was.
#[tactic(auto, using(crate::proofs::LastByte::stray_some, crate::proofs::LastByte::used_clears, crate::proofs::LastByte::clear_same))]
pub fn clear(bytes: &mut [u8], n: u64) -> u64
    requires le_n { 1 ≤ n }
    requires bytes_len { length bytes.old ≡ map_length n }
    ensures { Clears n bytes.old result bytes.new }
{
    let found = stray_bits(bytes, n);
    if found > 0 {
        let last = bytes.len() - 1;
        bytes[last] %= 1 << (n % 8);
    }
    found
}
