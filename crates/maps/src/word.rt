// Eight bytes of a map as a 64-bit word: bit b of the word from byte j on is bit 8j + b of the map. A compiler makes one load or store of it.
// A word goes by the number of its first byte or bit, as its callers count them: to cut the slice first would be a line more for each.
ghost use Rattle.std.specs.Prelude.{◌≡◌, ◌+◌, ◌-◌, ◌*◌, ◌/◌, ◌%◌, ◌<◌, ◌≤◌, length};
ghost use Rattle.model.specs.declared.Operation.TheVariants.{Xor};
ghost use Rattle.model.specs.Positions.{combined};
ghost use Rattle.model.specs.Bytes.{bits, map_bit};
ghost use Rattle.maps.specs.Painted.{Puts};

// The word of the eight bytes from j on.
pub fn word_at(bytes: &[u8], j: usize) -> u64
    requires { j + 8 ≤ length bytes.now }
    ensures { result ≡ bits (map_bit bytes.now) (8 * j) 64 }
{
    let word = <[u8; 8]>::try_from(&bytes[j..j + 8]).unwrap();
    u64::from_le_bytes(word)
}

// Stores a word as the eight bytes from j on.
pub fn put_word(out: &mut [u8], j: usize, v: u64)
    requires { j + 8 ≤ length out.old }
    ensures { Puts out.old out.new j 8 v }
{
    out[j..j + 8].copy_from_slice(&v.to_le_bytes());
}

// The bits from i on, to the end of the word that bit i is in, that have not the value: bit i is the lowest of them.
pub fn others(bytes: &[u8], i: u64, value: bool) -> u64
    requires { i / 64 < length bytes.now / 8 }
    ensures { result ≡ bits (combined Xor (map_bit bytes.now) (λ x. value)) i (64 - i % 64) }
{
    let w = word_at(bytes, (i / 64 * 8) as usize);
    let differ = if value { !w } else { w };
    differ >> (i % 64)
}
