// Reading a written set: the version byte, the number of runs as 4 bytes, then start and end of each run, 8 bytes each, as the edition arranges
// them.
ghost use Rattle.std.specs.Prelude.{◌≡◌, ◌+◌, ◌*◌, ◌≤◌};
ghost use Rattle.codec.specs.Parsed.{TellsShape, TellsRuns};

use crate::told::Told;
use model::{Edition, Refusal};
use run_lists::in_order;

// The tests that a set has to pass to be mended: its length is five at least, its version known, and its length as its runs ask.
pub fn shape_told(bytes: &[u8]) -> Result<Told<'_>, Refusal>
    ensures { TellsShape bytes.now result }
{
    if bytes.len() < 5 {
        return Err(Refusal::SetLength);
    }
    // a match and no TryFrom, whose error would be made only to be turned into this refusal
    let edition = match bytes[0] {
        1 => Edition::Rows,
        2 => Edition::Columns,
        _ => return Err(Refusal::SetVersion),
    };
    let count = crate::numbers::get_count(bytes, 1);
    if bytes.len() as u64 != 5 + 16 * count {
        return Err(Refusal::SetLength);
    }
    Ok(Told {
        bytes,
        edition,
        count,
    })
}

// And to be read: its runs are in order too.
pub fn runs_told(bytes: &[u8]) -> Result<Told<'_>, Refusal>
    ensures { TellsRuns bytes.now result }
{
    let told = shape_told(bytes)?;
    if !in_order(told) {
        return Err(Refusal::RunOrder);
    }
    Ok(told)
}

// How many bytes n runs need.
pub fn length_of(n: u64) -> u64
    requires { n ≤ 65568 }
    ensures { result ≡ 5 + 16 * n }
{
    5 + 16 * n
}
