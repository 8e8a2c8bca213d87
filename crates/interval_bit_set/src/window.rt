// Windows, and the length of their maps: what calls on them test first.
ghost use Rattle.std.specs.Prelude.{◌≡◌, not, ◌≤◌};
ghost use Rattle.model.specs.Numbers.{longest};
ghost use Rattle.model.specs.Refusals.{bad_window, bad_map};

// The longest window.
const LONGEST: u64 = 524288;

// Whether a window is one: a length from 1 to 524,288, and all of it below 2^64.
pub fn window_fits(base: u64, length: u64) -> bool
    ensures { result ≡ not (bad_window base length) }
{
    if length == 0 {
        return false;
    }
    if length > LONGEST {
        return false;
    }
    length - 1 <= u64::MAX - base
}

// Whether a map has as many bytes as its window needs.
pub fn map_length_fits(bytes: &[u8], n: u64) -> bool
    requires { n ≤ longest }
    ensures { result ≡ not (bad_map n bytes.now) }
{
    bytes.len() as u64 == n.div_ceil(8)
}
