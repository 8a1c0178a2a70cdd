// A clip number that is handed over as a double.

ghost use Rattle.std.specs.Prelude.{◌≡◌, ◌<◌, T};
ghost use Rattle.std.specs.Float.Ieee.{le};
ghost use Rattle.gf.specs.Doubles.{0·0, is_whole, truncated, is_clip_number};

use crate::class::is_whole;

// 2^64: from there on a number is above every count.
const BEYOND_COUNTS: f64 = 18446744073709551616.0;

// The whole number `x` as an index. -0.0 is 0.
pub fn to_index(x: f64) -> u64
    requires { T (is_whole x) × T (le 0·0 x) × (truncated x < 0x1_0000_0000_0000_0000) }
    ensures { result ≡ truncated x }
{
    std::num::truncating_f64_to_u64(x)
}

// Whether `x` is the number of one of `clips` clips.
pub fn is_clip_number(x: f64, clips: u64) -> bool
    ensures { result ≡ is_clip_number clips x }
{
    is_whole(x) && 0.0 <= x && x < BEYOND_COUNTS && to_index(x) < clips
}
