// The total order of bit patterns by arithmetic. It asks for a pattern and not for a double, since a NaN's sign and payload
// cannot be had from a double.

ghost use Rattle.std.specs.Prelude.{◌≡◌};
ghost use Rattle.gf.specs.TotalOrder.{key_of, PlacedBy, Compared};

use std::cmp::Ordering;

// A number that is lower exactly if the pattern comes earlier. Nothing branches on the sign: it is a factor, 0 or 1.
pub fn key(bits: u64) -> u64
    ensures { (result ≡ key_of bits) × PlacedBy bits result }
{
    let sign = bits >> 63;
    let size = bits & 0x7fff_ffff_ffff_ffff;
    // with the sign set the greater size comes first, and even -0.0 is below the key of 0.0
    let turned = 0x7fff_ffff_ffff_ffff - size;
    (1 - sign) * (0x8000_0000_0000_0000 + size) + sign * turned
}

// How the first of two patterns stands to the second.
pub fn compare(a: u64, b: u64) -> Ordering
    ensures { Compared a b result }
{
    key(a).cmp(&key(b))
}
