// Decimal digits, counted and written.

ghost use Rattle.std.specs.Prelude.{◌≡◌, ◌+◌, ◌≤◌, length};
ghost use Rattle.definitions.specs.Names as Names;
ghost use Rattle.names.specs.Put.{put};

// How many decimal digits n has, 1 for 0.
pub fn places(n: u64) -> usize
    ensures { (result ≡ Names.places n) × (result ≤ 20) }
{
    n.max(1).ilog10() as usize + 1
}

// Writes the last `width` digits of n from the slot `at` on, the last one first.
pub fn put_digits(n: u64, width: usize, out: &mut [u8], at: usize)
    requires { at + width ≤ length out.old }
    ensures { out.new ≡ put out.old at (Names.digits width n) }
{
    let mut left = n;
    for i in (0..width).rev() {
        out[at + i] = b'0' + (left % 10) as u8;
        left /= 10;
    }
}
