// What stands for the runs of `#` in a name: a minus, the whole part, and a fraction.

ghost use Rattle.std.specs.Prelude.{◌≡◌, ◌&&◌, ◌+◌, ◌≤◌, ◌<◌, ◌^◌, max, T, ltb, length};
ghost use Rattle.gf.specs.Doubles.{storable};
ghost use Rattle.definitions.specs.Names as Names;
ghost use Rattle.names.specs.Pattern.{width_of, with_dot};
ghost use Rattle.names.specs.Put.{put};
ghost use Rattle.names.specs.Body.{body_of, sign_of, pointed};

use crate::magnitude::Magnitude;
use crate::pattern::Pattern;

// `width` digits of `whole`, then a `.` and `fraction` digits of `rest`, or nothing where
// `fraction` is 0.
#[derive(Clone, Copy)]
pub struct Body {
    pub minus: bool,
    pub width: usize,
    pub whole: u64,
    pub fraction: usize,
    pub rest: u64,
}

// Zero has no minus, whatever its sign bit.
fn has_minus(m: Magnitude, n: u64) -> bool
    ensures { result ≡ (m.negative && ltb 0 n) }
{
    m.negative && 0 < n
}

// Truncated toward zero, zeros to the width, the minus counted.
fn whole_body(width: usize, x: f64) -> Body
    requires { T (storable x) × (1 ≤ width) }
    ensures { body_of result ≡ Names.whole_body width x }
{
    let m = crate::magnitude::measure(x);
    let n = crate::magnitude::whole(m);
    let minus = has_minus(m, n);
    let width = (width - sign_length(minus)).max(crate::digits::places(n));
    Body {
        minus,
        width,
        whole: n,
        fraction: 0,
        rest: 0,
    }
}

// Rounded to k digits, zeros to the width, the minus not counted.
fn fraction_body(width: usize, k: usize, x: f64) -> Body
    requires { T (storable x) × (0 < k) × (k ≤ 6) }
    ensures { body_of result ≡ Names.fraction_body width k x }
{
    let m = crate::magnitude::measure(x);
    let n = crate::magnitude::decimals(m, k);
    let ten = 10u64.pow(k as u32);
    let whole = n / ten;
    Body {
        minus: m.negative,
        width: width.max(crate::digits::places(whole)),
        whole,
        fraction: k,
        rest: n % ten,
    }
}

// The body at x of a readable pattern.
pub fn body_at(p: Pattern, x: f64) -> Body
    requires { T (storable x) × (1 ≤ p.width) × (p.fraction ≤ 6) }
    ensures { body_of result ≡ Names.body p.width (width_of p.fraction) x }
{
    let k = p.fraction;
    if k == 0 {
        return whole_body(p.width, x);
    }
    fraction_body(p.width, k, x)
}

// How many bytes the minus takes.
fn sign_length(minus: bool) -> usize
    ensures { result ≡ length (sign_of minus) }
{
    usize::from(minus)
}

// How many bytes k digits and their `.` take.
pub fn fraction_length(k: usize) -> usize
    requires { with_dot k < 2 ^ 64 }
    ensures { result ≡ with_dot k }
{
    if k == 0 { 0 } else { k + 1 }
}

// How many bytes a body takes.
pub fn body_length(b: Body) -> usize
    requires { length (body_of b) ≤ 268 }
    ensures { result ≡ length (body_of b) }
{
    sign_length(b.minus) + b.width + fraction_length(b.fraction)
}

fn put_sign(minus: bool, out: &mut [u8], at: usize)
    requires { at + length (sign_of minus) ≤ length out.old }
    ensures { out.new ≡ put out.old at (sign_of minus) }
{
    if minus {
        out[at] = b'-';
    }
}

fn put_fraction(k: usize, n: u64, out: &mut [u8], at: usize)
    requires { at + with_dot k ≤ length out.old }
    ensures { out.new ≡ put out.old at (pointed k n) }
{
    if k == 0 {
        return;
    }
    out[at] = b'.';
    crate::digits::put_digits(n, k, out, at + 1);
}

// Writes a body from the slot `at` on.
pub fn put_body(b: Body, out: &mut [u8], at: usize)
    requires { at + length (body_of b) ≤ length out.old }
    ensures { out.new ≡ put out.old at (body_of b) }
{
    put_sign(b.minus, out, at);
    let whole = at + sign_length(b.minus);
    crate::digits::put_digits(b.whole, b.width, out, whole);
    put_fraction(b.fraction, b.rest, out, whole + b.width);
}
