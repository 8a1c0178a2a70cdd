// The place where the inverse times of ascending samples pass a time, in one segment: they rise or fall with the samples.

ghost use Rattle.std.specs.Prelude.{◌≡◌, true, false, ℕ, suc, ◌≤◌, ◌<◌, length, get_or};
ghost use Rattle.std.specs.Float.{nan};
ghost use Rattle.definitions.specs.Explicit.{knot};
ghost use Rattle.window.specs.nearest.Crossings.{is_beyond, Crossing};

use gf::segment::inverse;

// Whether the sample `c` lies behind the place.
fn is_beyond(sa: f64, ca: f64, sb: f64, cb: f64, c: f64, t: f64) -> bool
    ensures { result ≡ is_beyond t (knot sa ca, knot sb cb) c }
{
    if ca < cb {
        if cb < c {
            return true;
        }
        if c < ca {
            return false;
        }
        return t < inverse(sa, sb, ca, cb, c);
    }
    if ca < c {
        return true;
    }
    if c < cb {
        return false;
    }
    inverse(sa, sb, ca, cb, c) <= t
}

// The sample at `n` lies behind the place, or there is none at `n`.
fn begins_at(cs: &[f64], sa: f64, ca: f64, sb: f64, cb: f64, t: f64, n: usize) -> bool
    ensures nan_value { (result ≡ true) → n < length cs.now → is_beyond t (knot sa ca, knot sb cb) (get_or cs.now n nan) ≡ true }
    ensures n_in_bounds { (result ≡ false) → (n < length cs.now) × (is_beyond t (knot sa ca, knot sb cb) (get_or cs.now n nan) ≡ false) }
{
    cs.len() <= n || is_beyond(sa, ca, sb, cb, cs[n], t)
}

// `n` is a place in the list or its end, and the sample before it, if there is one, lies before the place.
fn ends_before(cs: &[f64], sa: f64, ca: f64, sb: f64, cb: f64, t: f64, n: usize) -> bool
    ensures { (result ≡ true) → (n ≤ length cs.now) × ((i : ℕ) → suc i ≡ n → is_beyond t (knot sa ca, knot sb cb) (get_or cs.now i nan) ≡ false) }
{
    if cs.len() < n {
        return false;
    }
    n == 0 || !is_beyond(sa, ca, sb, cb, cs[n - 1], t)
}

// The place, by bisection. Std's `partition_point` says its place of parted lists alone, and this one is right in any.
fn search_crossing(cs: &[f64], sa: f64, ca: f64, sb: f64, cb: f64, t: f64) -> usize
    ensures { Crossing (is_beyond t (knot sa ca, knot sb cb)) cs.now result }
{
    let mut lo: usize = 0;
    let mut hi = cs.len();
    while lo < hi {
        let mid = lo + (hi - lo) / 2;
        if is_beyond(sa, ca, sb, cb, cs[mid], t) {
            hi = mid;
        } else {
            lo = mid + 1;
        }
    }
    lo
}

// The place, looked for at the hint, behind it and before it: as a segment rises or falls it moves on or back.
pub fn crossing(cs: &[f64], sa: f64, ca: f64, sb: f64, cb: f64, t: f64, hint: usize) -> usize
    ensures { Crossing (is_beyond t (knot sa ca, knot sb cb)) cs.now result }
{
    if !begins_at(cs, sa, ca, sb, cb, t, hint) {
        if begins_at(cs, sa, ca, sb, cb, t, hint + 1) {
            return hint + 1;
        }
        return search_crossing(cs, sa, ca, sb, cb, t);
    }
    if ends_before(cs, sa, ca, sb, cb, t, hint) {
        return hint;
    }
    if 0 < hint
        && begins_at(cs, sa, ca, sb, cb, t, hint - 1)
        && ends_before(cs, sa, ca, sb, cb, t, hint - 1)
    {
        return hint - 1;
    }
    search_crossing(cs, sa, ca, sb, cb, t)
}
