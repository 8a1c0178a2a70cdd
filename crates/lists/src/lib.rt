// Lists of times as they are lent: tests over the whole list, and the search in an ascending one.

#![tactic(auto)]

pub mod insertion;
pub mod near;
pub mod places;
pub mod radix;
pub mod segment;
pub mod sorting;
pub mod writing;

ghost use Rattle.std.specs.Prelude.{◌≡◌, length, count_by};
ghost use Rattle.std.specs.Float.Ieee.{le};
ghost use Rattle.definitions.specs.Doubles.{two_equal, three_equal};
ghost use Rattle.definitions.specs.ClipSet.{any_unstorable};
ghost use Rattle.definitions.specs.Timing.{last_at_most, map_time, map_stage_to_clip};
ghost use Rattle.definitions.specs.Reading.{partition_point};
ghost use Rattle.laws.specs.list.Places.{Ascending};
ghost use Rattle.laws.specs.cell.Lent.{knots_of};

use definitions::{ClipTime, Segment, StageTime};
use segment::{clip_time, knot_at, segment_at};

// A time that is not finite, or beyond 2^40, is among them. No early exit, so that no step branches.
pub fn any_unstorable(times: &[f64]) -> bool
    ensures { result ≡ any_unstorable times.now }
{
    let mut found: u64 = 0;
    for time in times {
        found += u64::from(!gf::is_storable(*time));
    }
    0 < found
}

// Two neighbours are equal. In a sorted list all equals are neighbours.
pub fn two_equal(times: &[f64]) -> bool
    ensures { result ≡ two_equal times.now }
{
    times.windows(2).any(|w| w[0] == w[1])
}

// Three neighbours are equal.
pub fn three_equal(times: &[f64]) -> bool
    ensures { result ≡ three_equal times.now }
{
    times.windows(3).any(|w| w[0] == w[1] && w[1] == w[2])
}

// How many of the times are at most `t`. No early exit, so that no step branches.
fn count_at_most(times: &[f64], t: f64) -> usize
    ensures { result ≡ count_by (λ x. le x t) times.now }
{
    let mut found: usize = 0;
    for time in times {
        found += usize::from(*time <= t);
    }
    found
}

// How many of the times are at most `t`, where they ascend: the Rust's `partition_point`. Elsewhere it is what the search by halves finds.
// The last few are counted: a count has no branches to foretell.
pub fn partition_point(times: &[f64], t: f64) -> usize
    ensures { result ≡ partition_point times.now t }
{
    let mut at: usize = 0;
    let mut n = times.len();
    while 16 < n {
        let half = n / 2;
        let mid = at + half;
        if times[mid] <= t {
            at = mid;
        }
        n -= half;
    }
    at + count_at_most(&times[at..at + n], t)
}

// The place of the last of the times that is at most `t`, and 0 if none is: the Rust's `partition_point` less one. In lists as short as
// starts and knots are, these halves are quicker than the method of slices.
pub fn last_at_most(times: &[f64], t: f64) -> usize
    requires { Ascending times.now }
    ensures { result ≡ last_at_most times.now t }
{
    let mut lo: usize = 0;
    let mut hi = times.len();
    while lo < hi {
        let mid = lo + (hi - lo) / 2;
        if times[mid] <= t {
            lo = mid + 1;
        } else {
            hi = mid;
        }
    }
    lo.saturating_sub(1)
}

// The y at `t` of the knots (x, y), bare as the lists are.
fn y_at(xs: &[f64], ys: &[f64], t: f64) -> f64
    requires fact_1 { Ascending xs.now }
    requires fact_2 { length xs.now ≡ length ys.now }
    ensures { result ≡ map_time (knots_of xs.now ys.now) t }
{
    let n = xs.len();
    if n == 0 {
        return t;
    }
    if t < xs[0] {
        return ys[0];
    }
    let last = n - 1;
    if xs[last] <= t {
        return ys[last];
    }
    let lo = last_at_most(xs, t);
    // A NaN, which lies on no side of a single knot.
    if lo == last {
        let only = knot_at(xs, ys, lo);
        return clip_time(Segment { a: only, b: only }, t);
    }
    clip_time(segment_at(xs, ys, lo), t)
}

// The knot mapping, which alone turns a stage time into a clip time: the Rust's `map_stage_to_clip`.
pub fn map_time(xs: &[f64], ys: &[f64], t: StageTime) -> ClipTime
    requires fact_1 { Ascending xs.now }
    requires fact_2 { length xs.now ≡ length ys.now }
    ensures { result ≡ map_stage_to_clip (knots_of xs.now ys.now) t }
{
    ClipTime(y_at(xs, ys, t.0))
}
