// The first step of the place that is read along a line: from a key that is guessed by the inverse formula, by doubling
// steps and then by halves. Nothing hangs on the guess but the time it takes.

// From stage times to clip times in a cell.
pub mod line;
// A value and its mark, and when two are alike.
pub mod entry;

ghost use Rattle.std.specs.Prelude.{◌≡◌, ◌≤◌, ◌<◌, eqb, length};
ghost use Rattle.gf.specs.Doubles as Key;
ghost use Rattle.laws.specs.list.Places.{Ascending};
ghost use Rattle.laws.specs.track.Steps.{Once, StepAt, FirstStep};
ghost use Rattle.laws.specs.cell.Keys.{Keys};
ghost use Rattle.laws.specs.cell.Knots as Knots;
ghost use Rattle.cell.specs.step.Lines.{line_is, place_on};

use line::{Line, along};
use lists::near::is_place;
use lists::segment::stage_time;

// Whether the sample at q is read at the key k.
fn is_read(ts: &[f64], line: Line, q: usize, k: u64) -> bool
    requires ascending_1 { Ascending ts.now }
    requires ascending_2 { q < length ts.now }
    requires le_k { (Key.least ≤ k) × (k ≤ Key.most) }
    ensures { result ≡ eqb (place_on ts.now line k) q }
{
    is_place(ts, q, along(line, gf::of_key(k)))
}

// The key of x if it lies from k to hi, else the nearer end.
fn key_within(x: f64, k: u64, hi: u64) -> u64
    requires { k ≤ hi }
    ensures { (k ≤ result) × (result ≤ hi) }
{
    if x.is_nan() {
        return hi;
    }
    gf::key(x).clamp(k, hi)
}

// A key near the one where the sample at q is left: where the next sample's time is reached or, on a
// line that falls, its own.
fn guess(ts: &[f64], line: Line, q: usize, k: u64, hi: u64) -> u64
    requires q_in_bounds { q < length ts.now }
    requires k_le_hi { k ≤ hi }
    ensures { (k ≤ result) × (result ≤ hi) }
{
    let next = q + 1;
    match line {
        Line::Identity if next < ts.len() => key_within(ts[next], k, hi),
        Line::Segment(s) if s.b.y < s.a.y => key_within(stage_time(s, ts[q]), k, hi),
        Line::Segment(s) if next < ts.len() => key_within(stage_time(s, ts[next]), k, hi),
        _ => hi,
    }
}

// The step between a key where the sample at q is read and one where it is not, by halves.
fn step_between(ts: &[f64], line: Line, q: usize, k: u64, hi: u64) -> u64
    requires ascending_1 { Ascending ts.now }
    requires ascending_2 { q < length ts.now }
    requires keys { Keys k hi }
    requires once { Once (place_on ts.now line) k hi }
    requires k_value { place_on ts.now line k ≡ q }
    requires fact { place_on ts.now line hi ≡ q → ⊥ }
    ensures { StepAt (place_on ts.now line) k hi result }
{
    let mut a = k;
    let mut b = hi;
    while 1 < b - a {
        let mid = a + (b - a) / 2;
        if is_read(ts, line, q, mid) {
            a = mid;
        } else {
            b = mid;
        }
    }
    b
}

// The first step above a key where the sample at q is read, by doubling steps up to hi, where the clip time is `top`.
fn step_above(ts: &[f64], line: Line, q: usize, top: f64, k: u64, hi: u64) -> Option<u64>
    requires ascending_1 { Ascending ts.now }
    requires ascending_2 { q < length ts.now }
    requires top_value { top ≡ Knots.along (line_is line) (Key.of_key hi) }
    requires keys { Keys k hi }
    requires once { Once (place_on ts.now line) k hi }
    requires k_value { place_on ts.now line k ≡ q }
    ensures { FirstStep (place_on ts.now line) k hi result }
{
    let mut a = k;
    let mut width: u64 = 1;
    while width < hi - a {
        let b = a + width;
        if !is_read(ts, line, q, b) {
            return Some(step_between(ts, line, q, a, b));
        }
        a = b;
        width = width + width;
    }
    if is_place(ts, q, top) {
        return None;
    }
    Some(step_between(ts, line, q, a, hi))
}

// The step below a key where the sample at q, that is read at k, is not read any more, by doubling
// steps down to k.
fn step_below(ts: &[f64], line: Line, q: usize, k: u64, hi: u64) -> u64
    requires ascending_1 { Ascending ts.now }
    requires ascending_2 { q < length ts.now }
    requires keys { Keys k hi }
    requires once { Once (place_on ts.now line) k hi }
    requires k_value { place_on ts.now line k ≡ q }
    requires fact { place_on ts.now line hi ≡ q → ⊥ }
    ensures { StepAt (place_on ts.now line) k hi result }
{
    let mut b = hi;
    let mut width: u64 = 1;
    while width < b - k {
        let a = b - width;
        if is_read(ts, line, q, a) {
            return step_between(ts, line, q, a, b);
        }
        b = a;
        width = width + width;
    }
    step_between(ts, line, q, k, b)
}

// The least key above k and up to hi at which another sample is read than at k, where it is the one
// at q. The clip time at hi is handed in: left to the compiler, it is worked out before a loop over steps also on a line
// that has no segment, from what happens to lie in its place.
pub fn next_step(ts: &[f64], line: Line, q: usize, top: f64, k: u64, hi: u64) -> Option<u64>
    requires ascending_1 { Ascending ts.now }
    requires ascending_2 { q < length ts.now }
    requires top_value { top ≡ Knots.along (line_is line) (Key.of_key hi) }
    requires keys { Keys k hi }
    requires once { Once (place_on ts.now line) k hi }
    requires k_value { place_on ts.now line k ≡ q }
    ensures { FirstStep (place_on ts.now line) k hi result }
{
    let g = guess(ts, line, q, k, hi);
    if is_read(ts, line, q, g) {
        return step_above(ts, line, q, top, g, hi);
    }
    Some(step_below(ts, line, q, k, g))
}
