// The candidates on either side of a time: two of an ascending list, and two samples of a segment.

pub mod candidate;

ghost use Rattle.std.specs.Prelude.{◌≡◌};
ghost use Rattle.definitions.specs.Lists.{keep};
ghost use Rattle.definitions.specs.Doubles.{FiniteDouble};
ghost use Rattle.definitions.specs.Timing.{last_at_most};
ghost use Rattle.definitions.specs.Value.{on_pair};
ghost use Rattle.laws.specs.list.Places.{Ascending};
ghost use Rattle.window.specs.Bounds.{inside};
ghost use Rattle.window.specs.Inverses.{on_segment};
ghost use Rattle.window.specs.SoundSegments.{SoundSegment};
ghost use Rattle.window.specs.nearest.Nearest.{Searched};
ghost use Rattle.window.specs.nearest.Beside.{TimeInside, with_place};
ghost use Rattle.window.specs.nearest.Crossings.{is_beyond, Crossing, sample_at};

use crate::Neighbours;
use candidate::near_inside;
use definitions::Segment;
use gf::interval::Interval;
use lists::segment::{spans, stage_time};

// The neighbours of `t` with the time at the place `i`, if there is one.
fn near_place(known: Neighbours, xs: &[f64], i: usize, w: Interval, t: f64) -> Neighbours
    ensures { result ≡ with_place w t xs.now known i }
{
    if i < xs.len() {
        return near_inside(known, xs[i], w, t);
    }
    known
}

// With the times of an ascending list, where `i` is the place of the last one at most `t`.
pub fn near_times(known: Neighbours, xs: &[f64], i: usize, w: Interval, t: f64) -> Neighbours
    requires fact_1 { Ascending xs.now }
    requires fact_2 { FiniteDouble t }
    requires fact_3 { TimeInside w t }
    requires fact_4 { i ≡ last_at_most xs.now t }
    ensures { Searched t (keep (inside w) xs.now) known result }
{
    let here = near_place(known, xs, i, w, t);
    near_place(here, xs, i + 1, w, t)
}

// With the inverse time of the clip time `c` in a segment, if it spans it.
fn near_inverse(known: Neighbours, s: Segment, c: f64, w: Interval, t: f64) -> Neighbours
    ensures { Searched t (keep (inside w) (on_pair c (s.a, s.b))) known result }
{
    if spans(s, c) {
        let x = stage_time(s, c);
        return near_inside(known, x, w, t);
    }
    known
}

// With that of the sample at the place `i`, if there is one.
fn near_sample(
    known: Neighbours,
    s: Segment,
    cs: &[f64],
    i: usize,
    w: Interval,
    t: f64,
) -> Neighbours
    ensures { Searched t (keep (inside w) (sample_at cs.now (s.a, s.b) i)) known result }
{
    if i < cs.len() {
        return near_inverse(known, s, cs[i], w, t);
    }
    known
}

// With those of all samples of a segment, where their inverse times pass `t` at the place `n`.
pub fn near_crossing(
    known: Neighbours,
    s: Segment,
    cs: &[f64],
    n: usize,
    w: Interval,
    t: f64,
) -> Neighbours
    requires fact_1 { SoundSegment (s.a, s.b) }
    requires fact_2 { Ascending cs.now }
    requires fact_3 { TimeInside w t }
    requires fact_4 { Crossing (is_beyond t (s.a, s.b)) cs.now n }
    ensures { Searched t (keep (inside w) (on_segment cs.now (s.a, s.b))) known result }
{
    if n == 0 {
        return near_sample(known, s, cs, n, w, t);
    }
    let before = near_sample(known, s, cs, n - 1, w, t);
    near_sample(before, s, cs, n, w, t)
}
