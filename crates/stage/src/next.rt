// The next stage sample time: a search in the active window, begun where the last one ended. Later windows begin at the next start, which the search has.

ghost use Rattle.std.specs.Prelude.{◌≡◌, ◌++◌, ◌<◌, T, length, get_or};
ghost use Rattle.std.specs.Float.Ieee.Scale.{finite};
ghost use Rattle.definitions.specs.Timing.{last_at_most};
ghost use Rattle.window.specs.Bounds.{UpperIs};
ghost use Rattle.window.specs.search.Latest.{LatestOf};
ghost use Rattle.stage.specs.Whole.{Windows, WholeWindow, whole_times, next_start};
ghost use Rattle.stage.specs.Times.{AcceptedTimes, NextTime};

use super::zero::with_zero;
use definitions::Source;
use sdf::part::{clip_begin, clip_end};
use window::search::{NeighboursAndHints, Window, neighbours_in};
use window::{window_max, window_min};

// The next time, and where the search for the one behind it may begin: the place of the active start, a knot and a sample,
// hints on which no contract rests.
#[derive(Clone, Copy)]
pub struct Next {
    pub time: Option<f64>,
    pub place: usize,
    pub knot: usize,
    pub sample: usize,
}

// The window of the start at the place `p` with all samples of its clip, whether it contributes them or not. A search needs no gap.
fn whole_window(starts: &[f64], clips: &[u64], ends: &[u64], p: usize) -> Window
    requires { (p < length starts.now) × ((length starts.now ≡ length clips.now) × (get_or clips.now p 0 < length ends.now)) }
    ensures { WholeWindow starts.now clips.now ends.now p result }
{
    let start = starts[p];
    let clip = clips[p];
    Window {
        start,
        min: window_min(starts, p),
        max: window_max(starts, p),
        clip,
        begin: clip_begin(ends, clip),
        end: clip_end(ends, clip),
        gap: Source::Blocked,
    }
}

// The neighbours of `t` in its window, the next start included.
fn search_window(
    starts: &[f64],
    clips: &[u64],
    xs: &[f64],
    ys: &[f64],
    latest: &[f64],
    times: &[f64],
    ends: &[u64],
    p: usize,
    t: f64,
    knot: usize,
    sample: usize,
) -> NeighboursAndHints
    requires windows_1 { Windows starts.now clips.now xs.now ys.now times.now ends.now }
    requires windows_2 { LatestOf xs.now ys.now latest.now }
    requires p_value_1 { p ≡ last_at_most starts.now t }
    requires p_value_2 { p < length starts.now }
    requires p_value_3 { T (finite t) }
    ensures { UpperIs (whole_times starts.now clips.now xs.now ys.now times.now ends.now p ++ next_start starts.now p) t result.upper }
{
    let w = whole_window(starts, clips, ends, p);
    neighbours_in(xs, ys, latest, &times[w.begin..w.end], w, t, knot, sample)
}

// The first stage sample time above `t`. The hints are any numbers.
pub fn next_time(
    starts: &[f64],
    clips: &[u64],
    xs: &[f64],
    ys: &[f64],
    times: &[f64],
    ends: &[u64],
    latest: &[f64],
    t: f64,
    place: usize,
    knot: usize,
    sample: usize,
) -> Next
    requires fact_1 { AcceptedTimes starts.now clips.now xs.now ys.now times.now ends.now }
    requires fact_2 { LatestOf xs.now ys.now latest.now }
    requires fact_3 { T (finite t) }
    ensures { NextTime starts.now clips.now xs.now ys.now times.now ends.now t result.time }
{
    if starts.len() == 0 {
        return Next {
            time: None,
            place,
            knot,
            sample,
        };
    }
    let p = lists::near::last_at_most_near(starts, t, place);
    let found = search_window(
        starts, clips, xs, ys, latest, times, ends, p, t, knot, sample,
    );
    Next {
        time: with_zero(starts, clips, xs, times, ends, found.upper),
        place: p,
        knot: found.knot,
        sample: found.sample,
    }
}
