// A window handed on: what the times between two starts are read from.

ghost use Rattle.std.specs.Prelude.{◌≡◌, not, ◌&&◌, ◌+◌, ◌<◌, ltb, length, Float};
ghost use Rattle.std.specs.Float.Ieee.{eq};
ghost use Rattle.definitions.specs.Lists.{any};
ghost use Rattle.definitions.specs.Timing.{map_stage_to_clip};
ghost use Rattle.laws.specs.list.Places.{Ascending};
ghost use Rattle.laws.specs.cell.Lent.{knots_of, AcceptedLists};
ghost use Rattle.window.specs.search.Windowed.{Lent, window_source};
ghost use Rattle.value.specs.WindowOf.{WindowIs};
ghost use Rattle.value.specs.ClipTimes.{is_between};

use crate::direct::{contributes, interpolate_missing_value};
use definitions::{ClipTime, Missing, Source, StageTime};
use lists::segment::segment_at;
use sdf::part::{clip_begin, clip_end};
use window::search::Window;
use window::{window_max, window_min};

// There are samples from `begin` to `end`, and their clip contributes them from this start.
fn has_samples(blocks: &[f64], m: Missing, start: f64, begin: usize, end: usize) -> bool
    ensures { result ≡ (ltb begin end && not (m.interpolate && any (λ (b : Float). eq b start) blocks.now)) }
{
    begin < end && contributes(blocks, m, start)
}

// The window of the start at the place `p`.
pub fn window_of(
    starts: &[f64],
    clips: &[u64],
    xs: &[f64],
    ys: &[f64],
    blocks: &[f64],
    m: Missing,
    times: &[f64],
    values: &[f64],
    marks: &[u8],
    ends: &[u64],
    p: usize,
) -> Window
    requires fact_1 { AcceptedLists starts.now clips.now xs.now ys.now blocks.now m times.now values.now marks.now ends.now }
    requires fact_2 { p < length starts.now }
    ensures { WindowIs starts.now clips.now xs.now ys.now blocks.now m times.now values.now marks.now ends.now p result }
{
    let start = starts[p];
    let clip = clips[p];
    let min = window_min(starts, p);
    let max = window_max(starts, p);
    let begin = clip_begin(ends, clip);
    let end = clip_end(ends, clip);
    if has_samples(blocks, m, start, begin, end) {
        return Window {
            start,
            min,
            max,
            clip,
            begin,
            end,
            gap: Source::Blocked,
        };
    }
    let gap = interpolate_missing_value(
        starts, clips, xs, ys, blocks, m, times, values, marks, ends, p,
    );
    Window {
        start,
        min,
        max,
        clip,
        begin,
        end: begin,
        gap,
    }
}

// Whether `t` lies in the segment from the knot at the place `knot` to the next.
pub fn is_between(xs: &[f64], t: f64, knot: usize) -> bool
    ensures { result ≡ is_between xs.now t knot }
{
    knot < xs.len() && knot + 1 < xs.len() && xs[knot] <= t && t < xs[knot + 1]
}

// The clip time at `t`, looked for at a hint.
fn clip_time(xs: &[f64], ys: &[f64], t: StageTime, knot: usize) -> ClipTime
    requires fact_1 { Ascending xs.now }
    requires fact_2 { length xs.now ≡ length ys.now }
    ensures { result ≡ map_stage_to_clip (knots_of xs.now ys.now) t }
{
    if is_between(xs, t.0, knot) {
        return ClipTime(lists::segment::clip_time(segment_at(xs, ys, knot), t.0));
    }
    lists::map_time(xs, ys, t)
}

// What is read directly at the time `t` of a window. The hints are a knot and a sample of the clip.
pub fn source_in(
    xs: &[f64],
    ys: &[f64],
    times: &[f64],
    w: Window,
    t: StageTime,
    knot: usize,
    sample: usize,
) -> Source
    requires fact_1 { Ascending xs.now }
    requires fact_2 { length xs.now ≡ length ys.now }
    requires fact_3 { Lent times.now w }
    ensures { result ≡ window_source xs.now ys.now times.now w t.0 }
{
    if w.begin < w.end {
        let c = clip_time(xs, ys, t, knot);
        let place = lists::near::last_at_most_near(&times[w.begin..w.end], c.0, sample);
        return Source::Sample(w.clip, place as u64);
    }
    w.gap
}
