// A walk's place: the window that it is in, and where its last search ended. A search that begins there is short.
ghost use Rattle.std.specs.Prelude.{◌≡◌, true, not, ◌&&◌, ◌<◌, ltb, length, Float};
ghost use Rattle.std.specs.Float.Ieee.{eq};
ghost use Rattle.definitions.specs.Lists.{any};
ghost use Rattle.definitions.specs.Doubles.{FiniteDouble};
ghost use Rattle.definitions.specs.Samples.{clip_begin, clip_end};
ghost use Rattle.laws.specs.cell.Lent.{AcceptedLists};
ghost use Rattle.value.specs.WindowOf.{WindowIs};
ghost use Rattle.cell.specs.WindowPlaces.{no_place, PlaceIs, PlaceAt, Follows};

use definitions::{Missing, Source};
use lists::near::last_at_most_near;
use sdf::part::{clip_begin, clip_end};
use value::direct::contributes;
use value::windowed::window_of;
use window::search::Window;
use window::{window_max, window_min};

// The place of a start and its window, and a knot and a sample near which a search begins: hints, on which no contract rests.
#[derive(Clone, Copy)]
pub struct WindowPlace {
    pub start: usize,
    pub window: Window,
    pub knot: usize,
    pub sample: usize,
}

// The place of a walk that has not begun: in no window.
pub fn no_place(starts: &[f64]) -> WindowPlace
    ensures { result ≡ no_place (length starts.now) }
{
    WindowPlace {
        start: starts.len(),
        window: Window {
            start: 0.0,
            min: 0.0,
            max: 0.0,
            clip: 0,
            begin: 0,
            end: 0,
            gap: Source::Blocked,
        },
        knot: 0,
        sample: 0,
    }
}

// The clip contributes from this start, and it has samples.
fn has_reading(blocks: &[f64], m: Missing, ends: &[u64], start: f64, clip: u64) -> bool
    requires { clip < length ends.now }
    ensures { result ≡ (not (m.interpolate && any (λ (b : Float). eq b start) blocks.now) && ltb (clip_begin ends.now clip) (clip_end ends.now clip)) }
{
    contributes(blocks, m, start) && clip_begin(ends, clip) < clip_end(ends, clip)
}

// Whether the start at p comes right after the place's, and neither of the two has samples to read.
fn follows(
    blocks: &[f64],
    m: Missing,
    ends: &[u64],
    start: f64,
    clip: u64,
    place: WindowPlace,
    p: usize,
) -> bool
    requires { clip < length ends.now }
    ensures { (result ≡ true) → Follows blocks.now m ends.now start clip place.start place.window p }
{
    let w = place.window;
    0 < p && place.start == p - 1 && w.end <= w.begin && !has_reading(blocks, m, ends, start, clip)
}

// The window of the start at p. Of windows without samples, one after the other, the same stands in
// for them, so that a walk over many of them searches once.
fn window_after(
    starts: &[f64],
    clips: &[u64],
    xs: &[f64],
    ys: &[f64],
    blocks: &[f64],
    m: Missing,
    times: &[f64],
    values: &[f64],
    marks: &[u8],
    ends: &[u64],
    place: WindowPlace,
    p: usize,
) -> Window
    requires accepted_lists { AcceptedLists starts.now clips.now xs.now ys.now blocks.now m times.now values.now marks.now ends.now }
    requires place_is { PlaceIs starts.now clips.now xs.now ys.now blocks.now m times.now values.now marks.now ends.now place.start place.window }
    requires p_in_bounds { p < length starts.now }
    ensures { WindowIs starts.now clips.now xs.now ys.now blocks.now m times.now values.now marks.now ends.now p result }
{
    let start = starts[p];
    let clip = clips[p];
    if follows(blocks, m, ends, start, clip, place, p) {
        let begin = clip_begin(ends, clip);
        return Window {
            start,
            min: window_min(starts, p),
            max: window_max(starts, p),
            clip,
            begin,
            end: begin,
            gap: place.window.gap,
        };
    }
    window_of(
        starts, clips, xs, ys, blocks, m, times, values, marks, ends, p,
    )
}

// The place moved to the window of t.
pub fn place_at(
    starts: &[f64],
    clips: &[u64],
    xs: &[f64],
    ys: &[f64],
    blocks: &[f64],
    m: Missing,
    times: &[f64],
    values: &[f64],
    marks: &[u8],
    ends: &[u64],
    place: WindowPlace,
    t: f64,
) -> WindowPlace
    requires accepted_lists { AcceptedLists starts.now clips.now xs.now ys.now blocks.now m times.now values.now marks.now ends.now }
    requires place_is { PlaceIs starts.now clips.now xs.now ys.now blocks.now m times.now values.now marks.now ends.now place.start place.window }
    requires finite_double { FiniteDouble t }
    ensures { PlaceAt starts.now clips.now xs.now ys.now blocks.now m times.now values.now marks.now ends.now t result.start result.window }
{
    if starts.len() == 0 {
        return place;
    }
    let p = last_at_most_near(starts, t, place.start);
    if p == place.start {
        return place;
    }
    let w = window_after(
        starts, clips, xs, ys, blocks, m, times, values, marks, ends, place, p,
    );
    WindowPlace {
        start: p,
        window: w,
        knot: place.knot,
        sample: 0,
    }
}
