// The span of keys from a key on that lie in its cell or in a run of samples, and what is said at its beginning.

// The changes of one span, written while there is room.
pub mod fill;
// The cell of a window without knots.
pub mod knotless;

ghost use Rattle.std.specs.Prelude.{◌≡◌, Some};
ghost use Rattle.laws.specs.cell.Keys.{Keys};
ghost use Rattle.laws.specs.cell.Lent.{AcceptedLists};
ghost use Rattle.window.specs.search.Latest.{LatestOf};
ghost use Rattle.cell.specs.WindowPlaces.{PlaceIs};
ghost use Rattle.track.specs.span.Runs.{read_on, StepIs};
ghost use Rattle.track.specs.span.Knotless.{knotless_cell};
ghost use Rattle.track.specs.span.Steps.{Readable, ReadsAt, CellStep, CellStepAsks, FoundStep, RunAsks, RunStep};

use cell::end::end_key;
use cell::place::{WindowPlace, place_at};
use cell::step::entry::{Entry, entry_of};
use cell::step::line::{Line, place_on};
use cell::{Cell, cell_at};
use definitions::{Missing, Segment, Source};
use knotless::{is_knotless, knotless_cell};
use lists::segment::segment_at;
use run::begin::{RunBegin, run_begin};
use run::entry_of_sample;
use sdf::part::{clip_begin, clip_end};
use value::value::answer_of;

// How the value goes on: within a cell, or past the samples of a clip from the lower neighbour on where the run begins, in
// one segment and near a sample's place.
#[derive(Clone, Copy)]
pub enum ReadBy {
    ByCell(Cell),
    ByRun(u64, f64, Segment, usize),
}

// The way from a key on, what it says there, and its last key up to a top. A nearer last key would do as well, and take a further step.
#[derive(Clone, Copy)]
pub struct Span {
    pub way: ReadBy,
    pub here: Entry,
    pub hi: u64,
}

// A span, and the place of the walk in it.
#[derive(Clone, Copy)]
pub struct Step {
    pub span: Span,
    pub place: WindowPlace,
}

// What the cell reads at the key k.
fn read_on(times: &[f64], ends: &[u64], cell: Cell, k: u64) -> Source
    requires keys { Keys k k }
    requires readable { Readable times.now ends.now cell }
    ensures { result ≡ read_on times.now ends.now cell k }
{
    match cell {
        Cell::Constant(source) => source,
        Cell::Reading(clip, line) => {
            let a = clip_begin(ends, clip);
            let b = clip_end(ends, clip);
            Source::Sample(clip, place_on(&times[a..b], line, k) as u64)
        }
    }
}

// The span from the key k on in its cell. The place is that of k.
fn cell_step(
    starts: &[f64],
    xs: &[f64],
    ys: &[f64],
    m: Missing,
    times: &[f64],
    values: &[f64],
    marks: &[u8],
    ends: &[u64],
    latest: &[f64],
    at: WindowPlace,
    k: u64,
    top: u64,
) -> Step
    requires { CellStepAsks starts.now xs.now ys.now times.now values.now latest.now marks.now ends.now at.window k }
    ensures { FoundStep starts.now xs.now ys.now m times.now values.now marks.now ends.now at k top result }
{
    let piece = cell_at(starts, xs, ys, times, latest, at, gf::of_key(k));
    let hi = top.min(end_key(piece.end) - 1);
    let source = read_on(times, ends, piece.cell, k);
    let here = entry_of(answer_of(m, times, values, marks, ends, source));
    let way = ReadBy::ByCell(piece.cell);
    Step {
        span: Span { way, here, hi },
        place: WindowPlace {
            start: at.start,
            window: at.window,
            knot: piece.knot,
            sample: piece.sample,
        },
    }
}

// The span from the key k on in a window of a set without knots: to the next start.
fn knotless_step(
    m: Missing,
    times: &[f64],
    values: &[f64],
    marks: &[u8],
    ends: &[u64],
    at: WindowPlace,
    k: u64,
    top: u64,
) -> Step
    requires { ReadsAt times.now values.now marks.now ends.now (knotless_cell at.window) (Some at.window.max) k }
    ensures { CellStep m times.now values.now marks.now ends.now (knotless_cell at.window) (Some at.window.max) at k top result }
{
    let cell = knotless_cell(at.window);
    let hi = top.min(gf::key(at.window.max) - 1);
    let read = read_on(times, ends, cell, k);
    let here = entry_of(answer_of(m, times, values, marks, ends, read));
    let way = ReadBy::ByCell(cell);
    Step {
        span: Span { way, here, hi },
        place: at,
    }
}

// The span past the samples of a segment, from the lower neighbour where the run begins up to its end.
fn run_step(
    xs: &[f64],
    ys: &[f64],
    times: &[f64],
    values: &[f64],
    marks: &[u8],
    ends: &[u64],
    at: WindowPlace,
    run: RunBegin,
    top: u64,
) -> Step
    requires { RunAsks xs.now ys.now times.now values.now marks.now ends.now at.window.clip run.knot run.lower run.upto }
    ensures { RunStep xs.now ys.now times.now values.now marks.now ends.now at run.knot run.lower run.upto run.sample top result }
{
    let clip = at.window.clip;
    let s = segment_at(xs, ys, run.knot);
    let hi = top.min(gf::key(run.upto) - 1);
    let a = clip_begin(ends, clip);
    let b = clip_end(ends, clip);
    let place = place_on(&times[a..b], Line::Segment(s), gf::key(run.lower));
    let here = entry_of_sample(&values[a..b], &marks[a..b], place);
    let way = ReadBy::ByRun(clip, run.lower, s, run.sample);
    Step {
        span: Span { way, here, hi },
        place: WindowPlace {
            start: at.start,
            window: at.window,
            knot: run.knot,
            sample: run.sample,
        },
    }
}

// The span from the key k on, and the place of the walk there: with several starts a run of samples, if one begins at k.
pub fn span_at(
    starts: &[f64],
    clips: &[u64],
    xs: &[f64],
    ys: &[f64],
    blocks: &[f64],
    m: Missing,
    times: &[f64],
    values: &[f64],
    marks: &[u8],
    ends: &[u64],
    latest: &[f64],
    place: WindowPlace,
    k: u64,
    top: u64,
) -> Step
    requires accepted_lists { AcceptedLists starts.now clips.now xs.now ys.now blocks.now m times.now values.now marks.now ends.now }
    requires latest_of { LatestOf xs.now ys.now latest.now }
    requires place_is { PlaceIs starts.now clips.now xs.now ys.now blocks.now m times.now values.now marks.now ends.now place.start place.window }
    requires keys { Keys k top }
    ensures { StepIs starts.now clips.now xs.now ys.now blocks.now m times.now values.now marks.now ends.now k top result }
{
    let t = gf::of_key(k);
    let at = place_at(
        starts, clips, xs, ys, blocks, m, times, values, marks, ends, place, t,
    );
    if is_knotless(starts, xs) {
        return knotless_step(m, times, values, marks, ends, at, k, top);
    }
    if 1 < starts.len() {
        let found = run_begin(xs, ys, latest, times, at.window, t, at.knot, at.sample);
        if let Some(begun) = found {
            return run_step(xs, ys, times, values, marks, ends, at, begun, top);
        }
    }
    cell_step(
        starts, xs, ys, m, times, values, marks, ends, latest, at, k, top,
    )
}
