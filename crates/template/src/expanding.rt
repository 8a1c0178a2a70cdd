// The expansion of a template: the times t of its clips, and the set's lists of them.
ghost use Rattle.std.specs.Prelude.{◌≡◌, map, ◌≤◌, ◌+◌, length};
ghost use Rattle.definitions.specs.Template.{stage_time};
ghost use Rattle.definitions.specs.Examining.{empty_set};
ghost use Rattle.clip.specs.Storing.{Stores};
ghost use Rattle.template.specs.Expanding.{offset_of, Promotes, times_of_clips, bounded, knot_xs, knot_count, numbered, RoomForLists, expanded_set};

use clip::{ClipSet, storing};
use definitions::limits::CLIPS;
use definitions::refusal::Refusal;
use definitions::{Missing, TemplateTimes};

// The times t and their number.
#[derive(Clone, Copy)]
pub struct Promoted {
    pub items: [f64; CLIPS],
    pub count: usize,
}

// By repeated addition, and 8 at a 257th: a stride too small to move t ends there.
pub fn promote(times: TemplateTimes) -> Result<Promoted, Refusal>
    ensures { Promotes times result }
{
    let mut items = [0.0; CLIPS];
    let stride = times.stride * 10000.0;
    let bound = times.end * 10000.0 + 0.5;
    let mut t = times.start * 10000.0;
    for i in 0..CLIPS {
        if t <= bound {
            items[i] = t;
            t += stride;
        } else {
            return Ok(Promoted { items, count: i });
        }
    }
    if t <= bound {
        return Err(Refusal::TooManyClips);
    }
    Ok(Promoted {
        items,
        count: CLIPS,
    })
}

fn stage_time(t: f64, times: TemplateTimes, offset: bool) -> f64
    ensures { result ≡ stage_time (offset_of times offset) t }
{
    if offset {
        return (t + times.offset * 10000.0) / 10000.0;
    }
    t / 10000.0
}

fn write_starts(ts: &[f64], times: TemplateTimes, offset: bool, to: &mut [f64])
    requires { length to.old ≡ length ts.now }
    ensures { to.new ≡ map (stage_time (offset_of times offset)) ts.now }
{
    for (i, t) in ts.iter().enumerate() {
        to[i] = stage_time(*t, times, offset);
    }
}

// The clips are numbered in order.
fn write_numbers(to: &mut [u64])
    ensures { to.new ≡ numbered 0 to.old }
{
    for (i, number) in to.iter_mut().enumerate() {
        *number = i as u64;
    }
}

pub fn write_clip_times(ts: &[f64], to: &mut [f64])
    requires { length to.old ≡ length ts.now }
    ensures { to.new ≡ times_of_clips ts.now }
{
    for (i, t) in ts.iter().enumerate() {
        to[i] = *t / 10000.0;
    }
}

pub fn knot_count(clips: usize, offset: bool) -> usize
    requires { clips ≤ 256 }
    ensures { result ≡ knot_count offset clips }
{
    if offset {
        return clips + 2;
    }
    clips
}

fn write_bounded(ts: &[f64], first: f64, last: f64, xs: &mut [f64])
    requires { length xs.old ≡ length ts.now + 2 }
    ensures { xs.new ≡ bounded first last ts.now }
{
    let end = ts.len() + 1;
    write_clip_times(ts, &mut xs[1..end]);
    xs[0] = first;
    xs[end] = last;
}

// A knot for each clip; with an offset one before and one behind them.
fn write_knots(ts: &[f64], times: TemplateTimes, offset: bool, xs: &mut [f64])
    requires { length xs.old ≡ knot_count offset (length ts.now) }
    ensures { xs.new ≡ knot_xs times (offset_of times offset) ts.now }
{
    if offset {
        let slack = gf::magnitude::abs(times.offset);
        write_bounded(ts, times.start - slack, times.end + slack, xs);
        return;
    }
    write_clip_times(ts, xs);
}

pub fn expand_lists(
    ts: &[f64],
    times: TemplateTimes,
    offset: bool,
    blocks: &[f64],
    manifest: Missing,
    starts: &mut [f64],
    numbers: &mut [u64],
    xs: &mut [f64],
    ys: &mut [f64],
) -> Result<ClipSet, Refusal>
    requires { RoomForLists offset ts.now starts.old numbers.old xs.old ys.old blocks.now }
    ensures { Stores empty_set (expanded_set ts.now times (offset_of times offset) blocks.now manifest) result }
{
    write_starts(ts, times, offset, starts);
    write_numbers(numbers);
    write_knots(ts, times, offset, xs);
    ys.copy_from_slice(xs);
    let clips = ts.len() as u64;
    storing::sort_lists(starts, numbers, xs, ys);
    storing::check_and_store(clips, starts, numbers, xs, ys, blocks, manifest)
}
