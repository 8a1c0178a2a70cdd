// The value at a stage time. With several starts it is held from the lower neighbour among the window's gathered times, unless there is a jump between.

ghost use Rattle.std.specs.Prelude.{◌≡◌, T, length};
ghost use Rattle.std.specs.Float.Ieee.Scale.{finite};
ghost use Rattle.definitions.specs.Value.{value_source, value_in_set, sample_read, value_read};
ghost use Rattle.laws.specs.cell.Lent.{AcceptedLists, set_of, samples_of};
ghost use Rattle.value.specs.Answers.{answer_in, Answerable};
ghost use Rattle.value.specs.Values.{Valued, ValueIn};

use super::jump::is_jump;
use super::windowed::{source_in, window_of};
use definitions::{Answer, Missing, Source, StageTime, ValueRead};
use sdf::look::Look;
use sdf::part::{clip_begin, clip_end};
use window::search::{Window, neighbours_in};

// What is read at the time `t` of a window: directly, or held from the lower neighbour.
fn value_in(xs: &[f64], ys: &[f64], times: &[f64], w: Window, t: StageTime) -> Source
    requires { Valued xs.now ys.now times.now w t.0 }
    ensures { ValueIn xs.now ys.now times.now w t.0 result }
{
    // One question is not worth the latest of all segments.
    let found = neighbours_in(xs, ys, &xs[0..0], &times[w.begin..w.end], w, t.0, 0, 0);
    let at = match (found.lower, found.upper) {
        (Some(l), Some(h)) if !is_jump(xs, l, h, found.knot) => StageTime(l),
        _ => t,
    };
    source_in(xs, ys, times, w, at, found.knot, found.sample)
}

// What is read at the stage time `t`.
pub fn value_source(
    starts: &[f64],
    clips: &[u64],
    xs: &[f64],
    ys: &[f64],
    blocks: &[f64],
    m: Missing,
    times: &[f64],
    values: &[f64],
    marks: &[u8],
    ends: &[u64],
    t: StageTime,
) -> Source
    requires fact_1 { AcceptedLists starts.now clips.now xs.now ys.now blocks.now m times.now values.now marks.now ends.now }
    requires fact_2 { T (finite t.0) }
    ensures { result ≡ value_source (set_of (length ends.now) starts.now clips.now xs.now ys.now blocks.now m) (samples_of times.now values.now marks.now ends.now) t }
{
    if starts.len() == 0 {
        return Source::Absent;
    }
    let p = lists::last_at_most(starts, t.0);
    let w = window_of(
        starts, clips, xs, ys, blocks, m, times, values, marks, ends, p,
    );
    if starts.len() < 2 {
        return source_in(xs, ys, times, w, t, 0, 0);
    }
    value_in(xs, ys, times, w, t)
}

// What a source says, with the bits as lent. A sample is seen through a look at its clip.
pub fn answer_of(
    m: Missing,
    times: &[f64],
    values: &[f64],
    marks: &[u8],
    ends: &[u64],
    source: Source,
) -> Answer
    requires fact_1 { Answerable (length values.now) ends.now source }
    requires fact_2 { length marks.now ≡ length values.now }
    ensures { result ≡ answer_in m values.now marks.now ends.now source }
{
    match source {
        Source::Sample(clip, place) => {
            let begin = clip_begin(ends, clip);
            let end = clip_end(ends, clip);
            let look = Look {
                times,
                values,
                marks,
                begin,
                end,
            };
            look.answer(place as usize)
        }
        Source::Default => Answer::Value(m.default.value),
        Source::Blocked => Answer::Blocked,
        Source::Absent => Answer::Absent,
    }
}

// The sample that a number was read from. A block that is read is a reading, but no number.
fn sample_read(answer: Answer, source: Source) -> Option<(u64, u64)>
    ensures { result ≡ sample_read answer source }
{
    match (answer, source) {
        (Answer::Value(_), Source::Sample(clip, place)) => Some((clip, place)),
        _ => None,
    }
}

// The value at the stage time `t`, and the sample that it was read from.
pub fn value_read(
    starts: &[f64],
    clips: &[u64],
    xs: &[f64],
    ys: &[f64],
    blocks: &[f64],
    m: Missing,
    times: &[f64],
    values: &[f64],
    marks: &[u8],
    ends: &[u64],
    t: StageTime,
) -> ValueRead
    requires fact_1 { AcceptedLists starts.now clips.now xs.now ys.now blocks.now m times.now values.now marks.now ends.now }
    requires fact_2 { T (finite t.0) }
    ensures { result ≡ value_read (set_of (length ends.now) starts.now clips.now xs.now ys.now blocks.now m) (samples_of times.now values.now marks.now ends.now) t }
{
    let source = value_source(
        starts, clips, xs, ys, blocks, m, times, values, marks, ends, t,
    );
    let answer = answer_of(m, times, values, marks, ends, source);
    let sample = sample_read(answer, source);
    ValueRead { answer, sample }
}

// The value alone.
pub fn value_in_set(
    starts: &[f64],
    clips: &[u64],
    xs: &[f64],
    ys: &[f64],
    blocks: &[f64],
    m: Missing,
    times: &[f64],
    values: &[f64],
    marks: &[u8],
    ends: &[u64],
    t: StageTime,
) -> Answer
    requires fact_1 { AcceptedLists starts.now clips.now xs.now ys.now blocks.now m times.now values.now marks.now ends.now }
    requires fact_2 { T (finite t.0) }
    ensures { result ≡ value_in_set (set_of (length ends.now) starts.now clips.now xs.now ys.now blocks.now m) (samples_of times.now values.now marks.now ends.now) t }
{
    let read = value_read(
        starts, clips, xs, ys, blocks, m, times, values, marks, ends, t,
    );
    read.answer
}
