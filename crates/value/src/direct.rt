// The direct value: the active clip's held reading at the clip time, or what stands in for it.

ghost use Rattle.std.specs.Prelude.{◌≡◌, not, ◌&&◌, reverse, ◌<◌, ◌≤◌, length, get_or, take, drop, Float};
ghost use Rattle.std.specs.Float.{nan};
ghost use Rattle.std.specs.Float.Ieee.{eq};
ghost use Rattle.definitions.specs.Lists.{any};
ghost use Rattle.laws.specs.cell.Lent.{start, active_of, AcceptedLists, set_of, samples_of};
ghost use Rattle.window.specs.Parts.{Readable};
ghost use Rattle.value.specs.direct.Reads.{reading_is, held_part, read_start, first_read, SearchAsks};
ghost use Rattle.value.specs.direct.Sources.{stand_in};

use definitions::{Answer, Missing, Source, StageTime};
use sdf::look::Look;
use sdf::part::{clip_begin, clip_end};

// A manifest block equals this start. No early exit, so that no step branches.
pub fn blocked_at(blocks: &[f64], start: f64) -> bool
    ensures { result ≡ any (λ (b : Float). eq b start) blocks.now }
{
    let mut found: u64 = 0;
    for block in blocks {
        found += u64::from(*block == start);
    }
    0 < found
}

// The clip of this start contributes its samples: blocks count only where the missing flag is on.
pub fn contributes(blocks: &[f64], m: Missing, start: f64) -> bool
    ensures { result ≡ not (m.interpolate && any (λ (b : Float). eq b start) blocks.now) }
{
    !(m.interpolate && blocked_at(blocks, start))
}

// The held reading of a clip at the clip time of `t`: the place of its sample, counted from the clip's first, and what the sample says.
// None for a clip without samples, for which no clip time is searched.
pub fn read_clip(
    xs: &[f64],
    ys: &[f64],
    times: &[f64],
    values: &[f64],
    marks: &[u8],
    ends: &[u64],
    clip: u64,
    t: StageTime,
) -> Option<(usize, Answer)>
    requires readable_1 { Readable xs.now ys.now times.now ends.now }
    requires readable_2 { clip < length ends.now }
    requires values_len_1 { length values.now ≡ length times.now }
    requires values_len_2 { length marks.now ≡ length times.now }
    ensures { result ≡ held_part xs.now ys.now times.now values.now marks.now ends.now clip t }
{
    let begin = clip_begin(ends, clip);
    let end = clip_end(ends, clip);
    if begin == end {
        return None;
    }
    let look = Look {
        times,
        values,
        marks,
        begin,
        end,
    };
    look.read(lists::map_time(xs, ys, t))
}

// What a start gives to the search: the reading of its clip at its own clip time, unless a block equals the start.
fn read_start(
    starts: &[f64],
    clips: &[u64],
    xs: &[f64],
    ys: &[f64],
    blocks: &[f64],
    times: &[f64],
    values: &[f64],
    marks: &[u8],
    ends: &[u64],
    i: usize,
) -> Option<(u64, u64)>
    requires fact_1 { SearchAsks starts.now clips.now xs.now ys.now times.now values.now marks.now ends.now }
    requires fact_2 { i < length starts.now }
    ensures { reading_is result ≡ read_start blocks.now xs.now ys.now times.now ends.now (start (get_or starts.now i nan) (get_or clips.now i 0)) }
{
    let time = starts[i];
    if blocked_at(blocks, time) {
        return None;
    }
    let clip = clips[i];
    let (place, _) = read_clip(xs, ys, times, values, marks, ends, clip, StageTime(time))?;
    Some((clip, place as u64))
}

// The nearest reading of a start before the place `p`.
fn nearest_before(
    starts: &[f64],
    clips: &[u64],
    xs: &[f64],
    ys: &[f64],
    blocks: &[f64],
    times: &[f64],
    values: &[f64],
    marks: &[u8],
    ends: &[u64],
    p: usize,
) -> Option<(u64, u64)>
    requires fact_1 { SearchAsks starts.now clips.now xs.now ys.now times.now values.now marks.now ends.now }
    requires fact_2 { p ≤ length starts.now }
    ensures { reading_is result ≡ first_read blocks.now xs.now ys.now times.now ends.now (reverse (take p (active_of starts.now clips.now))) }
{
    for i in (0..p).rev() {
        let found = read_start(starts, clips, xs, ys, blocks, times, values, marks, ends, i);
        if found.is_some() {
            return found;
        }
    }
    None
}

// The nearest reading of a start from the place `p` on.
// Beside `nearest_before`, since one function over either range would take an iterator with laws of its own, which is no plainer.
fn nearest_from(
    starts: &[f64],
    clips: &[u64],
    xs: &[f64],
    ys: &[f64],
    blocks: &[f64],
    times: &[f64],
    values: &[f64],
    marks: &[u8],
    ends: &[u64],
    p: usize,
) -> Option<(u64, u64)>
    requires fact_1 { SearchAsks starts.now clips.now xs.now ys.now times.now values.now marks.now ends.now }
    requires fact_2 { p ≤ length starts.now }
    ensures { reading_is result ≡ first_read blocks.now xs.now ys.now times.now ends.now (drop p (active_of starts.now clips.now)) }
{
    for i in p..starts.len() {
        let found = read_start(starts, clips, xs, ys, blocks, times, values, marks, ends, i);
        if found.is_some() {
            return found;
        }
    }
    None
}

// What stands in for the reading of the start at the place `p`: the manifest default, then a value of the starts before it, then of those after it.
pub fn interpolate_missing_value(
    starts: &[f64],
    clips: &[u64],
    xs: &[f64],
    ys: &[f64],
    blocks: &[f64],
    m: Missing,
    times: &[f64],
    values: &[f64],
    marks: &[u8],
    ends: &[u64],
    p: usize,
) -> Source
    requires fact_1 { AcceptedLists starts.now clips.now xs.now ys.now blocks.now m times.now values.now marks.now ends.now }
    requires fact_2 { p < length starts.now }
    ensures { result ≡ stand_in (set_of (length ends.now) starts.now clips.now xs.now ys.now blocks.now m) (samples_of times.now values.now marks.now ends.now) p }
{
    if m.default.mark == 0 {
        return Source::Default;
    }
    if !m.interpolate {
        return Source::Blocked;
    }
    let back = nearest_before(starts, clips, xs, ys, blocks, times, values, marks, ends, p);
    if let Some((clip, place)) = back {
        return Source::Sample(clip, place);
    }
    let next = p + 1;
    let on = nearest_from(
        starts, clips, xs, ys, blocks, times, values, marks, ends, next,
    );
    if let Some((clip, place)) = on {
        return Source::Sample(clip, place);
    }
    Source::Blocked
}
