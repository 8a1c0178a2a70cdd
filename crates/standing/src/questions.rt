// The questions that are asked of a standing set. Each is lent whole arrays, of which it lends on the entries that count.
ghost use Rattle.std.specs.Prelude.{◌≡◌, ℕ, ◌<◌, T, length, take};
ghost use Rattle.std.specs.Float.Ieee.Scale.{finite};
ghost use Rattle.definitions.specs.ClipSet.{max_active, max_knots};
ghost use Rattle.definitions.specs.StageSamples.{stage_samples};
ghost use Rattle.definitions.specs.Timing.{active_entry, clip_of, map_stage_to_clip};
ghost use Rattle.definitions.specs.Value.{value_read};
ghost use Rattle.definitions.specs.Moments.{outputs};
ghost use Rattle.laws.specs.list.Every.{Every};
ghost use Rattle.laws.specs.list.Places.{Ascending};
ghost use Rattle.laws.specs.cell.Lent.{active_of, knots_of, samples_of};
ghost use Rattle.clip.specs.Holding.{Room};
ghost use Rattle.value.specs.Untimed.{untimed_of};
ghost use Rattle.track.specs.Bakes.{track_of, BakeIs};
ghost use Rattle.standing.specs.Lists.{count_of, ListsTimes, ListsSamples};
ghost use Rattle.standing.specs.Standing.{lent_set, lent_unblocked, Asked, TimesAsked, lent_times, SamplesAsked, answered};

use crate::Counts;
use definitions::refusal::Refusal;
use definitions::{ClipTime, Missing, StageTime, ValueRead, ValueState};
use track::bake::Baked;

// The clip of the last start at or before t, of the first start if there is none: the Rust's `active_entry`.
pub fn active_clip<'a>(starts: &'a [f64], numbers: &'a [u64], n: usize, t: StageTime) -> Option<u64>
    requires fact_1 { Room max_active starts.now n }
    requires fact_2 { Room max_active numbers.now n }
    requires fact_3 { Ascending (take n starts.now) }
    ensures { result ≡ answered (clip_of (active_entry (active_of (take n starts.now) (take n numbers.now)) t)) }
{
    if n == 0 {
        return None;
    }
    let position = lists::last_at_most(&starts[..n], t.0);
    Some(numbers[position])
}

// The knot mapping alone turns a stage time into a clip time.
pub fn map_stage_to_clip<'a>(xs: &'a [f64], ys: &'a [f64], n: usize, t: StageTime) -> ClipTime
    requires fact_1 { Room max_knots xs.now n }
    requires fact_2 { Room max_knots ys.now n }
    requires fact_3 { Ascending (take n xs.now) }
    ensures { result ≡ map_stage_to_clip (knots_of (take n xs.now) (take n ys.now)) t }
{
    lists::map_time(&xs[..n], &ys[..n], t)
}

// The value at a stage time, the Rust's `value_in_set`, and the sample that it was read from.
pub fn value<'a>(
    starts: &'a [f64],
    numbers: &'a [u64],
    xs: &'a [f64],
    ys: &'a [f64],
    blocks: &'a [f64],
    counts: Counts,
    m: Missing,
    times: &[f64],
    values: &[f64],
    marks: &[u8],
    ends: &[u64],
    t: StageTime,
) -> ValueRead
    requires fact_1 { Asked counts starts.now numbers.now xs.now ys.now blocks.now m times.now values.now marks.now ends.now }
    requires fact_2 { T (finite t.0) }
    ensures { result ≡ value_read (lent_set (length ends.now) counts starts.now numbers.now xs.now ys.now blocks.now m) (samples_of times.now values.now marks.now ends.now) t }
{
    let n = counts.starts;
    let k = counts.knots;
    let b = counts.blocks;
    value::value::value_read(
        &starts[..n],
        &numbers[..n],
        &xs[..k],
        &ys[..k],
        &blocks[..b],
        m,
        times,
        values,
        marks,
        ends,
        t,
    )
}

// Whether there is a value at all.
pub fn untimed(numbers: &[u64], n: usize, m: Missing, ends: &[u64]) -> ValueState
    requires fact_1 { Room max_active numbers.now n }
    requires fact_2 { Every (λ (c : ℕ). c < length ends.now) (take n numbers.now) }
    ensures { result ≡ untimed_of (take n numbers.now) m ends.now }
{
    value::untimed::untimed_answer_in_set(&numbers[..n], m, ends)
}

// The track, written to the lent lists.
pub fn bake<'a>(
    starts: &'a [f64],
    numbers: &'a [u64],
    xs: &'a [f64],
    ys: &'a [f64],
    blocks: &'a [f64],
    counts: Counts,
    m: Missing,
    times: &[f64],
    values: &[f64],
    marks: &[u8],
    ends: &[u64],
    outtimes: &mut [f64],
    outvalues: &mut [f64],
    outmarks: &mut [u8],
) -> Result<Baked, Refusal>
    requires { Asked counts starts.now numbers.now xs.now ys.now blocks.now m times.now values.now marks.now ends.now }
    ensures { BakeIs (lent_set (length ends.now) counts starts.now numbers.now xs.now ys.now blocks.now m) (samples_of times.now values.now marks.now ends.now) (outputs outtimes.old outvalues.old outmarks.old) (outputs outtimes.new outvalues.new outmarks.new) result }
{
    let n = counts.starts;
    let k = counts.knots;
    let b = counts.blocks;
    track::bake::bake(
        &starts[..n],
        &numbers[..n],
        &xs[..k],
        &ys[..k],
        &blocks[..b],
        m,
        times,
        values,
        marks,
        ends,
        outtimes,
        outvalues,
        outmarks,
    )
}

// How many changes the track has.
pub fn change_count<'a>(
    starts: &'a [f64],
    numbers: &'a [u64],
    xs: &'a [f64],
    ys: &'a [f64],
    blocks: &'a [f64],
    counts: Counts,
    m: Missing,
    times: &[f64],
    values: &[f64],
    marks: &[u8],
    ends: &[u64],
) -> usize
    requires { Asked counts starts.now numbers.now xs.now ys.now blocks.now m times.now values.now marks.now ends.now }
    ensures { result ≡ length (track_of (lent_set (length ends.now) counts starts.now numbers.now xs.now ys.now blocks.now m) (samples_of times.now values.now marks.now ends.now)).changes }
{
    let n = counts.starts;
    let k = counts.knots;
    let b = counts.blocks;
    track::count::change_count(
        &starts[..n],
        &numbers[..n],
        &xs[..k],
        &ys[..k],
        &blocks[..b],
        m,
        times,
        values,
        marks,
        ends,
    )
}

// How many stage sample times there are.
pub fn stage_sample_count<'a>(
    starts: &'a [f64],
    numbers: &'a [u64],
    xs: &'a [f64],
    ys: &'a [f64],
    counts: Counts,
    times: &[f64],
    ends: &[u64],
) -> usize
    requires { TimesAsked counts starts.now numbers.now xs.now ys.now times.now ends.now }
    ensures { result ≡ length (lent_times counts starts.now numbers.now xs.now ys.now times.now ends.now) }
{
    let n = counts.starts;
    let k = counts.knots;
    stage::stage_sample_count(&starts[..n], &numbers[..n], &xs[..k], &ys[..k], times, ends)
}

// The stage sample times, written to the lent list.
pub fn stage_sample_times<'a>(
    starts: &'a [f64],
    numbers: &'a [u64],
    xs: &'a [f64],
    ys: &'a [f64],
    counts: Counts,
    times: &[f64],
    ends: &[u64],
    out: &mut [f64],
) -> Result<usize, Refusal>
    requires { TimesAsked counts starts.now numbers.now xs.now ys.now times.now ends.now }
    ensures { ListsTimes (lent_times counts starts.now numbers.now xs.now ys.now times.now ends.now) out.old out.new result }
{
    let n = counts.starts;
    let k = counts.knots;
    let written = stage::stage_sample_times(
        &starts[..n],
        &numbers[..n],
        &xs[..k],
        &ys[..k],
        times,
        ends,
        out,
    );
    counted(written)
}

// The stage samples, written to the lent lists.
pub fn stage_samples<'a>(
    starts: &'a [f64],
    numbers: &'a [u64],
    xs: &'a [f64],
    ys: &'a [f64],
    counts: Counts,
    m: Missing,
    times: &[f64],
    values: &[f64],
    marks: &[u8],
    ends: &[u64],
    outtimes: &mut [f64],
    outmarks: &mut [u8],
) -> Result<usize, Refusal>
    requires { SamplesAsked counts starts.now numbers.now xs.now ys.now m times.now values.now marks.now ends.now }
    ensures { ListsSamples (stage_samples (lent_unblocked counts starts.now numbers.now xs.now ys.now m ends.now) (samples_of times.now values.now marks.now ends.now)) outtimes.old outtimes.new outmarks.old outmarks.new result }
{
    let n = counts.starts;
    let k = counts.knots;
    let written = stage::stage_samples(
        &starts[..n],
        &numbers[..n],
        &xs[..k],
        &ys[..k],
        m,
        times,
        values,
        marks,
        ends,
        outtimes,
        outmarks,
    );
    counted(written)
}

// How many were written, or 22.
fn counted(written: Option<usize>) -> Result<usize, Refusal>
    ensures { result ≡ count_of written }
{
    match written {
        Some(n) => Ok(n),
        None => Err(Refusal::NoRoom),
    }
}
