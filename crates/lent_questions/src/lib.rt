// What is asked of a resolver that is lent, its shape by value and its lists as they stand. A question reads the lists where they are.

#![tactic(auto)]

ghost use Rattle.definitions.specs.Moments.{outputs};
ghost use Rattle.laws.specs.cell.Lent.{samples_of};
ghost use Rattle.resolver.specs.State.{Made, lent_state};
ghost use Rattle.resolver.specs.Promises.{BakesTrack, TellsTimes, TellsSamples, TellsSampleCount, TellsChangeCount, TellsClip, TellsTime, TellsValue, TellsUntimed};

use definitions::refusal::Refusal;
use definitions::{ClipTime, StageTime, ValueRead, ValueState};
use resolver::Shape;
use standing::questions;
use track::bake::Baked;

// The clip time at a stage time, by the standing set's knots.
pub fn clip_time<'a>(
    shape: Shape,
    starts: &'a [f64],
    numbers: &'a [u64],
    xs: &'a [f64],
    ys: &'a [f64],
    blocks: &'a [f64],
    t: StageTime,
) -> Result<ClipTime, Refusal>
    requires { Made (lent_state shape starts.now numbers.now xs.now ys.now blocks.now) }
    ensures { TellsTime (lent_state shape starts.now numbers.now xs.now ys.now blocks.now) t result }
{
    if !shape.stands {
        return Err(Refusal::NoSet);
    }
    if !gf::is_finite(t.0) {
        return Err(Refusal::TimeNotFinite); // 10, not 2: any finite time may be asked about
    }
    Ok(questions::map_stage_to_clip(xs, ys, shape.counts.knots, t))
}

// The clip that is active at a stage time, none in a set without starts.
pub fn active_clip<'a>(
    shape: Shape,
    starts: &'a [f64],
    numbers: &'a [u64],
    xs: &'a [f64],
    ys: &'a [f64],
    blocks: &'a [f64],
    t: StageTime,
) -> Result<Option<u64>, Refusal>
    requires { Made (lent_state shape starts.now numbers.now xs.now ys.now blocks.now) }
    ensures { TellsClip (lent_state shape starts.now numbers.now xs.now ys.now blocks.now) t result }
{
    if !shape.stands {
        return Err(Refusal::NoSet); // that is not "no clip"
    }
    if !gf::is_finite(t.0) {
        return Err(Refusal::TimeNotFinite);
    }
    Ok(questions::active_clip(starts, numbers, shape.counts.starts, t))
}

// The value at a stage time, and the sample that it was read from.
pub fn value<'a>(
    shape: Shape,
    starts: &'a [f64],
    numbers: &'a [u64],
    xs: &'a [f64],
    ys: &'a [f64],
    blocks: &'a [f64],
    times: &[f64],
    values: &[f64],
    marks: &[u8],
    ends: &[u64],
    t: StageTime,
) -> Result<ValueRead, Refusal>
    requires { Made (lent_state shape starts.now numbers.now xs.now ys.now blocks.now) }
    ensures { TellsValue (lent_state shape starts.now numbers.now xs.now ys.now blocks.now) (samples_of times.now values.now marks.now ends.now) t result }
{
    if !shape.stands {
        return Err(Refusal::NoSet); // 20 comes first
    }
    sdf::check_samples(shape.clips, times, values, marks, ends)?; // 1, 2, 9 before 10
    if !gf::is_finite(t.0) {
        return Err(Refusal::TimeNotFinite);
    }
    Ok(questions::value(
        starts,
        numbers,
        xs,
        ys,
        blocks,
        shape.counts,
        shape.manifest,
        times,
        values,
        marks,
        ends,
        t,
    ))
}

// Whether there is a value at all.
pub fn untimed<'a>(
    shape: Shape,
    starts: &'a [f64],
    numbers: &'a [u64],
    xs: &'a [f64],
    ys: &'a [f64],
    blocks: &'a [f64],
    times: &[f64],
    values: &[f64],
    marks: &[u8],
    ends: &[u64],
) -> Result<ValueState, Refusal>
    requires { Made (lent_state shape starts.now numbers.now xs.now ys.now blocks.now) }
    ensures { TellsUntimed (lent_state shape starts.now numbers.now xs.now ys.now blocks.now) (samples_of times.now values.now marks.now ends.now) result }
{
    if !shape.stands {
        return Err(Refusal::NoSet);
    }
    sdf::check_samples(shape.clips, times, values, marks, ends)?; // whichever of 1, 2, 9 it is
    Ok(questions::untimed(numbers, shape.counts.starts, shape.manifest, ends))
}

// The stage sample times, written to the lent list.
pub fn stage_sample_times<'a>(
    shape: Shape,
    starts: &'a [f64],
    numbers: &'a [u64],
    xs: &'a [f64],
    ys: &'a [f64],
    blocks: &'a [f64],
    times: &[f64],
    values: &[f64],
    marks: &[u8],
    ends: &[u64],
    out: &mut [f64],
) -> Result<usize, Refusal>
    requires { Made (lent_state shape starts.now numbers.now xs.now ys.now blocks.now) }
    ensures { TellsTimes (lent_state shape starts.now numbers.now xs.now ys.now blocks.now) (samples_of times.now values.now marks.now ends.now) out.old out.new result }
{
    if !shape.stands {
        return Err(Refusal::NoSet);
    }
    sdf::check_samples(shape.clips, times, values, marks, ends)?;
    questions::stage_sample_times(starts, numbers, xs, ys, shape.counts, times, ends, out)
}

// The stage samples: each stage sample time, with the mark of what is supplied there.
pub fn stage_samples<'a>(
    shape: Shape,
    starts: &'a [f64],
    numbers: &'a [u64],
    xs: &'a [f64],
    ys: &'a [f64],
    blocks: &'a [f64],
    times: &[f64],
    values: &[f64],
    marks: &[u8],
    ends: &[u64],
    outtimes: &mut [f64],
    outmarks: &mut [u8],
) -> Result<usize, Refusal>
    requires { Made (lent_state shape starts.now numbers.now xs.now ys.now blocks.now) }
    ensures { TellsSamples (lent_state shape starts.now numbers.now xs.now ys.now blocks.now) (samples_of times.now values.now marks.now ends.now) outtimes.old outtimes.new outmarks.old outmarks.new result }
{
    if !shape.stands {
        return Err(Refusal::NoSet);
    }
    sdf::check_samples(shape.clips, times, values, marks, ends)?;
    questions::stage_samples(
        starts,
        numbers,
        xs,
        ys,
        shape.counts,
        shape.manifest,
        times,
        values,
        marks,
        ends,
        outtimes,
        outmarks,
    )
}

// How many stage sample times there are, and stage samples: the slots to lend for them.
pub fn stage_sample_count<'a>(
    shape: Shape,
    starts: &'a [f64],
    numbers: &'a [u64],
    xs: &'a [f64],
    ys: &'a [f64],
    blocks: &'a [f64],
    times: &[f64],
    values: &[f64],
    marks: &[u8],
    ends: &[u64],
) -> Result<usize, Refusal>
    requires { Made (lent_state shape starts.now numbers.now xs.now ys.now blocks.now) }
    ensures { TellsSampleCount (lent_state shape starts.now numbers.now xs.now ys.now blocks.now) (samples_of times.now values.now marks.now ends.now) result }
{
    if !shape.stands {
        return Err(Refusal::NoSet);
    }
    sdf::check_samples(shape.clips, times, values, marks, ends)?; // a count is of accepted samples
    Ok(questions::stage_sample_count(starts, numbers, xs, ys, shape.counts, times, ends))
}

// How many changes the track has: the slots to lend for a bake.
pub fn change_count<'a>(
    shape: Shape,
    starts: &'a [f64],
    numbers: &'a [u64],
    xs: &'a [f64],
    ys: &'a [f64],
    blocks: &'a [f64],
    times: &[f64],
    values: &[f64],
    marks: &[u8],
    ends: &[u64],
) -> Result<usize, Refusal>
    requires { Made (lent_state shape starts.now numbers.now xs.now ys.now blocks.now) }
    ensures { TellsChangeCount (lent_state shape starts.now numbers.now xs.now ys.now blocks.now) (samples_of times.now values.now marks.now ends.now) result }
{
    if !shape.stands {
        return Err(Refusal::NoSet);
    }
    sdf::check_samples(shape.clips, times, values, marks, ends)?; // no 22: nothing is written
    Ok(questions::change_count(
        starts,
        numbers,
        xs,
        ys,
        blocks,
        shape.counts,
        shape.manifest,
        times,
        values,
        marks,
        ends,
    ))
}

// The track of the standing set's value: the head and the count, and the changes written to the lent lists.
pub fn bake<'a>(
    shape: Shape,
    starts: &'a [f64],
    numbers: &'a [u64],
    xs: &'a [f64],
    ys: &'a [f64],
    blocks: &'a [f64],
    times: &[f64],
    values: &[f64],
    marks: &[u8],
    ends: &[u64],
    outtimes: &mut [f64],
    outvalues: &mut [f64],
    outmarks: &mut [u8],
) -> Result<Baked, Refusal>
    requires { Made (lent_state shape starts.now numbers.now xs.now ys.now blocks.now) }
    ensures { BakesTrack (lent_state shape starts.now numbers.now xs.now ys.now blocks.now) (samples_of times.now values.now marks.now ends.now) (outputs outtimes.old outvalues.old outmarks.old) result (outputs outtimes.new outvalues.new outmarks.new) }
{
    if !shape.stands {
        return Err(Refusal::NoSet);
    }
    sdf::check_samples(shape.clips, times, values, marks, ends)?; // 1, 2, 9 before 22
    questions::bake(
        starts,
        numbers,
        xs,
        ys,
        blocks,
        shape.counts,
        shape.manifest,
        times,
        values,
        marks,
        ends,
        outtimes,
        outvalues,
        outmarks,
    )
}
