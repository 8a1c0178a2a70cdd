// The resolver for C, Rust and Python callers: structs of a few numbers go by value, a slice as a pointer and a length, an enum as a
// struct of numbers. A resolver is lent, its shape by value and its lists where the caller keeps them. Each call's contract is the operation's promise.

#![tactic(auto)]

pub mod sets;

ghost use Rattle.std.specs.Prelude.{◌≡◌};
ghost use Rattle.gf.specs.TotalOrder.{key_of, PlacedBy};
ghost use Rattle.definitions.specs.Examining.{explicitly, by_template};
ghost use Rattle.definitions.specs.Reading.{track_of_lists, read_by_halves};
ghost use Rattle.definitions.specs.Moments.{outputs};
ghost use Rattle.laws.specs.cell.Lent.{samples_of};
ghost use Rattle.clip.specs.Holding.{manifest};
ghost use Rattle.clip.specs.Preparing.{MadeSet};
ghost use Rattle.codes.specs.Changed.{Examines};
ghost use Rattle.explicit.specs.Parsing.{explicit_fields};
ghost use Rattle.template.specs.Expanding.{offset_of, template_fields};
ghost use Rattle.cell.specs.step.Entries.{entry_is};
ghost use Rattle.resolver.specs.State.{Made, lent_state};
ghost use Rattle.resolver.specs.Promises.{BeginsLent, Accepts, Expands, Installs, Retimes};
ghost use Rattle.codes.specs.Codes.{TellsClip, TellsTime, TellsValue, TellsUntimed, TellsTimes, TellsSamples, TellsSampleCount, TellsChangeCount, BakesTrack, SaysName, SaysClipTimes, Normalizes};

use cell::step::entry::Entry;
use clip::ClipSet;
use codes::changed::{Prepared, Settled, settle};
use codes::{BakedCode, ClipCode, Counted, TimeCode, UntimedCode, ValueCode};
use definitions::{ClipTime, Default, LayerOffset, StageTime, TemplateTimes};
use resolver::Shape;

// ---- a resolver that is lent: its shape by value, its lists as they stand

#[unsafe(no_mangle)]
pub extern "C" fn tavitrozy_lent_fresh() -> Shape
    ensures { BeginsLent result }
{
    lent_changes::fresh()
}

#[unsafe(no_mangle)]
pub extern "C" fn tavitrozy_lent_accept(
    shape: Shape,
    starts: &mut [f64],
    numbers: &mut [u64],
    xs: &mut [f64],
    ys: &mut [f64],
    blocks: &mut [f64],
    clips: u64,
    newstarts: &[f64],
    newnumbers: &[f64],
    newxs: &[f64],
    newys: &[f64],
    newblocks: &[f64],
    fallback: Default,
    interpolate: bool,
) -> Settled
    requires { Made (lent_state shape starts.old numbers.old xs.old ys.old blocks.old) }
    ensures { Accepts (lent_state shape starts.old numbers.old xs.old ys.old blocks.old) (explicit_fields clips newstarts.now newnumbers.now newxs.now newys.now newblocks.now (manifest fallback interpolate)) result.number (lent_state result.shape starts.new numbers.new xs.new ys.new blocks.new) }
{
    let after = lent_changes::accept(
        shape,
        starts,
        numbers,
        xs,
        ys,
        blocks,
        clips,
        newstarts,
        newnumbers,
        newxs,
        newys,
        newblocks,
        fallback,
        interpolate,
    );
    settle(shape, after)
}

#[unsafe(no_mangle)]
pub extern "C" fn tavitrozy_lent_accept_template(
    shape: Shape,
    starts: &mut [f64],
    numbers: &mut [u64],
    xs: &mut [f64],
    ys: &mut [f64],
    blocks: &mut [f64],
    pattern: &[u8],
    times: TemplateTimes,
    offset: bool,
    newblocks: &[f64],
    fallback: Default,
    interpolate: bool,
) -> Settled
    requires { Made (lent_state shape starts.old numbers.old xs.old ys.old blocks.old) }
    ensures { Expands (lent_state shape starts.old numbers.old xs.old ys.old blocks.old) (template_fields pattern.now times offset newblocks.now (manifest fallback interpolate)) result.number (lent_state result.shape starts.new numbers.new xs.new ys.new blocks.new) }
{
    let after = lent_changes::accept_template(
        shape,
        starts,
        numbers,
        xs,
        ys,
        blocks,
        pattern,
        times,
        offset,
        newblocks,
        fallback,
        interpolate,
    );
    settle(shape, after)
}

#[unsafe(no_mangle)]
pub extern "C" fn tavitrozy_lent_install(
    shape: Shape,
    starts: &mut [f64],
    numbers: &mut [u64],
    xs: &mut [f64],
    ys: &mut [f64],
    blocks: &mut [f64],
    set: ClipSet,
) -> Shape
    requires made { Made (lent_state shape starts.old numbers.old xs.old ys.old blocks.old) }
    requires made_set { MadeSet set }
    ensures { Installs (lent_state shape starts.old numbers.old xs.old ys.old blocks.old) set (lent_state result starts.new numbers.new xs.new ys.new blocks.new) }
{
    lent_changes::install(shape, starts, numbers, xs, ys, blocks, set)
}

#[unsafe(no_mangle)]
pub extern "C" fn tavitrozy_lent_retime(
    shape: Shape,
    starts: &mut [f64],
    numbers: &mut [u64],
    xs: &mut [f64],
    ys: &mut [f64],
    blocks: &mut [f64],
    offset: LayerOffset,
) -> Settled
    requires { Made (lent_state shape starts.old numbers.old xs.old ys.old blocks.old) }
    ensures { Retimes (lent_state shape starts.old numbers.old xs.old ys.old blocks.old) offset result.number (lent_state result.shape starts.new numbers.new xs.new ys.new blocks.new) }
{
    let after = lent_changes::retime(shape, starts, numbers, xs, ys, blocks, offset);
    settle(shape, after)
}

#[unsafe(no_mangle)]
pub extern "C" fn tavitrozy_lent_active_clip<'a>(
    shape: Shape,
    starts: &'a [f64],
    numbers: &'a [u64],
    xs: &'a [f64],
    ys: &'a [f64],
    blocks: &'a [f64],
    time: StageTime,
) -> ClipCode
    requires { Made (lent_state shape starts.now numbers.now xs.now ys.now blocks.now) }
    ensures { TellsClip (lent_state shape starts.now numbers.now xs.now ys.now blocks.now) time result }
{
    ClipCode::from(lent_questions::active_clip(shape, starts, numbers, xs, ys, blocks, time))
}

#[unsafe(no_mangle)]
pub extern "C" fn tavitrozy_lent_clip_time<'a>(
    shape: Shape,
    starts: &'a [f64],
    numbers: &'a [u64],
    xs: &'a [f64],
    ys: &'a [f64],
    blocks: &'a [f64],
    time: StageTime,
) -> TimeCode
    requires { Made (lent_state shape starts.now numbers.now xs.now ys.now blocks.now) }
    ensures { TellsTime (lent_state shape starts.now numbers.now xs.now ys.now blocks.now) time result }
{
    TimeCode::from(lent_questions::clip_time(shape, starts, numbers, xs, ys, blocks, time))
}

#[unsafe(no_mangle)]
pub extern "C" fn tavitrozy_lent_value<'a>(
    shape: Shape,
    starts: &'a [f64],
    numbers: &'a [u64],
    xs: &'a [f64],
    ys: &'a [f64],
    blocks: &'a [f64],
    times: &[f64],
    values: &[f64],
    marks: &[u8],
    ends: &[u64],
    time: StageTime,
) -> ValueCode
    requires { Made (lent_state shape starts.now numbers.now xs.now ys.now blocks.now) }
    ensures { TellsValue (lent_state shape starts.now numbers.now xs.now ys.now blocks.now) (samples_of times.now values.now marks.now ends.now) time result }
{
    let r = lent_questions::value(
        shape, starts, numbers, xs, ys, blocks, times, values, marks, ends, time,
    );
    ValueCode::from(r)
}

#[unsafe(no_mangle)]
pub extern "C" fn tavitrozy_lent_untimed<'a>(
    shape: Shape,
    starts: &'a [f64],
    numbers: &'a [u64],
    xs: &'a [f64],
    ys: &'a [f64],
    blocks: &'a [f64],
    times: &[f64],
    values: &[f64],
    marks: &[u8],
    ends: &[u64],
) -> UntimedCode
    requires { Made (lent_state shape starts.now numbers.now xs.now ys.now blocks.now) }
    ensures { TellsUntimed (lent_state shape starts.now numbers.now xs.now ys.now blocks.now) (samples_of times.now values.now marks.now ends.now) result }
{
    let r = lent_questions::untimed(
        shape, starts, numbers, xs, ys, blocks, times, values, marks, ends,
    );
    UntimedCode::from(r)
}

#[unsafe(no_mangle)]
pub extern "C" fn tavitrozy_lent_stage_sample_times<'a>(
    shape: Shape,
    starts: &'a [f64],
    numbers: &'a [u64],
    xs: &'a [f64],
    ys: &'a [f64],
    blocks: &'a [f64],
    times: &[f64],
    values: &[f64],
    marks: &[u8],
    ends: &[u64],
    ts: &mut [f64],
) -> Counted
    requires { Made (lent_state shape starts.now numbers.now xs.now ys.now blocks.now) }
    ensures { TellsTimes (lent_state shape starts.now numbers.now xs.now ys.now blocks.now) (samples_of times.now values.now marks.now ends.now) ts.old ts.new result }
{
    let r = lent_questions::stage_sample_times(
        shape, starts, numbers, xs, ys, blocks, times, values, marks, ends, ts,
    );
    Counted::from(r)
}

#[unsafe(no_mangle)]
pub extern "C" fn tavitrozy_lent_stage_samples<'a>(
    shape: Shape,
    starts: &'a [f64],
    numbers: &'a [u64],
    xs: &'a [f64],
    ys: &'a [f64],
    blocks: &'a [f64],
    times: &[f64],
    values: &[f64],
    marks: &[u8],
    ends: &[u64],
    ts: &mut [f64],
    ms: &mut [u8],
) -> Counted
    requires { Made (lent_state shape starts.now numbers.now xs.now ys.now blocks.now) }
    ensures { TellsSamples (lent_state shape starts.now numbers.now xs.now ys.now blocks.now) (samples_of times.now values.now marks.now ends.now) ts.old ts.new ms.old ms.new result }
{
    let r = lent_questions::stage_samples(
        shape, starts, numbers, xs, ys, blocks, times, values, marks, ends, ts, ms,
    );
    Counted::from(r)
}

#[unsafe(no_mangle)]
pub extern "C" fn tavitrozy_lent_stage_sample_count<'a>(
    shape: Shape,
    starts: &'a [f64],
    numbers: &'a [u64],
    xs: &'a [f64],
    ys: &'a [f64],
    blocks: &'a [f64],
    times: &[f64],
    values: &[f64],
    marks: &[u8],
    ends: &[u64],
) -> Counted
    requires { Made (lent_state shape starts.now numbers.now xs.now ys.now blocks.now) }
    ensures { TellsSampleCount (lent_state shape starts.now numbers.now xs.now ys.now blocks.now) (samples_of times.now values.now marks.now ends.now) result }
{
    let r = lent_questions::stage_sample_count(
        shape, starts, numbers, xs, ys, blocks, times, values, marks, ends,
    );
    Counted::from(r)
}

#[unsafe(no_mangle)]
pub extern "C" fn tavitrozy_lent_change_count<'a>(
    shape: Shape,
    starts: &'a [f64],
    numbers: &'a [u64],
    xs: &'a [f64],
    ys: &'a [f64],
    blocks: &'a [f64],
    times: &[f64],
    values: &[f64],
    marks: &[u8],
    ends: &[u64],
) -> Counted
    requires { Made (lent_state shape starts.now numbers.now xs.now ys.now blocks.now) }
    ensures { TellsChangeCount (lent_state shape starts.now numbers.now xs.now ys.now blocks.now) (samples_of times.now values.now marks.now ends.now) result }
{
    let r = lent_questions::change_count(
        shape, starts, numbers, xs, ys, blocks, times, values, marks, ends,
    );
    Counted::from(r)
}

#[unsafe(no_mangle)]
pub extern "C" fn tavitrozy_lent_bake<'a>(
    shape: Shape,
    starts: &'a [f64],
    numbers: &'a [u64],
    xs: &'a [f64],
    ys: &'a [f64],
    blocks: &'a [f64],
    times: &[f64],
    values: &[f64],
    marks: &[u8],
    ends: &[u64],
    outtimes: &mut [f64],
    outvalues: &mut [f64],
    outmarks: &mut [u8],
) -> BakedCode
    requires { Made (lent_state shape starts.now numbers.now xs.now ys.now blocks.now) }
    ensures { BakesTrack (lent_state shape starts.now numbers.now xs.now ys.now blocks.now) (samples_of times.now values.now marks.now ends.now) (outputs outtimes.old outvalues.old outmarks.old) result (outputs outtimes.new outvalues.new outmarks.new) }
{
    let r = lent_questions::bake(
        shape, starts, numbers, xs, ys, blocks, times, values, marks, ends, outtimes, outvalues,
        outmarks,
    );
    BakedCode::from(r)
}

// ---- without a resolver

#[unsafe(no_mangle)]
pub extern "C" fn tavitrozy_examine(
    clips: u64,
    starts: &[f64],
    numbers: &[f64],
    xs: &[f64],
    ys: &[f64],
    blocks: &[f64],
    fallback: Default,
    interpolate: bool,
) -> Prepared
    ensures { Examines (explicitly (explicit_fields clips starts.now numbers.now xs.now ys.now blocks.now (manifest fallback interpolate))) result }
{
    Prepared::from(explicit::parse_set(
        clips,
        starts,
        numbers,
        xs,
        ys,
        blocks,
        fallback,
        interpolate,
    ))
}

#[unsafe(no_mangle)]
pub extern "C" fn tavitrozy_examine_template(
    pattern: &[u8],
    times: TemplateTimes,
    offset: bool,
    blocks: &[f64],
    fallback: Default,
    interpolate: bool,
) -> Prepared
    ensures { Examines (by_template (template_fields pattern.now times offset blocks.now (manifest fallback interpolate))) result }
{
    Prepared::from(template::expand_template(pattern, times, offset, blocks, fallback, interpolate))
}

#[unsafe(no_mangle)]
pub extern "C" fn tavitrozy_read(
    head: Entry,
    times: &[f64],
    values: &[f64],
    marks: &[u8],
    time: StageTime,
) -> Entry
    ensures { entry_is result ≡ read_by_halves (track_of_lists head.value head.mark times.now values.now marks.now) time.0 }
{
    track::held::read_held(head.mark, head.value, times, values, marks, time.0)
}

#[unsafe(no_mangle)]
pub extern "C" fn tavitrozy_name(pattern: &[u8], time: ClipTime, out: &mut [u8]) -> Counted
    ensures { SaysName pattern.now time out.old out.new result }
{
    Counted::from(names::name(pattern, time, out))
}

// The count is that of the clips.
#[unsafe(no_mangle)]
pub extern "C" fn tavitrozy_template_clip_times(
    times: TemplateTimes,
    offset: bool,
    out: &mut [f64],
) -> Counted
    ensures { SaysClipTimes times (offset_of times offset) out.old out.new result }
{
    Counted::from(template::clip_times(times, offset, out))
}

#[unsafe(no_mangle)]
pub extern "C" fn tavitrozy_normalize(
    times: &[f64],
    values: &[f64],
    marks: &[u8],
    outtimes: &mut [f64],
    outvalues: &mut [f64],
    outmarks: &mut [u8],
) -> Counted
    ensures { Normalizes times.now values.now marks.now (outputs outtimes.old outvalues.old outmarks.old) (outputs outtimes.new outvalues.new outmarks.new) result }
{
    let r = normal_form::normalize_time_samples(
        times, values, marks, outtimes, outvalues, outmarks,
    );
    Counted::from(r)
}

// Of a double's bit pattern, a NaN's included.
#[unsafe(no_mangle)]
pub extern "C" fn tavitrozy_total_key(bits: u64) -> u64
    ensures { (result ≡ key_of bits) × PlacedBy bits result }
{
    gf::total_order::key(bits)
}
