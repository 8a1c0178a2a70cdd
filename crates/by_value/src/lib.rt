// The operations of a resolver that is held by value. Its questions lend their own lists to those of a resolver that is lent.

#![tactic(auto)]

ghost use Rattle.std.specs.Prelude.{◌≡◌};
ghost use Rattle.definitions.specs.Moments.{outputs};
ghost use Rattle.definitions.specs.Refusals.{number_in};
ghost use Rattle.laws.specs.cell.Lent.{samples_of};
ghost use Rattle.clip.specs.Holding.{manifest};
ghost use Rattle.clip.specs.Preparing.{MadeSet};
ghost use Rattle.explicit.specs.Parsing.{explicit_fields};
ghost use Rattle.template.specs.Expanding.{template_fields};
ghost use Rattle.resolver.specs.State.{Made, left};
ghost use Rattle.resolver.specs.Promises.{Begins, Accepts, Expands, Retimes, BakesTrack, TellsTimes, TellsSamples, TellsSampleCount, TellsChangeCount, TellsClip, TellsTime, TellsValue, TellsUntimed, Installs};

use clip::ClipSet;
use definitions::refusal::Refusal;
use definitions::{
    ClipTime, Default, LayerOffset, StageTime, TemplateTimes, ValueRead, ValueState,
};
use resolver::{Resolver, Shape};
use track::bake::Baked;

// No set stands.
pub fn fresh() -> Resolver
    ensures { Begins result }
{
    let set = standing::installed(clip::empty());
    Resolver { stands: false, set }
}

// The set of the fields takes the place of the standing one, unless a number refuses it.
pub fn accept(
    resolver: Resolver,
    clips: u64,
    starts: &[f64],
    numbers: &[f64],
    xs: &[f64],
    ys: &[f64],
    blocks: &[f64],
    default: Default,
    interpolate: bool,
) -> Result<Resolver, Refusal>
    requires { Made resolver }
    ensures { Accepts resolver (explicit_fields clips starts.now numbers.now xs.now ys.now blocks.now (manifest default interpolate)) (number_in result) (left resolver result) }
{
    let prepared = explicit::parse_set(
        clips,
        starts,
        numbers,
        xs,
        ys,
        blocks,
        default,
        interpolate,
    )?;
    Ok(install(resolver, prepared))
}

// The set that the template expands to takes the place of the standing one, unless a number refuses it.
// Where `offset` is false the offset's slot is not looked at.
pub fn accept_template(
    resolver: Resolver,
    template: &[u8],
    times: TemplateTimes,
    offset: bool,
    blocks: &[f64],
    default: Default,
    interpolate: bool,
) -> Result<Resolver, Refusal>
    requires { Made resolver }
    ensures { Expands resolver (template_fields template.now times offset blocks.now (manifest default interpolate)) (number_in result) (left resolver result) }
{
    let prepared = template::expand_template(
        template,
        times,
        offset,
        blocks,
        default,
        interpolate,
    )?;
    Ok(install(resolver, prepared))
}

// The prepared set takes the place of the standing one. Nothing refuses it.
pub fn install(resolver: Resolver, set: ClipSet) -> Resolver
    requires made { Made resolver }
    requires made_set { MadeSet set }
    ensures { Installs resolver set result }
{
    let set = standing::installed(set);
    Resolver { stands: true, set }
}

// The standing set moved, as the retimings before it left it, unless a number refuses it.
pub fn retime(resolver: Resolver, o: LayerOffset) -> Result<Resolver, Refusal>
    requires { Made resolver }
    ensures { Retimes resolver o (number_in result) (left resolver result) }
{
    if !resolver.stands {
        return Err(Refusal::NoSet);
    }
    let set = standing::packed(
        resolver.set.clips,
        &resolver.set.starts,
        &resolver.set.numbers,
        &resolver.set.xs,
        &resolver.set.ys,
        &resolver.set.blocks,
        resolver.set.counts,
        resolver.set.manifest,
    );
    let moved = set.retime_stage_times(o)?;
    Ok(install(resolver, moved))
}

// What of the resolver is no list: the questions that follow lend it beside the lists.
fn shape_of(resolver: Resolver) -> Shape
    ensures { result ≡ record { stands = resolver.stands; clips = resolver.set.clips; counts = resolver.set.counts; manifest = resolver.set.manifest } }
{
    Shape {
        stands: resolver.stands,
        clips: resolver.set.clips,
        counts: resolver.set.counts,
        manifest: resolver.set.manifest,
    }
}

// The clip time at a stage time, by the standing set's knots.
pub fn clip_time(resolver: Resolver, t: StageTime) -> Result<ClipTime, Refusal>
    requires { Made resolver }
    ensures { TellsTime resolver t result }
{
    lent_questions::clip_time(
        shape_of(resolver),
        &resolver.set.starts,
        &resolver.set.numbers,
        &resolver.set.xs,
        &resolver.set.ys,
        &resolver.set.blocks,
        t,
    )
}

// The clip that is active at a stage time, none in a set without starts.
pub fn active_clip(resolver: Resolver, t: StageTime) -> Result<Option<u64>, Refusal>
    requires { Made resolver }
    ensures { TellsClip resolver t result }
{
    lent_questions::active_clip(
        shape_of(resolver),
        &resolver.set.starts,
        &resolver.set.numbers,
        &resolver.set.xs,
        &resolver.set.ys,
        &resolver.set.blocks,
        t,
    )
}

// The value at a stage time, and the sample that it was read from.
pub fn value(
    resolver: Resolver,
    times: &[f64],
    values: &[f64],
    marks: &[u8],
    ends: &[u64],
    t: StageTime,
) -> Result<ValueRead, Refusal>
    requires { Made resolver }
    ensures { TellsValue resolver (samples_of times.now values.now marks.now ends.now) t result }
{
    lent_questions::value(
        shape_of(resolver),
        &resolver.set.starts,
        &resolver.set.numbers,
        &resolver.set.xs,
        &resolver.set.ys,
        &resolver.set.blocks,
        times,
        values,
        marks,
        ends,
        t,
    )
}

// Whether there is a value at all.
pub fn untimed(
    resolver: Resolver,
    times: &[f64],
    values: &[f64],
    marks: &[u8],
    ends: &[u64],
) -> Result<ValueState, Refusal>
    requires { Made resolver }
    ensures { TellsUntimed resolver (samples_of times.now values.now marks.now ends.now) result }
{
    lent_questions::untimed(
        shape_of(resolver),
        &resolver.set.starts,
        &resolver.set.numbers,
        &resolver.set.xs,
        &resolver.set.ys,
        &resolver.set.blocks,
        times,
        values,
        marks,
        ends,
    )
}

// The stage sample times, written to the lent list.
pub fn stage_sample_times(
    resolver: Resolver,
    times: &[f64],
    values: &[f64],
    marks: &[u8],
    ends: &[u64],
    out: &mut [f64],
) -> Result<usize, Refusal>
    requires { Made resolver }
    ensures { TellsTimes resolver (samples_of times.now values.now marks.now ends.now) out.old out.new result }
{
    lent_questions::stage_sample_times(
        shape_of(resolver),
        &resolver.set.starts,
        &resolver.set.numbers,
        &resolver.set.xs,
        &resolver.set.ys,
        &resolver.set.blocks,
        times,
        values,
        marks,
        ends,
        out,
    )
}

// The stage samples: each stage sample time, with the mark of what is supplied there.
pub fn stage_samples(
    resolver: Resolver,
    times: &[f64],
    values: &[f64],
    marks: &[u8],
    ends: &[u64],
    outtimes: &mut [f64],
    outmarks: &mut [u8],
) -> Result<usize, Refusal>
    requires { Made resolver }
    ensures { TellsSamples resolver (samples_of times.now values.now marks.now ends.now) outtimes.old outtimes.new outmarks.old outmarks.new result }
{
    lent_questions::stage_samples(
        shape_of(resolver),
        &resolver.set.starts,
        &resolver.set.numbers,
        &resolver.set.xs,
        &resolver.set.ys,
        &resolver.set.blocks,
        times,
        values,
        marks,
        ends,
        outtimes,
        outmarks,
    )
}

// How many stage sample times there are, and stage samples: the slots to lend for them.
pub fn stage_sample_count(
    resolver: Resolver,
    times: &[f64],
    values: &[f64],
    marks: &[u8],
    ends: &[u64],
) -> Result<usize, Refusal>
    requires { Made resolver }
    ensures { TellsSampleCount resolver (samples_of times.now values.now marks.now ends.now) result }
{
    lent_questions::stage_sample_count(
        shape_of(resolver),
        &resolver.set.starts,
        &resolver.set.numbers,
        &resolver.set.xs,
        &resolver.set.ys,
        &resolver.set.blocks,
        times,
        values,
        marks,
        ends,
    )
}

// How many changes the track has: the slots to lend for a bake.
pub fn change_count(
    resolver: Resolver,
    times: &[f64],
    values: &[f64],
    marks: &[u8],
    ends: &[u64],
) -> Result<usize, Refusal>
    requires { Made resolver }
    ensures { TellsChangeCount resolver (samples_of times.now values.now marks.now ends.now) result }
{
    lent_questions::change_count(
        shape_of(resolver),
        &resolver.set.starts,
        &resolver.set.numbers,
        &resolver.set.xs,
        &resolver.set.ys,
        &resolver.set.blocks,
        times,
        values,
        marks,
        ends,
    )
}

// The track of the standing set's value: the head and the count, and the changes written to the lent lists.
pub fn bake(
    resolver: Resolver,
    times: &[f64],
    values: &[f64],
    marks: &[u8],
    ends: &[u64],
    outtimes: &mut [f64],
    outvalues: &mut [f64],
    outmarks: &mut [u8],
) -> Result<Baked, Refusal>
    requires { Made resolver }
    ensures { BakesTrack resolver (samples_of times.now values.now marks.now ends.now) (outputs outtimes.old outvalues.old outmarks.old) result (outputs outtimes.new outvalues.new outmarks.new) }
{
    lent_questions::bake(
        shape_of(resolver),
        &resolver.set.starts,
        &resolver.set.numbers,
        &resolver.set.xs,
        &resolver.set.ys,
        &resolver.set.blocks,
        times,
        values,
        marks,
        ends,
        outtimes,
        outvalues,
        outmarks,
    )
}
