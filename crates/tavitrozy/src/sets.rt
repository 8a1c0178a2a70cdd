// A dispatcher that is lent, in eight lists where the caller keeps them, for C, Rust and Python callers.
ghost use Rattle.definitions.specs.Moments.{outputs};
ghost use Rattle.clip.specs.Holding.{manifest};
ghost use Rattle.clip.specs.Preparing.{MadeSet};
ghost use Rattle.explicit.specs.Parsing.{explicit_fields};
ghost use Rattle.template.specs.Expanding.{template_fields};
ghost use Rattle.set_samples.specs.Parting.{lent_samples};
ghost use Rattle.pages.specs.Pages.{pages, Made};
ghost use Rattle.pages.specs.Placing.{Begins};
ghost use Rattle.set_changes.specs.Promises.{Accepts, Expands, Installs, Retimes};
ghost use Rattle.set_questions.specs.Asking.{order_of, bake_arguments};
ghost use Rattle.codes.specs.PlacedCodes.{TellsPlaced, BakesTrack};

use clip::ClipSet;
use codes::changed::number;
use codes::placed::{PlacedBakeCode, PlacedCode};
use definitions::{Default, LayerOffset, StageTime, TemplateTimes};

#[unsafe(no_mangle)]
pub extern "C" fn tavitrozy_sets_fresh(
    starts: &mut [f64],
    numbers: &mut [u64],
    xs: &mut [f64],
    ys: &mut [f64],
    blocks: &mut [f64],
    defaults: &mut [f64],
    counts: &mut [u64],
    bytes: &mut [u8],
) -> bool
    ensures { Begins (pages starts.old numbers.old xs.old ys.old blocks.old defaults.old counts.old bytes.old) result (pages starts.new numbers.new xs.new ys.new blocks.new defaults.new counts.new bytes.new) }
{
    pages::fresh(starts, numbers, xs, ys, blocks, defaults, counts, bytes)
}

#[unsafe(no_mangle)]
pub extern "C" fn tavitrozy_sets_accept(
    starts: &mut [f64],
    numbers: &mut [u64],
    xs: &mut [f64],
    ys: &mut [f64],
    blocks: &mut [f64],
    defaults: &mut [f64],
    counts: &mut [u64],
    bytes: &mut [u8],
    name: &[u8],
    declares: bool,
    clips: u64,
    newstarts: &[f64],
    newnumbers: &[f64],
    newxs: &[f64],
    newys: &[f64],
    newblocks: &[f64],
    default: Default,
    interpolate: bool,
) -> u8
    requires { Made (pages starts.old numbers.old xs.old ys.old blocks.old defaults.old counts.old bytes.old) }
    ensures { Accepts (pages starts.old numbers.old xs.old ys.old blocks.old defaults.old counts.old bytes.old) name.now declares (explicit_fields clips newstarts.now newnumbers.now newxs.now newys.now newblocks.now (manifest default interpolate)) result (pages starts.new numbers.new xs.new ys.new blocks.new defaults.new counts.new bytes.new) }
{
    number(set_changes::accept(
        starts,
        numbers,
        xs,
        ys,
        blocks,
        defaults,
        counts,
        bytes,
        name,
        declares,
        clips,
        newstarts,
        newnumbers,
        newxs,
        newys,
        newblocks,
        default,
        interpolate,
    ))
}

#[unsafe(no_mangle)]
pub extern "C" fn tavitrozy_sets_accept_template(
    starts: &mut [f64],
    numbers: &mut [u64],
    xs: &mut [f64],
    ys: &mut [f64],
    blocks: &mut [f64],
    defaults: &mut [f64],
    counts: &mut [u64],
    bytes: &mut [u8],
    name: &[u8],
    declares: bool,
    template: &[u8],
    times: TemplateTimes,
    offset: bool,
    newblocks: &[f64],
    default: Default,
    interpolate: bool,
) -> u8
    requires { Made (pages starts.old numbers.old xs.old ys.old blocks.old defaults.old counts.old bytes.old) }
    ensures { Expands (pages starts.old numbers.old xs.old ys.old blocks.old defaults.old counts.old bytes.old) name.now declares (template_fields template.now times offset newblocks.now (manifest default interpolate)) result (pages starts.new numbers.new xs.new ys.new blocks.new defaults.new counts.new bytes.new) }
{
    number(set_changes::accept_template(
        starts,
        numbers,
        xs,
        ys,
        blocks,
        defaults,
        counts,
        bytes,
        name,
        declares,
        template,
        times,
        offset,
        newblocks,
        default,
        interpolate,
    ))
}

#[unsafe(no_mangle)]
pub extern "C" fn tavitrozy_sets_install(
    starts: &mut [f64],
    numbers: &mut [u64],
    xs: &mut [f64],
    ys: &mut [f64],
    blocks: &mut [f64],
    defaults: &mut [f64],
    counts: &mut [u64],
    bytes: &mut [u8],
    name: &[u8],
    declares: bool,
    set: ClipSet,
) -> u8
    requires made { Made (pages starts.old numbers.old xs.old ys.old blocks.old defaults.old counts.old bytes.old) }
    requires made_set { MadeSet set }
    ensures { Installs (pages starts.old numbers.old xs.old ys.old blocks.old defaults.old counts.old bytes.old) name.now declares set result (pages starts.new numbers.new xs.new ys.new blocks.new defaults.new counts.new bytes.new) }
{
    number(set_changes::install(
        starts, numbers, xs, ys, blocks, defaults, counts, bytes, name, declares, set,
    ))
}

#[unsafe(no_mangle)]
pub extern "C" fn tavitrozy_sets_retime(
    starts: &mut [f64],
    numbers: &mut [u64],
    xs: &mut [f64],
    ys: &mut [f64],
    blocks: &mut [f64],
    defaults: &mut [f64],
    counts: &mut [u64],
    bytes: &mut [u8],
    name: &[u8],
    o: LayerOffset,
) -> u8
    requires { Made (pages starts.old numbers.old xs.old ys.old blocks.old defaults.old counts.old bytes.old) }
    ensures { Retimes (pages starts.old numbers.old xs.old ys.old blocks.old defaults.old counts.old bytes.old) name.now o result (pages starts.new numbers.new xs.new ys.new blocks.new defaults.new counts.new bytes.new) }
{
    number(set_changes::retime(
        starts, numbers, xs, ys, blocks, defaults, counts, bytes, name, o,
    ))
}

#[unsafe(no_mangle)]
pub extern "C" fn tavitrozy_sets_value<'a>(
    starts: &'a [f64],
    numbers: &'a [u64],
    xs: &'a [f64],
    ys: &'a [f64],
    blocks: &'a [f64],
    defaults: &'a [f64],
    counts: &'a [u64],
    bytes: &'a [u8],
    given: bool,
    listed: &[u8],
    nameends: &[u64],
    lens: &[u64],
    ends: &[u64],
    times: &[f64],
    values: &[f64],
    marks: &[u8],
    time: StageTime,
) -> PlacedCode
    requires { Made (pages starts.now numbers.now xs.now ys.now blocks.now defaults.now counts.now bytes.now) }
    ensures { TellsPlaced (pages starts.now numbers.now xs.now ys.now blocks.now defaults.now counts.now bytes.now) (order_of given listed.now nameends.now) (lent_samples lens.now ends.now times.now values.now marks.now) time result }
{
    let r = set_questions::value(
        starts, numbers, xs, ys, blocks, defaults, counts, bytes, given, listed, nameends, lens,
        ends, times, values, marks, time,
    );
    PlacedCode::from(r)
}

#[unsafe(no_mangle)]
pub extern "C" fn tavitrozy_sets_bake<'a>(
    starts: &'a [f64],
    numbers: &'a [u64],
    xs: &'a [f64],
    ys: &'a [f64],
    blocks: &'a [f64],
    defaults: &'a [f64],
    counts: &'a [u64],
    bytes: &'a [u8],
    given: bool,
    listed: &[u8],
    nameends: &[u64],
    lens: &[u64],
    ends: &[u64],
    times: &[f64],
    values: &[f64],
    marks: &[u8],
    outtimes: &mut [f64],
    outvalues: &mut [f64],
    outmarks: &mut [u8],
) -> PlacedBakeCode
    requires { Made (pages starts.now numbers.now xs.now ys.now blocks.now defaults.now counts.now bytes.now) }
    ensures { BakesTrack (pages starts.now numbers.now xs.now ys.now blocks.now defaults.now counts.now bytes.now) (bake_arguments (order_of given listed.now nameends.now) (lent_samples lens.now ends.now times.now values.now marks.now)) (outputs outtimes.old outvalues.old outmarks.old) result (outputs outtimes.new outvalues.new outmarks.new) }
{
    let r = set_questions::bake(
        starts, numbers, xs, ys, blocks, defaults, counts, bytes, given, listed, nameends, lens,
        ends, times, values, marks, outtimes, outvalues, outmarks,
    );
    PlacedBakeCode::from(r)
}
