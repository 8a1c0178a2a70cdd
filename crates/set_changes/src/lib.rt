// A set under a name: accepted, installed or retimed.

#![tactic(auto)]

ghost use Rattle.std.specs.Prelude.{◌≡◌, ◌<◌, get_or};
ghost use Rattle.definitions.specs.Refusals.{number_in};
ghost use Rattle.clip.specs.Holding.{manifest};
ghost use Rattle.clip.specs.Preparing.{MadeSet};
ghost use Rattle.explicit.specs.Parsing.{explicit_fields};
ghost use Rattle.template.specs.Expanding.{template_fields};
ghost use Rattle.pages.specs.Pages.{pages, Made, Names};
ghost use Rattle.set_changes.specs.Promises.{name_number, Extends, RetimesAt, Accepts, Expands, Installs, Retimes};

use clip::ClipSet;
use definitions::refusal::Refusal;
use definitions::{Default, LayerOffset, TemplateTimes};
use dispatch::{NAME_BYTES, SETS};
use pages::{placing, storing};

// 23 where no set can stand under the name.
fn check_name(counts: &[u64], bytes: &[u8], name: &[u8]) -> Result<(), Refusal>
    requires { Names counts.now bytes.now }
    ensures { number_in result ≡ name_number counts.now bytes.now name.now }
{
    let n = counts[0] as usize;
    if SETS <= n {
        return Err(Refusal::NotTaken);
    }
    if NAME_BYTES < name.len() {
        return Err(Refusal::NotTaken);
    }
    if set_names::find(bytes, n, name).is_some() {
        return Err(Refusal::NotTaken);
    }
    Ok(())
}

// The set on the page behind the last.
fn extend(
    starts: &mut [f64],
    numbers: &mut [u64],
    xs: &mut [f64],
    ys: &mut [f64],
    blocks: &mut [f64],
    defaults: &mut [f64],
    counts: &mut [u64],
    bytes: &mut [u8],
    name: &[u8],
    declares: bool,
    set: ClipSet,
)
    requires fact_1 { Made (pages starts.old numbers.old xs.old ys.old blocks.old defaults.old counts.old bytes.old) }
    requires fact_2 { MadeSet set }
    requires fact_3 { name_number counts.old bytes.old name.now ≡ 0 }
    ensures { Extends (pages starts.old numbers.old xs.old ys.old blocks.old defaults.old counts.old bytes.old) name.now declares set (pages starts.new numbers.new xs.new ys.new blocks.new defaults.new counts.new bytes.new) }
{
    let n = counts[0] as usize;
    let shape = placing::put_set(starts, numbers, xs, ys, blocks, n, set);
    placing::enter(defaults, counts, bytes, n, shape, name, declares);
}

// The prepared set stands under the name, unless 23 refuses it.
pub fn install(
    starts: &mut [f64],
    numbers: &mut [u64],
    xs: &mut [f64],
    ys: &mut [f64],
    blocks: &mut [f64],
    defaults: &mut [f64],
    counts: &mut [u64],
    bytes: &mut [u8],
    name: &[u8],
    declares: bool,
    set: ClipSet,
) -> Result<(), Refusal>
    requires made { Made (pages starts.old numbers.old xs.old ys.old blocks.old defaults.old counts.old bytes.old) }
    requires made_set { MadeSet set }
    ensures { Installs (pages starts.old numbers.old xs.old ys.old blocks.old defaults.old counts.old bytes.old) name.now declares set (number_in result) (pages starts.new numbers.new xs.new ys.new blocks.new defaults.new counts.new bytes.new) }
{
    check_name(counts, bytes, name)?;
    extend(
        starts, numbers, xs, ys, blocks, defaults, counts, bytes, name, declares, set,
    );
    Ok(())
}

// The set of the fields stands under the name, unless a number refuses it.
pub fn accept(
    starts: &mut [f64],
    numbers: &mut [u64],
    xs: &mut [f64],
    ys: &mut [f64],
    blocks: &mut [f64],
    defaults: &mut [f64],
    counts: &mut [u64],
    bytes: &mut [u8],
    name: &[u8],
    declares: bool,
    clips: u64,
    newstarts: &[f64],
    newnumbers: &[f64],
    newxs: &[f64],
    newys: &[f64],
    newblocks: &[f64],
    default: Default,
    interpolate: bool,
) -> Result<(), Refusal>
    requires { Made (pages starts.old numbers.old xs.old ys.old blocks.old defaults.old counts.old bytes.old) }
    ensures { Accepts (pages starts.old numbers.old xs.old ys.old blocks.old defaults.old counts.old bytes.old) name.now declares (explicit_fields clips newstarts.now newnumbers.now newxs.now newys.now newblocks.now (manifest default interpolate)) (number_in result) (pages starts.new numbers.new xs.new ys.new blocks.new defaults.new counts.new bytes.new) }
{
    check_name(counts, bytes, name)?;
    let prepared = explicit::parse_set(
        clips,
        newstarts,
        newnumbers,
        newxs,
        newys,
        newblocks,
        default,
        interpolate,
    )?;
    extend(
        starts, numbers, xs, ys, blocks, defaults, counts, bytes, name, declares, prepared,
    );
    Ok(())
}

// The set that the template expands to stands under the name, unless a number refuses it.
pub fn accept_template(
    starts: &mut [f64],
    numbers: &mut [u64],
    xs: &mut [f64],
    ys: &mut [f64],
    blocks: &mut [f64],
    defaults: &mut [f64],
    counts: &mut [u64],
    bytes: &mut [u8],
    name: &[u8],
    declares: bool,
    template: &[u8],
    times: TemplateTimes,
    offset: bool,
    newblocks: &[f64],
    default: Default,
    interpolate: bool,
) -> Result<(), Refusal>
    requires { Made (pages starts.old numbers.old xs.old ys.old blocks.old defaults.old counts.old bytes.old) }
    ensures { Expands (pages starts.old numbers.old xs.old ys.old blocks.old defaults.old counts.old bytes.old) name.now declares (template_fields template.now times offset newblocks.now (manifest default interpolate)) (number_in result) (pages starts.new numbers.new xs.new ys.new blocks.new defaults.new counts.new bytes.new) }
{
    check_name(counts, bytes, name)?;
    let expanded = template::expand_template(
        template,
        times,
        offset,
        newblocks,
        default,
        interpolate,
    )?;
    extend(
        starts, numbers, xs, ys, blocks, defaults, counts, bytes, name, declares, expanded,
    );
    Ok(())
}

// The i-th set moved, unless a number refuses it.
fn retime_at(
    starts: &mut [f64],
    numbers: &mut [u64],
    xs: &mut [f64],
    ys: &mut [f64],
    blocks: &mut [f64],
    defaults: &mut [f64],
    counts: &mut [u64],
    bytes: &mut [u8],
    i: usize,
    o: LayerOffset,
) -> Result<(), Refusal>
    requires fact_1 { Made (pages starts.old numbers.old xs.old ys.old blocks.old defaults.old counts.old bytes.old) }
    requires fact_2 { i < get_or counts.old 0 0 }
    ensures { RetimesAt (pages starts.old numbers.old xs.old ys.old blocks.old defaults.old counts.old bytes.old) i o (number_in result) (pages starts.new numbers.new xs.new ys.new blocks.new defaults.new counts.new bytes.new) }
{
    let shape = storing::shape_at(defaults, counts, bytes, i);
    let moved = placing::move_set(starts, numbers, xs, ys, blocks, i, shape, o)?;
    storing::store_shape(moved, i, defaults, counts, bytes);
    Ok(())
}

// The set of the name moved, as the retimings before it left it, unless a number refuses it.
pub fn retime(
    starts: &mut [f64],
    numbers: &mut [u64],
    xs: &mut [f64],
    ys: &mut [f64],
    blocks: &mut [f64],
    defaults: &mut [f64],
    counts: &mut [u64],
    bytes: &mut [u8],
    name: &[u8],
    o: LayerOffset,
) -> Result<(), Refusal>
    requires { Made (pages starts.old numbers.old xs.old ys.old blocks.old defaults.old counts.old bytes.old) }
    ensures { Retimes (pages starts.old numbers.old xs.old ys.old blocks.old defaults.old counts.old bytes.old) name.now o (number_in result) (pages starts.new numbers.new xs.new ys.new blocks.new defaults.new counts.new bytes.new) }
{
    let n = counts[0] as usize;
    let Some(i) = set_names::find(bytes, n, name) else {
        return Err(Refusal::NoSet);
    };
    retime_at(
        starts, numbers, xs, ys, blocks, defaults, counts, bytes, i, o,
    )
}
