// What may change a resolver that is lent, its shape by value and its lists as they stand: a call writes the lists, unless a number refuses it.

#![tactic(auto)]

ghost use Rattle.definitions.specs.Refusals.{number_in};
ghost use Rattle.clip.specs.Holding.{manifest};
ghost use Rattle.clip.specs.Preparing.{MadeSet};
ghost use Rattle.explicit.specs.Parsing.{explicit_fields};
ghost use Rattle.template.specs.Expanding.{template_fields};
ghost use Rattle.resolver.specs.State.{Made, left, lent_state};
ghost use Rattle.resolver.specs.Promises.{BeginsLent, Accepts, Expands, Retimes, Installs};

use clip::ClipSet;
use definitions::refusal::Refusal;
use definitions::{Default, LayerOffset, Missing, TemplateTimes};
use resolver::Shape;
use standing::Counts;

// No set stands, whatever the lists hold.
pub fn fresh() -> Shape
    ensures { BeginsLent result }
{
    let counts = Counts {
        starts: 0,
        knots: 0,
        blocks: 0,
    };
    let default = Default {
        mark: 2,
        value: 0.0,
    };
    let manifest = Missing {
        default,
        interpolate: false,
    };
    Shape {
        stands: false,
        clips: 0,
        counts,
        manifest,
    }
}

// The set of the fields takes the place of the standing one, unless a number refuses it.
pub fn accept(
    shape: Shape,
    starts: &mut [f64],
    numbers: &mut [u64],
    xs: &mut [f64],
    ys: &mut [f64],
    blocks: &mut [f64],
    clips: u64,
    newstarts: &[f64],
    newnumbers: &[f64],
    newxs: &[f64],
    newys: &[f64],
    newblocks: &[f64],
    default: Default,
    interpolate: bool,
) -> Result<Shape, Refusal>
    requires { Made (lent_state shape starts.old numbers.old xs.old ys.old blocks.old) }
    ensures { Accepts (lent_state shape starts.old numbers.old xs.old ys.old blocks.old) (explicit_fields clips newstarts.now newnumbers.now newxs.now newys.now newblocks.now (manifest default interpolate)) (number_in result) (lent_state (left shape result) starts.new numbers.new xs.new ys.new blocks.new) }
{
    let prepared = explicit::parse_set(
        clips,
        newstarts,
        newnumbers,
        newxs,
        newys,
        newblocks,
        default,
        interpolate,
    );
    match &prepared {
        Ok(set) => Ok(install(shape, starts, numbers, xs, ys, blocks, *set)),
        Err(e) => Err(*e),
    }
}

// The set that the template expands to takes the place of the standing one, unless a number refuses it.
// Where `offset` is false the offset's slot is not looked at.
pub fn accept_template(
    shape: Shape,
    starts: &mut [f64],
    numbers: &mut [u64],
    xs: &mut [f64],
    ys: &mut [f64],
    blocks: &mut [f64],
    template: &[u8],
    times: TemplateTimes,
    offset: bool,
    newblocks: &[f64],
    default: Default,
    interpolate: bool,
) -> Result<Shape, Refusal>
    requires { Made (lent_state shape starts.old numbers.old xs.old ys.old blocks.old) }
    ensures { Expands (lent_state shape starts.old numbers.old xs.old ys.old blocks.old) (template_fields template.now times offset newblocks.now (manifest default interpolate)) (number_in result) (lent_state (left shape result) starts.new numbers.new xs.new ys.new blocks.new) }
{
    let expanded = template::expand_template(
        template,
        times,
        offset,
        newblocks,
        default,
        interpolate,
    );
    match &expanded {
        Ok(set) => Ok(install(shape, starts, numbers, xs, ys, blocks, *set)),
        Err(e) => Err(*e),
    }
}

// The prepared set takes the place of the standing one. Nothing refuses it.
pub fn install(
    shape: Shape,
    starts: &mut [f64],
    numbers: &mut [u64],
    xs: &mut [f64],
    ys: &mut [f64],
    blocks: &mut [f64],
    set: ClipSet,
) -> Shape
    requires made { Made (lent_state shape starts.old numbers.old xs.old ys.old blocks.old) }
    requires made_set { MadeSet set }
    ensures { Installs (lent_state shape starts.old numbers.old xs.old ys.old blocks.old) set (lent_state result starts.new numbers.new xs.new ys.new blocks.new) }
{
    let counts = standing::unpacked(set, starts, numbers, xs, ys, blocks);
    Shape {
        stands: true,
        clips: set.clips,
        counts,
        manifest: set.manifest(),
    }
}

// The standing set moved, as the retimings before it left it, unless a number refuses it.
pub fn retime(
    shape: Shape,
    starts: &mut [f64],
    numbers: &mut [u64],
    xs: &mut [f64],
    ys: &mut [f64],
    blocks: &mut [f64],
    o: LayerOffset,
) -> Result<Shape, Refusal>
    requires { Made (lent_state shape starts.old numbers.old xs.old ys.old blocks.old) }
    ensures { Retimes (lent_state shape starts.old numbers.old xs.old ys.old blocks.old) o (number_in result) (lent_state (left shape result) starts.new numbers.new xs.new ys.new blocks.new) }
{
    if !shape.stands {
        return Err(Refusal::NoSet);
    }
    let set = standing::packed(
        shape.clips,
        starts,
        numbers,
        xs,
        ys,
        blocks,
        shape.counts,
        shape.manifest,
    );
    let moved = set.retime_stage_times(o);
    match &moved {
        Ok(set) => Ok(install(shape, starts, numbers, xs, ys, blocks, *set)),
        Err(e) => Err(*e),
    }
}
