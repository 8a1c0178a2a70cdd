// A template: the Rust's expansion of one to an explicit set.

#![tactic(auto)]

mod expanding;
mod fields;

ghost use Rattle.definitions.specs.Examining.{by_template};
ghost use Rattle.clip.specs.Holding.{manifest};
ghost use Rattle.clip.specs.Preparing.{Examines};
ghost use Rattle.template.specs.Expanding.{offset_of, template_fields, SaysClipTimes};

use clip::ClipSet;
use definitions::limits::{KNOTS, STARTS};
use definitions::refusal::Refusal;
use definitions::{Default, Missing, TemplateTimes};

// Examines a template: the set that it expands to, unless 1, 2, 7, 6, 8, 2, 4, 5 or 9 refuses it. Where `offset` is false the offset is absent, whatever its slot holds: so C lends it, and so it comes down to here.
pub fn expand_template(
    template: &[u8],
    times: TemplateTimes,
    offset: bool,
    blocks: &[f64],
    default: Default,
    interpolate: bool,
) -> Result<ClipSet, Refusal>
    ensures { Examines (by_template (template_fields template.now times offset blocks.now (manifest default interpolate))) result }
{
    let manifest = Missing {
        default,
        interpolate,
    };
    fields::check_fields(template, times, offset, blocks, manifest)?;
    let promoted = expanding::promote(times)?;
    let n = promoted.count;
    let m = expanding::knot_count(n, offset);
    let mut starts = [0.0; STARTS];
    let mut numbers = [0u64; STARTS];
    let mut xs = [0.0; KNOTS];
    let mut ys = [0.0; KNOTS];
    expanding::expand_lists(
        &promoted.items[..n],
        times,
        offset,
        blocks,
        manifest,
        &mut starts[..n],
        &mut numbers[..n],
        &mut xs[..m],
        &mut ys[..m],
    )
}

// The clip times of a template's clips, written to the lent list: 2, 7 and 8 of its four numbers, then 22. The offset moves the starts and not these. Replies their count.
pub fn clip_times(times: TemplateTimes, offset: bool, out: &mut [f64]) -> Result<usize, Refusal>
    ensures { SaysClipTimes times (offset_of times offset) out.old out.new result }
{
    if fields::is_unstorable(times, offset) {
        return Err(Refusal::Unstorable);
    }
    if fields::is_disordered(times, offset) {
        return Err(Refusal::DisorderedTemplate);
    }
    let promoted = expanding::promote(times)?;
    let count = promoted.count;
    if out.len() < count {
        return Err(Refusal::NoRoom);
    }
    expanding::write_clip_times(&promoted.items[..count], &mut out[..count]);
    Ok(count)
}
