// An explicit set: the Rust's `parse_set`.

#![tactic(auto)]

mod fields;
mod parsing;

ghost use Rattle.definitions.specs.Examining.{explicitly};
ghost use Rattle.clip.specs.Holding.{manifest};
ghost use Rattle.clip.specs.Preparing.{Examines};
ghost use Rattle.explicit.specs.Parsing.{explicit_fields};

use clip::ClipSet;
use definitions::limits::{KNOTS, STARTS};
use definitions::refusal::Refusal;
use definitions::{Default, Missing};

// Examines the fields: their set, unless 1, 2, 3, 4, 5 or 9 refuses them.
pub fn parse_set(
    clips: u64,
    starts: &[f64],
    numbers: &[f64],
    xs: &[f64],
    ys: &[f64],
    blocks: &[f64],
    default: Default,
    interpolate: bool,
) -> Result<ClipSet, Refusal>
    ensures { Examines (explicitly (explicit_fields clips starts.now numbers.now xs.now ys.now blocks.now (manifest default interpolate))) result }
{
    let manifest = Missing {
        default,
        interpolate,
    };
    fields::check_fields(clips, starts, numbers, xs, ys, blocks, manifest)?;
    let n = starts.len();
    let m = xs.len();
    let mut times = [0.0; STARTS];
    let mut indices = [0u64; STARTS];
    let mut us = [0.0; KNOTS];
    let mut vs = [0.0; KNOTS];
    parsing::parse_lists(
        clips,
        starts,
        numbers,
        xs,
        ys,
        blocks,
        manifest,
        &mut times[..n],
        &mut indices[..n],
        &mut us[..m],
        &mut vs[..m],
    )
}
