// An explicit set's fields: the numbers that they alone give.
ghost use Rattle.std.specs.Prelude.{◌≡◌};
ghost use Rattle.definitions.specs.Refusals.{number_in};
ghost use Rattle.explicit.specs.Parsing.{explicit_fields, misshapen, any_not_clip, fields_number};

use clip::storing;
use definitions::Missing;
use definitions::limits::{BLOCKS, CLIPS, KNOTS, STARTS};
use definitions::refusal::Refusal;

// 1 of the clip count and the lengths.
#[tactic(auto, unfolding(crate::specs::Parsing::misshapen))]
fn is_misshapen(
    clips: u64,
    starts: usize,
    numbers: usize,
    xs: usize,
    ys: usize,
    blocks: usize,
) -> bool
    ensures { result ≡ misshapen clips starts numbers xs ys blocks }
{
    (CLIPS as u64) < clips
        || STARTS < starts
        || STARTS < numbers
        || KNOTS < xs
        || KNOTS < ys
        || BLOCKS < blocks
        || starts != numbers
        || xs != ys
}

// 3: a number that is none of a clip.
fn any_not_clip(numbers: &[f64], clips: u64) -> bool
    ensures { result ≡ any_not_clip clips numbers.now }
{
    for number in numbers {
        if !gf::clip_number::is_clip_number(*number, clips) {
            return true;
        }
    }
    false
}

// 1, 2 and 3, which are judged by the fields alone.
pub fn check_fields(
    clips: u64,
    starts: &[f64],
    numbers: &[f64],
    xs: &[f64],
    ys: &[f64],
    blocks: &[f64],
    manifest: Missing,
) -> Result<(), Refusal>
    ensures { number_in result ≡ fields_number (explicit_fields clips starts.now numbers.now xs.now ys.now blocks.now manifest) }
{
    if is_misshapen(
        clips,
        starts.len(),
        numbers.len(),
        xs.len(),
        ys.len(),
        blocks.len(),
    ) {
        return Err(Refusal::Misshapen);
    }
    if lists::any_unstorable(starts)
        || lists::any_unstorable(xs)
        || lists::any_unstorable(ys)
        || lists::any_unstorable(blocks)
        || storing::is_nan_default(manifest.default)
    {
        return Err(Refusal::Unstorable);
    }
    if any_not_clip(numbers, clips) {
        return Err(Refusal::NoClipNumber);
    }
    Ok(())
}
