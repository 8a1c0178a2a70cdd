// The last checks of every set, whether explicit, expanded or retimed: its lists are in order, and 2, 4, 5 or 9 may still refuse it.
ghost use Rattle.std.specs.Prelude.{◌≡◌, ◌≤◌, length};
ghost use Rattle.definitions.specs.ClipSet.{nan_default, sort_active, sort_knots};
ghost use Rattle.laws.specs.cell.Lent.{active_of, knots_of, set_of};
ghost use Rattle.definitions.specs.Examining.{empty_set};
ghost use Rattle.definitions.specs.Refusals.{number_in};
ghost use Rattle.clip.specs.Holding.{IsHeld};
ghost use Rattle.clip.specs.Storing.{Fitting, Stores, lists_number};

use crate::{ClipSet, storage};
use definitions::refusal::Refusal;
use definitions::{Default, Missing};

// A NaN under the mark of a value.
pub fn is_nan_default(default: Default) -> bool
    ensures { result ≡ nan_default default }
{
    default.mark == 0 && default.value.is_nan()
}

pub fn check_lists(
    times: &[f64],
    xs: &[f64],
    blocks: &[f64],
    default: Default,
) -> Result<(), Refusal>
    ensures { number_in result ≡ lists_number times.now xs.now blocks.now default }
{
    if lists::any_unstorable(times) {
        return Err(Refusal::Unstorable);
    }
    if lists::any_unstorable(xs) {
        return Err(Refusal::Unstorable);
    }
    if lists::any_unstorable(blocks) {
        return Err(Refusal::Unstorable);
    }
    if lists::two_equal(times) {
        return Err(Refusal::EqualStarts);
    }
    if lists::three_equal(xs) {
        return Err(Refusal::ThreeEqualKnots);
    }
    if 2 < default.mark {
        return Err(Refusal::BadSamples);
    }
    Ok(())
}

// Lists that no number refuses, as a set.
pub fn store(
    clips: u64,
    times: &[f64],
    numbers: &[u64],
    xs: &[f64],
    ys: &[f64],
    blocks: &[f64],
    manifest: Missing,
) -> ClipSet
    requires { Fitting times.now numbers.now xs.now ys.now blocks.now }
    ensures { IsHeld (set_of clips times.now numbers.now xs.now ys.now blocks.now manifest) result }
{
    let active = storage::pack_active(times, numbers);
    let knots = storage::pack_knots(xs, ys);
    let blocks = storage::pack_blocks(blocks);
    ClipSet {
        clips,
        active,
        knots,
        blocks,
        default: manifest.default,
        interpolate: manifest.interpolate,
    }
}

// The set of lists in order, unless 2, 4, 5 or 9 refuses it.
pub fn check_and_store(
    clips: u64,
    times: &[f64],
    numbers: &[u64],
    xs: &[f64],
    ys: &[f64],
    blocks: &[f64],
    manifest: Missing,
) -> Result<ClipSet, Refusal>
    requires { Fitting times.now numbers.now xs.now ys.now blocks.now }
    ensures { Stores empty_set (set_of clips times.now numbers.now xs.now ys.now blocks.now manifest) result }
{
    check_lists(times, xs, blocks, manifest.default)?;
    Ok(store(clips, times, numbers, xs, ys, blocks, manifest))
}

// Lists in any order, sorted. It stands apart from what stores them, whose arrays are then not on the stack while it sorts.
pub fn sort_lists(times: &mut [f64], numbers: &mut [u64], xs: &mut [f64], ys: &mut [f64])
    requires times_len { (length times.old ≡ length numbers.old) × (length times.old ≤ 512) }
    requires xs_len { (length xs.old ≡ length ys.old) × (length xs.old ≤ 512) }
    ensures numbers_value { active_of times.new numbers.new ≡ sort_active (active_of times.old numbers.old) }
    ensures ys_value { knots_of xs.new ys.new ≡ sort_knots (knots_of xs.old ys.old) }
{
    lists::sorting::sort_starts(times, numbers);
    lists::sorting::sort_knots(xs, ys);
}
