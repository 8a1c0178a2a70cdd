// Retiming: the Rust's `retime_stage_times`. The lists of a set are moved in lists that are lent for it, and settle as any others.
ghost use Rattle.std.specs.Prelude.{◌≡◌, ◌&&◌, ◌≤◌, length};
ghost use Rattle.std.specs.Float.Ieee.Scale.{finite};
ghost use Rattle.definitions.specs.Retime.{is_identity, moved};
ghost use Rattle.laws.specs.cell.Lent.{active_of, knots_of, set_of};
ghost use Rattle.clip.specs.Holding.{ArraysWhole, clip_set_of, manifest_of};
ghost use Rattle.clip.specs.Storing.{Stores};
ghost use Rattle.clip.specs.Retiming.{RoomForAll, active_turned, knots_turned, moved_and_sorted};

use crate::{ClipSet, storage, storing};
use definitions::LayerOffset;
use definitions::refusal::Refusal;

// Both of a retiming's numbers are finite: 2 refuses one that is not.
pub fn is_finite(o: LayerOffset) -> bool
    ensures { result ≡ (finite o.offset && finite o.scale) }
{
    gf::is_finite(o.offset) && gf::is_finite(o.scale)
}

// Tested, since to apply it would make 0.0 of -0.0.
pub fn is_identity(o: LayerOffset) -> bool
    ensures { result ≡ is_identity o }
{
    o.offset == 0.0 && o.scale == 1.0
}

// The lists of a set, their stage times moved.
fn unpack_moved(
    set: ClipSet,
    o: LayerOffset,
    times: &mut [f64],
    numbers: &mut [u64],
    xs: &mut [f64],
    ys: &mut [f64],
    blocks: &mut [f64],
)
    requires fact_1 { ArraysWhole set }
    requires fact_2 { RoomForAll set times.old numbers.old xs.old ys.old blocks.old }
    ensures { set_of set.clips times.new numbers.new xs.new ys.new blocks.new (manifest_of set) ≡ moved o (clip_set_of set) }
{
    storage::unpack_active(set.active, times, numbers);
    storage::unpack_knots(set.knots, xs, ys);
    storage::unpack_blocks(set.blocks, blocks);
    lists::writing::move_times(times, o);
    lists::writing::move_times(xs, o);
    lists::writing::move_times(blocks, o);
}

// Only a negative scale turns the order.
fn sort_turned(scale: f64, times: &mut [f64], numbers: &mut [u64], xs: &mut [f64], ys: &mut [f64])
    requires times_len { (length times.old ≡ length numbers.old) × (length times.old ≤ 512) }
    requires xs_len { (length xs.old ≡ length ys.old) × (length xs.old ≤ 512) }
    ensures numbers_value { active_of times.new numbers.new ≡ active_turned scale (active_of times.old numbers.old) }
    ensures ys_value { knots_of xs.new ys.new ≡ knots_turned scale (knots_of xs.old ys.old) }
{
    if scale < 0.0 {
        lists::sorting::sort_starts(times, numbers);
        lists::sorting::sort_knots(xs, ys);
    }
}

// The moved set.
pub fn retime_lists(
    set: ClipSet,
    o: LayerOffset,
    times: &mut [f64],
    numbers: &mut [u64],
    xs: &mut [f64],
    ys: &mut [f64],
    blocks: &mut [f64],
) -> Result<ClipSet, Refusal>
    requires fact_1 { ArraysWhole set }
    requires fact_2 { RoomForAll set times.old numbers.old xs.old ys.old blocks.old }
    ensures { Stores (clip_set_of set) (moved_and_sorted o (clip_set_of set)) result }
{
    unpack_moved(set, o, times, numbers, xs, ys, blocks);
    sort_turned(o.scale, times, numbers, xs, ys);
    storing::check_lists(times, xs, blocks, set.default)?;
    Ok(storing::store(set.clips, times, numbers, xs, ys, blocks, set.manifest()))
}
