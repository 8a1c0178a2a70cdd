// An explicit set's lists: the fields copied, sorted and settled.
ghost use Rattle.std.specs.Prelude.{◌≡◌, map, length};
ghost use Rattle.gf.specs.Doubles.{truncated};
ghost use Rattle.definitions.specs.Explicit.{explicit_set};
ghost use Rattle.laws.specs.list.Every.{Every};
ghost use Rattle.definitions.specs.Examining.{empty_set};
ghost use Rattle.clip.specs.Storing.{Stores};
ghost use Rattle.explicit.specs.Parsing.{Lent, Indexed, explicit_fields, fields_number};

use clip::{ClipSet, storing};
use definitions::Missing;
use definitions::refusal::Refusal;

// The clip numbers as indices. -0.0 is 0.
fn copy_clips(numbers: &[f64], to: &mut [u64])
    requires fact_1 { Every Indexed numbers.now }
    requires fact_2 { length to.old ≡ length numbers.now }
    ensures { to.new ≡ map truncated numbers.now }
{
    for (i, number) in numbers.iter().enumerate() {
        to[i] = gf::clip_number::to_index(*number);
    }
}

// Fields without 1, 2 and 3, copied to lists of their lengths.
pub fn parse_lists(
    clips: u64,
    starts: &[f64],
    numbers: &[f64],
    xs: &[f64],
    ys: &[f64],
    blocks: &[f64],
    manifest: Missing,
    times: &mut [f64],
    indices: &mut [u64],
    us: &mut [f64],
    vs: &mut [f64],
) -> Result<ClipSet, Refusal>
    requires fact_1 { fields_number (explicit_fields clips starts.now numbers.now xs.now ys.now blocks.now manifest) ≡ 0 }
    requires fact_2 { Lent starts.now xs.now times.old indices.old us.old vs.old }
    ensures { Stores empty_set (explicit_set (explicit_fields clips starts.now numbers.now xs.now ys.now blocks.now manifest)) result }
{
    times.copy_from_slice(starts);
    copy_clips(numbers, indices);
    us.copy_from_slice(xs);
    vs.copy_from_slice(ys);
    storing::sort_lists(times, indices, us, vs);
    storing::check_and_store(clips, times, indices, us, vs, blocks, manifest)
}
