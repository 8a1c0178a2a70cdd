// A set's page in each of the lent lists: what of it is no list is read there as a resolver's shape, and written there.
ghost use Rattle.std.specs.Prelude.{◌≡◌, ◌≤◌, ◌<◌, length};
ghost use Rattle.dispatch.specs.SetOrder.{max_name};
ghost use Rattle.dispatch.specs.NamedSets.{max_sets};
ghost use Rattle.pages.specs.Pages.{pages, SizedIs, shape_in, Sizes};
ghost use Rattle.pages.specs.Placing.{ShapeStored, name_stored};

use crate::layout;
use definitions::{Default, Missing};
use lists::writing::copy;
use resolver::Shape;
use set_names::PAGE;
use standing::Counts;

// Whether the lists have the sizes of the pages.
pub fn sized(
    starts: &[f64],
    numbers: &[u64],
    xs: &[f64],
    ys: &[f64],
    blocks: &[f64],
    defaults: &[f64],
    counts: &[u64],
    bytes: &[u8],
) -> bool
    ensures { SizedIs (pages starts.now numbers.now xs.now ys.now blocks.now defaults.now counts.now bytes.now) result }
{
    starts.len() == layout::ENTRIES
        && numbers.len() == layout::ENTRIES
        && xs.len() == layout::KNOT_ENTRIES
        && ys.len() == layout::KNOT_ENTRIES
        && blocks.len() == layout::ENTRIES
        && defaults.len() == layout::DEFAULTS
        && counts.len() == layout::COUNTS
        && bytes.len() == layout::BYTES
}

// The shape of the i-th set.
pub fn shape_at(defaults: &[f64], counts: &[u64], bytes: &[u8], i: usize) -> Shape
    requires { (Sizes defaults.now counts.now bytes.now) × (i < max_sets) }
    ensures { result ≡ shape_in defaults.now counts.now bytes.now i }
{
    let default = Default {
        mark: bytes[layout::MARKS + i],
        value: defaults[i],
    };
    let manifest = Missing {
        default,
        interpolate: bytes[layout::FLAGS + i] != 0,
    };
    let entries = Counts {
        starts: counts[layout::STARTS + i] as usize,
        knots: counts[layout::KNOTS + i] as usize,
        blocks: counts[layout::BLOCKS + i] as usize,
    };
    Shape {
        stands: true,
        clips: counts[layout::CLIPS + i],
        counts: entries,
        manifest,
    }
}

pub fn store_shape(
    shape: Shape,
    i: usize,
    defaults: &mut [f64],
    counts: &mut [u64],
    bytes: &mut [u8],
)
    requires fact_1 { Sizes defaults.old counts.old bytes.old }
    requires fact_2 { i < max_sets }
    ensures { ShapeStored shape i defaults.old counts.old bytes.old defaults.new counts.new bytes.new }
{
    let manifest = shape.manifest;
    let default = manifest.default;
    let entries = shape.counts;
    counts[layout::CLIPS + i] = shape.clips;
    counts[layout::STARTS + i] = entries.starts as u64;
    counts[layout::KNOTS + i] = entries.knots as u64;
    counts[layout::BLOCKS + i] = entries.blocks as u64;
    defaults[i] = default.value;
    bytes[layout::MARKS + i] = default.mark;
    bytes[layout::FLAGS + i] = u8::from(manifest.interpolate);
}

// The i-th name, and whether its set declares.
pub fn store_name(name: &[u8], declares: bool, i: usize, bytes: &mut [u8])
    requires fact_1 { length bytes.old ≡ 4144 }
    requires fact_2 { i < max_sets }
    requires fact_3 { length name.now ≤ max_name }
    ensures { bytes.new ≡ name_stored name.now declares i bytes.old }
{
    let at = i * PAGE;
    let begin = at + 1;
    let end = begin + name.len();
    copy(name, &mut bytes[begin..end]);
    bytes[at] = name.len() as u8;
    bytes[layout::DECLARES + i] = u8::from(declares);
}
