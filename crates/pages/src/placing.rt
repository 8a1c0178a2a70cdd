// A set written to its page, or moved there, and its name and place written beside it.
ghost use Rattle.std.specs.Prelude.{◌<◌};
ghost use Rattle.clip.specs.Preparing.{MadeSet};
ghost use Rattle.dispatch.specs.NamedSets.{max_sets};
ghost use Rattle.resolver.specs.State as desk;
ghost use Rattle.pages.specs.Pages.{Made, page_state};
ghost use Rattle.pages.specs.Placing.{PageRoom, PutAt, Enters, Entered, MovedAt};

use crate::{layout, storing};
use clip::ClipSet;
use definitions::LayerOffset;
use definitions::refusal::Refusal;
use resolver::Shape;

// The set on the i-th page of its lists; what of it is no list is handed back.
pub fn put_set(
    starts: &mut [f64],
    numbers: &mut [u64],
    xs: &mut [f64],
    ys: &mut [f64],
    blocks: &mut [f64],
    i: usize,
    set: ClipSet,
) -> Shape
    requires fact_1 { PageRoom starts.old numbers.old xs.old ys.old blocks.old }
    requires fact_2 { i < max_sets }
    requires fact_3 { MadeSet set }
    ensures { PutAt i set starts.old numbers.old xs.old ys.old blocks.old result starts.new numbers.new xs.new ys.new blocks.new }
{
    let a = i * layout::PAGE;
    let b = i * layout::KNOT_PAGE;
    let e = a + layout::PAGE;
    let f = b + layout::KNOT_PAGE;
    lent_changes::install(
        lent_changes::fresh(),
        &mut starts[a..e],
        &mut numbers[a..e],
        &mut xs[b..f],
        &mut ys[b..f],
        &mut blocks[a..e],
        set,
    )
}

// The n-th set's shape, its name, its place by name, and one set more.
pub fn enter(
    defaults: &mut [f64],
    counts: &mut [u64],
    bytes: &mut [u8],
    n: usize,
    shape: Shape,
    name: &[u8],
    declares: bool,
)
    requires { Enters defaults.old counts.old bytes.old n name.now }
    ensures { Entered n shape name.now declares defaults.old counts.old bytes.old defaults.new counts.new bytes.new }
{
    storing::store_shape(shape, n, defaults, counts, bytes);
    storing::store_name(name, declares, n, bytes);
    set_names::sorted::insert_by_name(bytes, &mut counts[layout::BY_NAME..layout::COUNTS], n);
    counts[0] = n as u64 + 1;
}

// The set on the i-th page of its lists moved, unless a number refuses it; the shape is that of the moved set.
pub fn move_set(
    starts: &mut [f64],
    numbers: &mut [u64],
    xs: &mut [f64],
    ys: &mut [f64],
    blocks: &mut [f64],
    i: usize,
    shape: Shape,
    o: LayerOffset,
) -> Result<Shape, Refusal>
    requires fact_1 { PageRoom starts.old numbers.old xs.old ys.old blocks.old }
    requires fact_2 { i < max_sets }
    requires fact_3 { desk.Made (page_state shape i starts.old numbers.old xs.old ys.old blocks.old) }
    ensures { MovedAt i shape o starts.old numbers.old xs.old ys.old blocks.old result starts.new numbers.new xs.new ys.new blocks.new }
{
    let a = i * layout::PAGE;
    let b = i * layout::KNOT_PAGE;
    let e = a + layout::PAGE;
    let f = b + layout::KNOT_PAGE;
    lent_changes::retime(
        shape,
        &mut starts[a..e],
        &mut numbers[a..e],
        &mut xs[b..f],
        &mut ys[b..f],
        &mut blocks[a..e],
        o,
    )
}
