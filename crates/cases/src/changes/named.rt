// The calls that may change the dispatcher: each reads its name and its fields, and hands back what the operation replied.
ghost use Rattle.definitions.specs.Refusals.{number_in};
ghost use Rattle.pages.specs.Pages.{pages, Made};
ghost use Rattle.set_changes.specs.Promises.{Accepts, Expands};
ghost use Rattle.cases.specs.Changes.{explicit_of, template_of};
ghost use Rattle.cases.specs.Named.{Leaves};
ghost use Rattle.cases.specs.Prepared.{MadeSlots};

use crate::changes::{ExplicitRead, TemplateRead, read_explicit, read_template};
use crate::lines::held::{DEFAULTS, ENTRIES, KNOT_ENTRIES, NAMES, SHAPES};
use crate::lines::limits::{BLOCKS, BYTES, KNOTS, NAME, STARTS};
use crate::lines::named_calls::NamedChange;
use crate::lines::naming;
use crate::prepared;
use crate::prepared::Slots;
use crate::text::{ended, first, read_bytes, read_double};
use definitions::LayerOffset;
use definitions::refusal::Refusal;

// What a line that could be read is answered. Where its slot has no set, no call was made.
#[derive(Clone, Copy)]
pub(crate) enum Said {
    Empty,
    Replied(Result<(), Refusal>),
}

fn accept_read(
    starts: &mut [f64; ENTRIES],
    numbers: &mut [u64; ENTRIES],
    xs: &mut [f64; KNOT_ENTRIES],
    ys: &mut [f64; KNOT_ENTRIES],
    blocks: &mut [f64; ENTRIES],
    defaults: &mut [f64; DEFAULTS],
    counts: &mut [u64; SHAPES],
    bytes: &mut [u8; NAMES],
    name: &[u8],
    declares: bool,
    read: ExplicitRead,
    newstarts: &[f64],
    newnumbers: &[f64],
    newxs: &[f64],
    newys: &[f64],
    newblocks: &[f64],
) -> Result<(), Refusal>
    requires { Made (pages starts.old numbers.old xs.old ys.old blocks.old defaults.old counts.old bytes.old) }
    ensures { Accepts (pages starts.old numbers.old xs.old ys.old blocks.old defaults.old counts.old bytes.old) name.now declares (explicit_of read newstarts.now newnumbers.now newxs.now newys.now newblocks.now) (number_in result) (pages starts.new numbers.new xs.new ys.new blocks.new defaults.new counts.new bytes.new) }
{
    set_changes::accept(
        starts,
        numbers,
        xs,
        ys,
        blocks,
        defaults,
        counts,
        bytes,
        name,
        declares,
        read.clips,
        first(newstarts, read.starts),
        first(newnumbers, read.numbers),
        first(newxs, read.xs),
        first(newys, read.ys),
        first(newblocks, read.blocks),
        read.manifest.default,
        read.manifest.interpolate,
    )
}

fn explicit(
    line: &[u8],
    at: usize,
    starts: &mut [f64; ENTRIES],
    numbers: &mut [u64; ENTRIES],
    xs: &mut [f64; KNOT_ENTRIES],
    ys: &mut [f64; KNOT_ENTRIES],
    blocks: &mut [f64; ENTRIES],
    defaults: &mut [f64; DEFAULTS],
    counts: &mut [u64; SHAPES],
    bytes: &mut [u8; NAMES],
) -> Option<Said>
    requires { Made (pages starts.old numbers.old xs.old ys.old blocks.old defaults.old counts.old bytes.old) }
    ensures { Leaves (pages starts.old numbers.old xs.old ys.old blocks.old defaults.old counts.old bytes.old) result (pages starts.new numbers.new xs.new ys.new blocks.new defaults.new counts.new bytes.new) }
{
    let mut name = [0u8; NAME];
    let mut newstarts = [0.0f64; STARTS];
    let mut newnumbers = [0.0f64; STARTS];
    let mut newxs = [0.0f64; KNOTS];
    let mut newys = [0.0f64; KNOTS];
    let mut newblocks = [0.0f64; BLOCKS];
    let named = naming::read(line, at, &mut name)?;
    let read = read_explicit(
        line,
        named.at,
        &mut newstarts,
        &mut newnumbers,
        &mut newxs,
        &mut newys,
        &mut newblocks,
    )?;
    let told = accept_read(
        starts,
        numbers,
        xs,
        ys,
        blocks,
        defaults,
        counts,
        bytes,
        first(&name, named.count),
        named.declares,
        read,
        &newstarts,
        &newnumbers,
        &newxs,
        &newys,
        &newblocks,
    );
    Some(Said::Replied(told))
}

fn expand_read(
    starts: &mut [f64; ENTRIES],
    numbers: &mut [u64; ENTRIES],
    xs: &mut [f64; KNOT_ENTRIES],
    ys: &mut [f64; KNOT_ENTRIES],
    blocks: &mut [f64; ENTRIES],
    defaults: &mut [f64; DEFAULTS],
    counts: &mut [u64; SHAPES],
    bytes: &mut [u8; NAMES],
    name: &[u8],
    declares: bool,
    read: TemplateRead,
    template: &[u8],
    newblocks: &[f64],
) -> Result<(), Refusal>
    requires { Made (pages starts.old numbers.old xs.old ys.old blocks.old defaults.old counts.old bytes.old) }
    ensures { Expands (pages starts.old numbers.old xs.old ys.old blocks.old defaults.old counts.old bytes.old) name.now declares (template_of read template.now newblocks.now) (number_in result) (pages starts.new numbers.new xs.new ys.new blocks.new defaults.new counts.new bytes.new) }
{
    set_changes::accept_template(
        starts,
        numbers,
        xs,
        ys,
        blocks,
        defaults,
        counts,
        bytes,
        name,
        declares,
        first(template, read.bytes),
        read.times,
        read.offset,
        first(newblocks, read.blocks),
        read.manifest.default,
        read.manifest.interpolate,
    )
}

fn template(
    line: &[u8],
    at: usize,
    starts: &mut [f64; ENTRIES],
    numbers: &mut [u64; ENTRIES],
    xs: &mut [f64; KNOT_ENTRIES],
    ys: &mut [f64; KNOT_ENTRIES],
    blocks: &mut [f64; ENTRIES],
    defaults: &mut [f64; DEFAULTS],
    counts: &mut [u64; SHAPES],
    bytes: &mut [u8; NAMES],
) -> Option<Said>
    requires { Made (pages starts.old numbers.old xs.old ys.old blocks.old defaults.old counts.old bytes.old) }
    ensures { Leaves (pages starts.old numbers.old xs.old ys.old blocks.old defaults.old counts.old bytes.old) result (pages starts.new numbers.new xs.new ys.new blocks.new defaults.new counts.new bytes.new) }
{
    let mut name = [0u8; NAME];
    let mut template = [0u8; BYTES];
    let mut newblocks = [0.0f64; BLOCKS];
    let named = naming::read(line, at, &mut name)?;
    let read = read_template(line, named.at, &mut template, &mut newblocks)?;
    let told = expand_read(
        starts,
        numbers,
        xs,
        ys,
        blocks,
        defaults,
        counts,
        bytes,
        first(&name, named.count),
        named.declares,
        read,
        &template,
        &newblocks,
    );
    Some(Said::Replied(told))
}

fn retime(
    line: &[u8],
    at: usize,
    starts: &mut [f64; ENTRIES],
    numbers: &mut [u64; ENTRIES],
    xs: &mut [f64; KNOT_ENTRIES],
    ys: &mut [f64; KNOT_ENTRIES],
    blocks: &mut [f64; ENTRIES],
    defaults: &mut [f64; DEFAULTS],
    counts: &mut [u64; SHAPES],
    bytes: &mut [u8; NAMES],
) -> Option<Said>
    requires { Made (pages starts.old numbers.old xs.old ys.old blocks.old defaults.old counts.old bytes.old) }
    ensures { Leaves (pages starts.old numbers.old xs.old ys.old blocks.old defaults.old counts.old bytes.old) result (pages starts.new numbers.new xs.new ys.new blocks.new defaults.new counts.new bytes.new) }
{
    let mut name = [0u8; NAME];
    let named = read_bytes(line, at, &mut name)?;
    let offset = read_double(line, named.at)?;
    let scale = read_double(line, offset.at)?;
    ended(line, scale.at)?;
    let o = LayerOffset {
        offset: offset.value,
        scale: scale.value,
    };
    let told = set_changes::retime(
        starts,
        numbers,
        xs,
        ys,
        blocks,
        defaults,
        counts,
        bytes,
        first(&name, named.value),
        o,
    );
    Some(Said::Replied(told))
}

// The set of a slot under a name.
fn install(
    line: &[u8],
    at: usize,
    slots: Slots,
    starts: &mut [f64; ENTRIES],
    numbers: &mut [u64; ENTRIES],
    xs: &mut [f64; KNOT_ENTRIES],
    ys: &mut [f64; KNOT_ENTRIES],
    blocks: &mut [f64; ENTRIES],
    defaults: &mut [f64; DEFAULTS],
    counts: &mut [u64; SHAPES],
    bytes: &mut [u8; NAMES],
) -> Option<Said>
    requires fact_1 { MadeSlots slots }
    requires fact_2 { Made (pages starts.old numbers.old xs.old ys.old blocks.old defaults.old counts.old bytes.old) }
    ensures { Leaves (pages starts.old numbers.old xs.old ys.old blocks.old defaults.old counts.old bytes.old) result (pages starts.new numbers.new xs.new ys.new blocks.new defaults.new counts.new bytes.new) }
{
    let mut name = [0u8; NAME];
    let named = naming::read(line, at, &mut name)?;
    let slot = prepared::slot_at(line, named.at)?;
    ended(line, slot.at)?;
    let Some(set) = prepared::get(slots, slot.value) else {
        return Some(Said::Empty);
    };
    let told = set_changes::install(
        starts,
        numbers,
        xs,
        ys,
        blocks,
        defaults,
        counts,
        bytes,
        first(&name, named.count),
        named.declares,
        set,
    );
    Some(Said::Replied(told))
}

// What the operation replied. Where the line could not be read none was asked.
pub(crate) fn change(
    call: NamedChange,
    line: &[u8],
    slots: Slots,
    starts: &mut [f64; ENTRIES],
    numbers: &mut [u64; ENTRIES],
    xs: &mut [f64; KNOT_ENTRIES],
    ys: &mut [f64; KNOT_ENTRIES],
    blocks: &mut [f64; ENTRIES],
    defaults: &mut [f64; DEFAULTS],
    counts: &mut [u64; SHAPES],
    bytes: &mut [u8; NAMES],
) -> Option<Said>
    requires fact_1 { MadeSlots slots }
    requires fact_2 { Made (pages starts.old numbers.old xs.old ys.old blocks.old defaults.old counts.old bytes.old) }
    ensures { Leaves (pages starts.old numbers.old xs.old ys.old blocks.old defaults.old counts.old bytes.old) result (pages starts.new numbers.new xs.new ys.new blocks.new defaults.new counts.new bytes.new) }
{
    match call {
        NamedChange::Explicit(at) => {
            explicit(
                line, at, starts, numbers, xs, ys, blocks, defaults, counts, bytes,
            )
        }
        NamedChange::Template(at) => {
            template(
                line, at, starts, numbers, xs, ys, blocks, defaults, counts, bytes,
            )
        }
        NamedChange::Retime(at) => {
            retime(
                line, at, starts, numbers, xs, ys, blocks, defaults, counts, bytes,
            )
        }
        NamedChange::Install(at) => {
            install(
                line, at, slots, starts, numbers, xs, ys, blocks, defaults, counts, bytes,
            )
        }
    }
}
