// The dispatcher's sets: their names, and one of them entry by entry.
ghost use Rattle.std.specs.Prelude.{◌≡◌, ◌<◌, length};
ghost use Rattle.dispatch.specs.NamedSets.{max_sets};
ghost use Rattle.pages.specs.Pages.{Sizes, Names};

use crate::lines::limits::NAME;
use crate::text::{Replies, ended, first, part, part_from, read_bytes};
use definitions::refusal::Refusal;
use pages::{layout, storing};
use set_names::PAGE;

// The i-th set's name, and whether it declares.
fn named(bytes: &[u8], i: usize, out: &mut Replies)
    requires { (length bytes.now ≡ 4144) × (i < max_sets) }
{
    let begin = i * PAGE + 1;
    let end = begin + usize::from(bytes[i * PAGE]);
    out.put_byte(b' ');
    out.put_bytes(part(bytes, begin, end));
    out.mark(bytes[layout::DECLARES + i]);
}

// The names in the order of acceptance.
pub(super) fn sets(
    line: &[u8],
    at: usize,
    counts: &[u64],
    bytes: &[u8],
    out: &mut Replies,
) -> Option<()>
    requires fact_1 { length bytes.now ≡ 4144 }
    requires fact_2 { Names counts.now bytes.now }
{
    ended(line, at)?;
    let count = counts[0] as usize;
    out.put(b"dsets");
    out.decimal(count as u64);
    for i in 0..count {
        named(bytes, i, out);
    }
    out.put_byte(b'\n');
    Some(())
}

// The i-th set: its entries stand from the i-th page on.
fn dump_at(
    i: usize,
    starts: &[f64],
    numbers: &[u64],
    xs: &[f64],
    ys: &[f64],
    blocks: &[f64],
    defaults: &[f64],
    counts: &[u64],
    bytes: &[u8],
    out: &mut Replies,
)
    requires { (Sizes defaults.now counts.now bytes.now) × (i < max_sets) }
{
    let shape = storing::shape_at(defaults, counts, bytes, i);
    out.put_lists(
        shape.clips,
        part_from(starts, i * layout::PAGE, shape.counts.starts),
        part_from(numbers, i * layout::PAGE, shape.counts.starts),
        part_from(xs, i * layout::KNOT_PAGE, shape.counts.knots),
        part_from(ys, i * layout::KNOT_PAGE, shape.counts.knots),
        part_from(blocks, i * layout::PAGE, shape.counts.blocks),
    );
}

// The set of a name, as `dump` shows the standing one.
pub(super) fn dump(
    line: &[u8],
    at: usize,
    starts: &[f64],
    numbers: &[u64],
    xs: &[f64],
    ys: &[f64],
    blocks: &[f64],
    defaults: &[f64],
    counts: &[u64],
    bytes: &[u8],
    out: &mut Replies,
) -> Option<()>
    requires fact_1 { Sizes defaults.now counts.now bytes.now }
    requires fact_2 { Names counts.now bytes.now }
{
    let mut name = [0u8; NAME];
    let read = read_bytes(line, at, &mut name)?;
    ended(line, read.at)?;
    let n = counts[0] as usize;
    match set_names::find(bytes, n, first(&name, read.value)) {
        Some(i) => dump_at(
            i, starts, numbers, xs, ys, blocks, defaults, counts, bytes, out,
        ),
        None => out.refused(Refusal::NoSet),
    }
    Some(())
}
