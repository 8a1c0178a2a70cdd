// The questions to the dispatcher, and which function answers each. One whose line could not be read replies nothing and gives none.
ghost use Rattle.pages.specs.Pages.{pages, Made};

use crate::lines::held::{ALL_SAMPLES, COUNTS_AT, NAME_ENDS_AT};
use crate::lines::lent::Lent;
use crate::lines::limits::{ENDS, SAMPLES};
use crate::lines::named_calls::NamedQuestion;
use crate::lines::order::Order;
use crate::questions::{placed, sets};
use crate::text::{Replies, part_from};

// Answers a question about the dispatcher's sets and what is lent with it, a part of each of the four lists.
pub(crate) fn ask<'a>(
    call: NamedQuestion,
    line: &[u8],
    starts: &'a [f64],
    numbers: &'a [u64],
    xs: &'a [f64],
    ys: &'a [f64],
    blocks: &'a [f64],
    defaults: &'a [f64],
    counts: &'a [u64],
    bytes: &'a [u8],
    lent: Lent,
    ends: &[u64],
    times: &[f64],
    values: &[f64],
    marks: &[u8],
    out: &mut Replies,
) -> Option<()>
    requires { Made (pages starts.now numbers.now xs.now ys.now blocks.now defaults.now counts.now bytes.now) }
{
    let order = lent.order.unwrap_or(Order { ends: 0, bytes: 0 });
    answer(
        call,
        line,
        starts,
        numbers,
        xs,
        ys,
        blocks,
        defaults,
        counts,
        bytes,
        lent.order.is_some(),
        part_from(marks, ALL_SAMPLES, order.bytes),
        part_from(ends, NAME_ENDS_AT, order.ends),
        part_from(ends, COUNTS_AT, lent.parted.counts),
        part_from(ends, ENDS, lent.parted.ends),
        part_from(times, SAMPLES, lent.parted.times),
        part_from(values, SAMPLES, lent.parted.values),
        part_from(marks, SAMPLES, lent.parted.marks),
        out,
    )
}

fn answer<'a>(
    call: NamedQuestion,
    line: &[u8],
    starts: &'a [f64],
    numbers: &'a [u64],
    xs: &'a [f64],
    ys: &'a [f64],
    blocks: &'a [f64],
    defaults: &'a [f64],
    counts: &'a [u64],
    bytes: &'a [u8],
    given: bool,
    listed: &[u8],
    nameends: &[u64],
    lens: &[u64],
    ends: &[u64],
    times: &[f64],
    values: &[f64],
    marks: &[u8],
    out: &mut Replies,
) -> Option<()>
    requires { Made (pages starts.now numbers.now xs.now ys.now blocks.now defaults.now counts.now bytes.now) }
{
    match call {
        NamedQuestion::Value(sample, at) => placed::value(
            line, at, sample, starts, numbers, xs, ys, blocks, defaults, counts, bytes, given,
            listed, nameends, lens, ends, times, values, marks, out,
        ),
        NamedQuestion::Track(at) => placed::track(
            line, at, starts, numbers, xs, ys, blocks, defaults, counts, bytes, given, listed,
            nameends, lens, ends, times, values, marks, out,
        ),
        NamedQuestion::Sets(at) => sets::sets(line, at, counts, bytes, out),
        NamedQuestion::Dump(at) => sets::dump(
            line, at, starts, numbers, xs, ys, blocks, defaults, counts, bytes, out,
        ),
    }
}
