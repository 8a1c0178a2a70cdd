// The order list that a case lends with the questions to the dispatcher: none, or names by their ends and bytes.
ghost use Rattle.cases.specs.Lending.{LendsOrder};

use crate::lines::held::{ALL_SAMPLES, NAME_ENDS_AT};
use crate::lines::lent::Lent;
use crate::lines::limits::{LISTED, ORDER};
use crate::text::{after, copy, ended, numbers_after, read_bytes};

// How much of its two lists is in use.
#[derive(Clone, Copy)]
pub(crate) struct Order {
    pub ends: usize,
    pub bytes: usize,
}

// `none`, or `ends N e.. bytes BYTES`
fn read_into(line: &[u8], at: usize, ends: &mut [u64], bytes: &mut [u8]) -> Option<Option<Order>> {
    if let Some(absent) = after(line, at, b"none") {
        ended(line, absent)?;
        return Some(None);
    }
    let e = numbers_after(line, at, b"ends", ends)?;
    let b = read_bytes(line, after(line, e.at, b"bytes")?, bytes)?;
    ended(line, b.at)?;
    Some(Some(Order {
        ends: e.value,
        bytes: b.value,
    }))
}

// Lends the list of a line in place of the one that was lent. A line that is not readable changes nothing.
pub(crate) fn lend(
    line: &[u8],
    at: usize,
    lent: Lent,
    ends: &mut [u64],
    marks: &mut [u8],
) -> Option<Lent>
    ensures { LendsOrder result ends.old ends.new marks.old marks.new }
{
    let mut newends = [0u64; ORDER];
    let mut newbytes = [0u8; LISTED];
    let order = read_into(line, at, &mut newends, &mut newbytes)?;
    copy(&newends, ends, NAME_ENDS_AT);
    copy(&newbytes, marks, ALL_SAMPLES);
    Some(Lent { order, ..lent })
}
