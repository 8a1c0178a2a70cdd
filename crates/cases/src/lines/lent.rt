// What a case lends with its questions, in four lists: the samples, and for the dispatcher the order list and the samples of its sets.
ghost use Rattle.cases.specs.Lending.{Lends};

use crate::lines::limits::{ENDS, SAMPLES};
use crate::lines::order::Order;
use crate::lines::parted;
use crate::lines::parted::Parted;
use crate::text::{copy, doubles_after, ended, marks_after, numbers_after};

// How much of each list is in use, and of the order list's two if one is given.
#[derive(Clone, Copy)]
pub(crate) struct Lent {
    pub ends: usize,
    pub times: usize,
    pub values: usize,
    pub marks: usize,
    pub order: Option<Order>,
    pub parted: Parted,
}

pub(crate) fn none() -> Lent {
    Lent {
        ends: 0,
        times: 0,
        values: 0,
        marks: 0,
        order: None,
        parted: parted::none(),
    }
}

// Reads the samples of a line into the four lists.
fn read_into(
    line: &[u8],
    at: usize,
    before: Lent,
    ends: &mut [u64],
    times: &mut [f64],
    values: &mut [f64],
    marks: &mut [u8],
) -> Option<Lent> {
    let e = numbers_after(line, at, b"ends", ends)?;
    let t = doubles_after(line, e.at, b"t", times)?;
    let v = doubles_after(line, t.at, b"v", values)?;
    let m = marks_after(line, v.at, b"m", marks)?;
    ended(line, m.at)?;
    Some(Lent {
        ends: e.value,
        times: t.value,
        values: v.value,
        marks: m.value,
        ..before
    })
}

// Lends the samples of a line in place of those that were lent. The line is read into lists apart first: one that is not
// readable changes nothing.
pub(crate) fn lend(
    line: &[u8],
    at: usize,
    lent: Lent,
    ends: &mut [u64],
    times: &mut [f64],
    values: &mut [f64],
    marks: &mut [u8],
) -> Option<Lent>
    ensures { Lends result ends.old ends.new times.old times.new values.old values.new marks.old marks.new }
{
    let mut newends = [0u64; ENDS];
    let mut newtimes = [0.0f64; SAMPLES];
    let mut newvalues = [0.0f64; SAMPLES];
    let mut newmarks = [0u8; SAMPLES];
    let now = read_into(
        line,
        at,
        lent,
        &mut newends,
        &mut newtimes,
        &mut newvalues,
        &mut newmarks,
    )?;
    copy(&newends, ends, 0);
    copy(&newtimes, times, 0);
    copy(&newvalues, values, 0);
    copy(&newmarks, marks, 0);
    Some(now)
}
