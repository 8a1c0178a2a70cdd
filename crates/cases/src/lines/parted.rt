// The samples of the dispatcher's sets that a case lends with its questions: how many each set has, the clip ends of all sets, and the samples of all sets.
ghost use Rattle.cases.specs.Lending.{Lends};

use crate::lines::held::COUNTS_AT;
use crate::lines::lent::Lent;
use crate::lines::limits::{COUNTS, ENDS, PARTED, PARTED_ENDS, SAMPLES};
use crate::text::{copy, doubles_after, ended, marks_after, numbers_after};

// How much of each of the five lists is in use.
#[derive(Clone, Copy)]
pub(crate) struct Parted {
    pub counts: usize,
    pub ends: usize,
    pub times: usize,
    pub values: usize,
    pub marks: usize,
}

pub(crate) fn none() -> Parted {
    Parted {
        counts: 0,
        ends: 0,
        times: 0,
        values: 0,
        marks: 0,
    }
}

// `counts N n.. ends N e.. t L v L m N m..`
fn read_into(
    line: &[u8],
    at: usize,
    counts: &mut [u64],
    ends: &mut [u64],
    times: &mut [f64],
    values: &mut [f64],
    marks: &mut [u8],
) -> Option<Parted> {
    let n = numbers_after(line, at, b"counts", counts)?;
    let e = numbers_after(line, n.at, b"ends", ends)?;
    let t = doubles_after(line, e.at, b"t", times)?;
    let v = doubles_after(line, t.at, b"v", values)?;
    let m = marks_after(line, v.at, b"m", marks)?;
    ended(line, m.at)?;
    Some(Parted {
        counts: n.value,
        ends: e.value,
        times: t.value,
        values: v.value,
        marks: m.value,
    })
}

// Lends the samples of a line in place of those that were lent. The line is read into lists apart first: one that is not readable changes nothing.
pub(crate) fn lend(
    line: &[u8],
    at: usize,
    lent: Lent,
    ends: &mut [u64],
    times: &mut [f64],
    values: &mut [f64],
    marks: &mut [u8],
) -> Option<Lent>
    ensures { Lends result ends.old ends.new times.old times.new values.old values.new marks.old marks.new }
{
    let mut newcounts = [0u64; COUNTS];
    let mut newends = [0u64; PARTED_ENDS];
    let mut newtimes = [0.0f64; PARTED];
    let mut newvalues = [0.0f64; PARTED];
    let mut newmarks = [0u8; PARTED];
    let parted = read_into(
        line,
        at,
        &mut newcounts,
        &mut newends,
        &mut newtimes,
        &mut newvalues,
        &mut newmarks,
    )?;
    copy(&newcounts, ends, COUNTS_AT);
    copy(&newends, ends, ENDS);
    copy(&newtimes, times, SAMPLES);
    copy(&newvalues, values, SAMPLES);
    copy(&newmarks, marks, SAMPLES);
    Some(Lent { parted, ..lent })
}
