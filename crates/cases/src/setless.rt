// The questions that ask no resolver.
use crate::lines::limits::{BYTES, SAMPLES, SLOTS};
use crate::lines::slots::slots;
use crate::lines::template_numbers::TemplateNumbers;
use crate::lines::{template_numbers, values};
use crate::text::{
    Replies, doubles_after, ended, first, marks_after, patterns_after, read_bytes, read_double,
    read_pattern,
};
use definitions::ClipTime;
use std::cmp::Ordering;

// The name at a clip time, in the first bytes of a list.
pub(crate) fn name(line: &[u8], at: usize, out: &mut Replies) -> Option<()> {
    let mut template = [0u8; BYTES];
    let mut written = [0u8; BYTES];
    let b = read_bytes(line, at, &mut template)?;
    let t = read_double(line, b.at)?;
    let s = slots(line, t.at, 400, BYTES)?;
    ended(line, s.at)?;
    let room = s.value.min(BYTES);
    match names::name(
        first(&template, b.value),
        ClipTime(t.value),
        &mut written[..room],
    ) {
        Ok(length) => {
            out.put(b"name ");
            out.put_bytes(first(&written, length));
            out.put_byte(b'\n');
        }
        Err(why) => out.refused(why),
    }
    Some(())
}

// The samples in order, in the first entries of three lists. The values are those of `values::lend`.
// The lists are lent: of a range of arrays as long as SLOTS the check does not find the bounds (`slice_bounds`).
fn normalized_in(
    times: &[f64],
    lent: &[f64],
    marks: &[u8],
    patterns: &[u64],
    count: usize,
    outtimes: &mut [f64],
    outvalues: &mut [f64],
    outmarks: &mut [u8],
    out: &mut Replies,
) {
    let k = count
        .min(outtimes.len())
        .min(outvalues.len())
        .min(outmarks.len());
    let told = normal_form::normalize_time_samples(
        times,
        lent,
        marks,
        &mut outtimes[..k],
        &mut outvalues[..k],
        &mut outmarks[..k],
    );
    match told {
        Ok(count) => out.samples(count, outtimes, outvalues, outmarks, patterns),
        Err(why) => out.refused(why),
    }
}

// Built into its caller, whose other questions then have their lists at the same place of the stack.
#[inline(always)]
fn normalized(
    times: &[f64],
    lent: &[f64],
    marks: &[u8],
    patterns: &[u64],
    count: usize,
    out: &mut Replies,
) {
    normalized_in(
        times,
        lent,
        marks,
        patterns,
        count,
        &mut [0.0f64; SLOTS],
        &mut [0.0f64; SLOTS],
        &mut [0u8; SLOTS],
        out,
    );
}

pub(crate) fn normalize(line: &[u8], at: usize, out: &mut Replies) -> Option<()> {
    let mut times = [0.0f64; SAMPLES];
    let mut patterns = [0u64; SAMPLES];
    let mut marks = [0u8; SAMPLES];
    let mut lent = [0.0f64; SAMPLES];
    let t = doubles_after(line, at, b"t", &mut times)?;
    let v = patterns_after(line, t.at, b"v", &mut patterns)?;
    let m = marks_after(line, v.at, b"m", &mut marks)?;
    let s = slots(line, m.at, SLOTS, SLOTS)?;
    ended(line, s.at)?;
    let patterns = first(&patterns, v.value);
    let marks = first(&marks, m.value);
    values::lend(patterns, marks, &mut lent);
    normalized(
        first(&times, t.value),
        first(&lent, v.value),
        marks,
        patterns,
        s.value,
        out,
    );
    Some(())
}

// A template's clip times, in the first entries of a list.
fn clip_times_in(numbers: TemplateNumbers, count: usize, outtimes: &mut [f64], out: &mut Replies) {
    let k = count.min(outtimes.len());
    let told = template::clip_times(numbers.times, numbers.offset, &mut outtimes[..k]);
    match told {
        Ok(count) => out.times(b"cliptimes", count, outtimes),
        Err(why) => out.refused(why),
    }
}

pub(crate) fn clip_times(line: &[u8], at: usize, out: &mut Replies) -> Option<()> {
    let numbers = template_numbers::read(line, at)?;
    let s = slots(line, numbers.at, SLOTS, SLOTS)?;
    ended(line, s.at)?;
    clip_times_in(numbers, s.value, &mut [0.0f64; SLOTS], out);
    Some(())
}

// How the first of two bit patterns stands to the second. They are no doubles here, which would lose a NaN's sign and payload.
pub(crate) fn compare_keys(line: &[u8], at: usize, out: &mut Replies) -> Option<()> {
    let a = read_pattern(line, at)?;
    let b = read_pattern(line, a.at)?;
    ended(line, b.at)?;
    match gf::total_order::compare(a.value, b.value) {
        Ordering::Less => out.put(b"keycmp before\n"),
        Ordering::Equal => out.put(b"keycmp same\n"),
        Ordering::Greater => out.put(b"keycmp after\n"),
    }
    Some(())
}
