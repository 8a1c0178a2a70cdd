// The questions about the standing set and the lent samples.
ghost use Rattle.resolver.specs.State.{Made};

use crate::lines::limits::SLOTS;
use crate::lines::slots::slots;
use crate::text::{Replies, ended, read_double};
use crate::track_hash::hash_of;
use definitions::refusal::Refusal;
use definitions::{Answer, StageTime, ValueRead, ValueState};
use resolver::Resolver;

impl Replies {
    // Mark and value, behind the word of the call.
    pub(super) fn answer(&mut self, word: &[u8], a: Answer) {
        match a {
            Answer::Value(x) => self.head(word, 0, x),
            Answer::Blocked => self.head(word, 1, 0.0),
            Answer::Absent => self.head(word, 2, 0.0),
        }
    }

    // Clip and place.
    pub(super) fn sample(&mut self, s: Option<(u64, u64)>) {
        match s {
            Some((clip, place)) => {
                self.decimal(clip);
                self.decimal(place);
            }
            None => self.put(b" none none"),
        }
    }

    // `read` says the sample too, `value` the answer alone.
    fn read(&mut self, r: ValueRead, sampled: bool) {
        if sampled {
            self.answer(b"read", r.answer);
            self.sample(r.sample);
        } else {
            self.answer(b"value", r.answer);
        }
        self.put_byte(b'\n');
    }

    fn state(&mut self, s: ValueState) {
        self.put(match s {
            ValueState::Present => b"untimed present\n",
            ValueState::Blocked => b"untimed blocked\n",
            ValueState::Absent => b"untimed absent\n".as_slice(),
        });
    }
}

pub(super) fn value(
    line: &[u8],
    at: usize,
    resolver: Resolver,
    ends: &[u64],
    times: &[f64],
    values: &[f64],
    marks: &[u8],
    sampled: bool,
    out: &mut Replies,
) -> Option<()>
    requires { Made resolver }
{
    let t = read_double(line, at)?;
    ended(line, t.at)?;
    match by_value::value(resolver, times, values, marks, ends, StageTime(t.value)) {
        Ok(r) => out.read(r, sampled),
        Err(why) => out.refused(why),
    }
    Some(())
}

pub(super) fn untimed(
    line: &[u8],
    at: usize,
    resolver: Resolver,
    ends: &[u64],
    times: &[f64],
    values: &[f64],
    marks: &[u8],
    out: &mut Replies,
) -> Option<()>
    requires { Made resolver }
{
    ended(line, at)?;
    match by_value::untimed(resolver, times, values, marks, ends) {
        Ok(s) => out.state(s),
        Err(why) => out.refused(why),
    }
    Some(())
}

// The times, in the first entries of a list.
// It is lent, here and below: of a range of an array as long as SLOTS the check does not find the bounds (`slice_bounds`).
fn times_in(
    count: usize,
    resolver: Resolver,
    ends: &[u64],
    times: &[f64],
    values: &[f64],
    marks: &[u8],
    outtimes: &mut [f64],
    out: &mut Replies,
)
    requires { Made resolver }
{
    let k = count.min(outtimes.len());
    let told = by_value::stage_sample_times(
        resolver,
        times,
        values,
        marks,
        ends,
        &mut outtimes[..k],
    );
    match told {
        Ok(count) => out.times(b"times", count, outtimes),
        Err(why) => out.refused(why),
    }
}

pub(super) fn stage_sample_times(
    line: &[u8],
    at: usize,
    resolver: Resolver,
    ends: &[u64],
    times: &[f64],
    values: &[f64],
    marks: &[u8],
    out: &mut Replies,
) -> Option<()>
    requires { Made resolver }
{
    let s = slots(line, at, SLOTS, SLOTS)?;
    ended(line, s.at)?;
    times_in(
        s.value,
        resolver,
        ends,
        times,
        values,
        marks,
        &mut [0.0f64; SLOTS],
        out,
    );
    Some(())
}

// The stage samples, in the first entries of two lists.
fn samples_in(
    count: usize,
    resolver: Resolver,
    ends: &[u64],
    times: &[f64],
    values: &[f64],
    marks: &[u8],
    outtimes: &mut [f64],
    outmarks: &mut [u8],
    out: &mut Replies,
)
    requires { Made resolver }
{
    let k = count.min(outtimes.len()).min(outmarks.len());
    let told = by_value::stage_samples(
        resolver,
        times,
        values,
        marks,
        ends,
        &mut outtimes[..k],
        &mut outmarks[..k],
    );
    match told {
        Ok(count) => out.marked_times(b"ssamples", count, outtimes, outmarks),
        Err(why) => out.refused(why),
    }
}

pub(super) fn stage_samples(
    line: &[u8],
    at: usize,
    resolver: Resolver,
    ends: &[u64],
    times: &[f64],
    values: &[f64],
    marks: &[u8],
    out: &mut Replies,
) -> Option<()>
    requires { Made resolver }
{
    let s = slots(line, at, SLOTS, SLOTS)?;
    ended(line, s.at)?;
    samples_in(
        s.value,
        resolver,
        ends,
        times,
        values,
        marks,
        &mut [0.0f64; SLOTS],
        &mut [0u8; SLOTS],
        out,
    );
    Some(())
}

// The track, in the first entries of three lists.
fn track_in(
    count: usize,
    resolver: Resolver,
    ends: &[u64],
    times: &[f64],
    values: &[f64],
    marks: &[u8],
    outtimes: &mut [f64],
    outvalues: &mut [f64],
    outmarks: &mut [u8],
    out: &mut Replies,
)
    requires { Made resolver }
{
    let k = count
        .min(outtimes.len())
        .min(outvalues.len())
        .min(outmarks.len());
    let told = by_value::bake(
        resolver,
        times,
        values,
        marks,
        ends,
        &mut outtimes[..k],
        &mut outvalues[..k],
        &mut outmarks[..k],
    );
    match told {
        Ok(baked) => {
            out.head(b"track", baked.mark, baked.value);
            out.changes(baked.count, outtimes, outvalues, outmarks);
        }
        Err(why) => out.refused(why),
    }
}

pub(super) fn track(
    line: &[u8],
    at: usize,
    resolver: Resolver,
    ends: &[u64],
    times: &[f64],
    values: &[f64],
    marks: &[u8],
    out: &mut Replies,
) -> Option<()>
    requires { Made resolver }
{
    let s = slots(line, at, SLOTS, SLOTS)?;
    ended(line, s.at)?;
    track_in(
        s.value,
        resolver,
        ends,
        times,
        values,
        marks,
        &mut [0.0f64; SLOTS],
        &mut [0.0f64; SLOTS],
        &mut [0u8; SLOTS],
        out,
    );
    Some(())
}

// The numbers are the bake's, except for 22.
pub(super) fn track_hash(
    line: &[u8],
    at: usize,
    resolver: Resolver,
    ends: &[u64],
    times: &[f64],
    values: &[f64],
    marks: &[u8],
    out: &mut Replies,
) -> Option<()>
    requires { Made resolver }
{
    ended(line, at)?;
    if !resolver.stands {
        out.refused(Refusal::NoSet);
        return Some(());
    }
    let set = &resolver.set;
    match sdf::check_samples(set.clips, times, values, marks, ends) {
        Ok(()) => out.put_hashed(hash_of(
            &set.starts,
            &set.numbers,
            &set.xs,
            &set.ys,
            &set.blocks,
            set.counts,
            set.manifest,
            times,
            values,
            marks,
            ends,
        )),
        Err(why) => out.refused(why),
    }
    Some(())
}
