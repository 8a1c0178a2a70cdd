// The value and the track of the set that answers, and its place in the order in force.
ghost use Rattle.pages.specs.Pages.{pages, Made};

use crate::lines::limits::SLOTS;
use crate::lines::slots::slots;
use crate::text::{Replies, ended, read_double};
use definitions::{StageTime, ValueRead};
use set_questions::Placed;

impl Replies {
    // The place, behind the word of the call.
    fn place(&mut self, word: &[u8], place: Option<u64>) {
        self.put(word);
        match place {
            Some(place) => self.decimal(place),
            None => self.put(b" none"),
        }
    }

    // `dread` says the sample too, `dvalue` the answer alone.
    fn placed(&mut self, r: Placed<ValueRead>, sample: bool) {
        self.place(
            if sample {
                b"dread".as_slice()
            } else {
                b"dvalue"
            },
            r.place,
        );
        self.answer(b"", r.answer.answer);
        if sample {
            self.sample(r.answer.sample);
        }
        self.put_byte(b'\n');
    }
}

pub(super) fn value<'a>(
    line: &[u8],
    at: usize,
    sample: bool,
    starts: &'a [f64],
    numbers: &'a [u64],
    xs: &'a [f64],
    ys: &'a [f64],
    blocks: &'a [f64],
    defaults: &'a [f64],
    counts: &'a [u64],
    bytes: &'a [u8],
    given: bool,
    listed: &[u8],
    nameends: &[u64],
    lens: &[u64],
    ends: &[u64],
    times: &[f64],
    values: &[f64],
    marks: &[u8],
    out: &mut Replies,
) -> Option<()>
    requires { Made (pages starts.now numbers.now xs.now ys.now blocks.now defaults.now counts.now bytes.now) }
{
    let t = read_double(line, at)?;
    ended(line, t.at)?;
    let told = set_questions::value(
        starts,
        numbers,
        xs,
        ys,
        blocks,
        defaults,
        counts,
        bytes,
        given,
        listed,
        nameends,
        lens,
        ends,
        times,
        values,
        marks,
        StageTime(t.value),
    );
    match told {
        Ok(r) => out.placed(r, sample),
        Err(why) => out.refused(why),
    }
    Some(())
}

// The track, in the first entries of three lists, which are lent as in `sampled`.
fn track_in<'a>(
    count: usize,
    starts: &'a [f64],
    numbers: &'a [u64],
    xs: &'a [f64],
    ys: &'a [f64],
    blocks: &'a [f64],
    defaults: &'a [f64],
    counts: &'a [u64],
    bytes: &'a [u8],
    given: bool,
    listed: &[u8],
    nameends: &[u64],
    lens: &[u64],
    ends: &[u64],
    times: &[f64],
    values: &[f64],
    marks: &[u8],
    outtimes: &mut [f64],
    outvalues: &mut [f64],
    outmarks: &mut [u8],
    out: &mut Replies,
)
    requires { Made (pages starts.now numbers.now xs.now ys.now blocks.now defaults.now counts.now bytes.now) }
{
    let k = count
        .min(outtimes.len())
        .min(outvalues.len())
        .min(outmarks.len());
    let told = set_questions::bake(
        starts,
        numbers,
        xs,
        ys,
        blocks,
        defaults,
        counts,
        bytes,
        given,
        listed,
        nameends,
        lens,
        ends,
        times,
        values,
        marks,
        &mut outtimes[..k],
        &mut outvalues[..k],
        &mut outmarks[..k],
    );
    match told {
        Ok(r) => {
            out.place(b"dtrack", r.place);
            out.head(b"", r.answer.mark, r.answer.value);
            out.changes(r.answer.count, outtimes, outvalues, outmarks);
        }
        Err(why) => out.refused(why),
    }
}

pub(super) fn track<'a>(
    line: &[u8],
    at: usize,
    starts: &'a [f64],
    numbers: &'a [u64],
    xs: &'a [f64],
    ys: &'a [f64],
    blocks: &'a [f64],
    defaults: &'a [f64],
    counts: &'a [u64],
    bytes: &'a [u8],
    given: bool,
    listed: &[u8],
    nameends: &[u64],
    lens: &[u64],
    ends: &[u64],
    times: &[f64],
    values: &[f64],
    marks: &[u8],
    out: &mut Replies,
) -> Option<()>
    requires { Made (pages starts.now numbers.now xs.now ys.now blocks.now defaults.now counts.now bytes.now) }
{
    let s = slots(line, at, SLOTS, SLOTS)?;
    ended(line, s.at)?;
    track_in(
        s.value,
        starts,
        numbers,
        xs,
        ys,
        blocks,
        defaults,
        counts,
        bytes,
        given,
        listed,
        nameends,
        lens,
        ends,
        times,
        values,
        marks,
        &mut [0.0f64; SLOTS],
        &mut [0.0f64; SLOTS],
        &mut [0u8; SLOTS],
        out,
    );
    Some(())
}
