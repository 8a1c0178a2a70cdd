// The questions of the case text, and which function answers each. One whose line could not be read replies nothing and gives none.
pub(crate) mod dump;
pub(crate) mod named;
mod placed;
mod sampled;
mod sets;
mod timing;

ghost use Rattle.resolver.specs.State.{Made};

use crate::lines::calls::Question;
use crate::lines::lent::Lent;
use crate::text::{Replies, first};
use resolver::Resolver;

// Answers a question about what stands and the first entries of the lists, which are lent.
pub(crate) fn ask(
    kind: Question,
    line: &[u8],
    at: usize,
    resolver: Resolver,
    lent: Lent,
    ends: &[u64],
    times: &[f64],
    values: &[f64],
    marks: &[u8],
    out: &mut Replies,
) -> Option<()>
    requires { Made resolver }
{
    answer(
        kind,
        line,
        at,
        resolver,
        first(ends, lent.ends),
        first(times, lent.times),
        first(values, lent.values),
        first(marks, lent.marks),
        out,
    )
}

// Apart from its caller: its lists take a megabyte of stack, which the other lines need not touch.
#[inline(never)]
fn answer(
    kind: Question,
    line: &[u8],
    at: usize,
    resolver: Resolver,
    ends: &[u64],
    times: &[f64],
    values: &[f64],
    marks: &[u8],
    out: &mut Replies,
) -> Option<()>
    requires { Made resolver }
{
    match kind {
        Question::Dump => dump::dump(line, at, resolver, out),
        Question::Active => timing::active(line, at, resolver, out),
        Question::ClipTime => timing::clip_time(line, at, resolver, out),
        Question::Name => crate::setless::name(line, at, out),
        Question::Normalize => crate::setless::normalize(line, at, out),
        Question::ClipTimes => crate::setless::clip_times(line, at, out),
        Question::CompareKeys => crate::setless::compare_keys(line, at, out),
        Question::Value(read) => sampled::value(
            line, at, resolver, ends, times, values, marks, read, out,
        ),
        Question::Untimed => {
            sampled::untimed(line, at, resolver, ends, times, values, marks, out)
        }
        Question::Times => sampled::stage_sample_times(
            line, at, resolver, ends, times, values, marks, out,
        ),
        Question::StageSamples => sampled::stage_samples(
            line, at, resolver, ends, times, values, marks, out,
        ),
        Question::Track => sampled::track(line, at, resolver, ends, times, values, marks, out),
        Question::TrackHash => {
            sampled::track_hash(line, at, resolver, ends, times, values, marks, out)
        }
    }
}
