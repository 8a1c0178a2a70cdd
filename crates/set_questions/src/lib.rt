// What is asked of a dispatcher: the value and the track of the first set in the order in force that qualifies. Its lists are lent as they stand.

#![tactic(auto)]

ghost use Rattle.std.specs.Prelude.{◌≡◌, ◌+◌, ◌<◌, T, get_or};
ghost use Rattle.std.specs.Float.Ieee.Scale.{finite};
ghost use Rattle.definitions.specs.Lists.{◌then◌};
ghost use Rattle.definitions.specs.Refusals.{number_in};
ghost use Rattle.definitions.specs.Value.{value_read};
ghost use Rattle.definitions.specs.Moments.{outputs};
ghost use Rattle.dispatch.specs.SetOrder.{order_number};
ghost use Rattle.dispatch.specs.SetSamples.{samples_at, set_samples_number};
ghost use Rattle.laws.specs.cell.Lent as lent;
ghost use Rattle.standing.specs.Standing.{set_in};
ghost use Rattle.set_samples.specs.Parting.{lent_samples, OwnAt};
ghost use Rattle.pages.specs.Pages.{pages, part, state_at, Made};
ghost use Rattle.set_questions.specs.Asking.{order_of, ClipCounts, Sorted, AcceptedFor, AnswersOf, BakesSet, nobody_read, no_track, TellsValue, BakesTrack, bake_arguments};

use definitions::refusal::Refusal;
use definitions::{Answer, StageTime, ValueRead};
use pages::layout::CLIPS;
use pages::{layout, storing};
use set_order::AnsweringSet;
use set_samples::Own;
use track::bake::Baked;

// What a question replies: the place of the answering set in the order in force, if one qualifies, and the answer.
#[derive(Clone, Copy)]
pub struct Placed<T> {
    pub place: Option<u64>,
    pub answer: T,
}

// Whether the order list, if one is given, and the samples are accepted: refused by 23, then by 1, 2 or 9 of the samples of any set.
fn check_question(
    counts: &[u64],
    given: bool,
    listed: &[u8],
    nameends: &[u64],
    lens: &[u64],
    ends: &[u64],
    times: &[f64],
    values: &[f64],
    marks: &[u8],
) -> Result<(), Refusal>
    requires { ClipCounts counts.now }
    ensures { number_in result ≡ (order_number (order_of given listed.now nameends.now) then set_samples_number (part 1 (get_or counts.now 0 0) counts.now) (lent_samples lens.now ends.now times.now values.now marks.now)) }
{
    if given {
        set_order::check_order(listed, nameends)?;
    }
    let end = CLIPS + counts[0] as usize;
    set_samples::check_samples(&counts[CLIPS..end], lens, ends, times, values, marks)
}

// The set that answers.
fn answering(
    counts: &[u64],
    bytes: &[u8],
    given: bool,
    listed: &[u8],
    nameends: &[u64],
) -> Option<AnsweringSet>
    requires fact_1 { Sorted counts.now bytes.now }
    requires fact_2 { order_number (order_of given listed.now nameends.now) ≡ 0 }
    ensures { AnswersOf counts.now bytes.now (order_of given listed.now nameends.now) result }
{
    let n = counts[0] as usize;
    let s = layout::STARTS + n;
    let d = layout::DECLARES + n;
    let e = layout::BY_NAME + n;
    if given {
        return set_order::listed::first_listed(
            bytes,
            &counts[layout::STARTS..s],
            &bytes[layout::DECLARES..d],
            listed,
            nameends,
        );
    }
    set_order::first_in_order(
        &counts[layout::STARTS..s],
        &bytes[layout::DECLARES..d],
        &counts[layout::BY_NAME..e],
    )
}

// The value of the k-th set, with samples that are accepted for it.
fn read_at<'a>(
    starts: &'a [f64],
    numbers: &'a [u64],
    xs: &'a [f64],
    ys: &'a [f64],
    blocks: &'a [f64],
    defaults: &'a [f64],
    counts: &'a [u64],
    bytes: &'a [u8],
    k: usize,
    times: &[f64],
    values: &[f64],
    marks: &[u8],
    ends: &[u64],
    t: StageTime,
) -> ValueRead
    requires fact_1 { Made (pages starts.now numbers.now xs.now ys.now blocks.now defaults.now counts.now bytes.now) }
    requires fact_2 { k < get_or counts.now 0 0 }
    requires fact_3 { AcceptedFor (get_or counts.now (1 + k) 0) times.now values.now marks.now ends.now }
    requires fact_4 { T (finite t.0) }
    ensures { result ≡ value_read (set_in (state_at (pages starts.now numbers.now xs.now ys.now blocks.now defaults.now counts.now bytes.now) k).set) (lent.samples_of times.now values.now marks.now ends.now) t }
{
    let a = k * layout::PAGE;
    let b = k * layout::KNOT_PAGE;
    let e = a + layout::PAGE;
    let f = b + layout::KNOT_PAGE;
    let shape = storing::shape_at(defaults, counts, bytes, k);
    standing::questions::value(
        &starts[a..e],
        &numbers[a..e],
        &xs[b..f],
        &ys[b..f],
        &blocks[a..e],
        shape.counts,
        shape.manifest,
        times,
        values,
        marks,
        ends,
        t,
    )
}

// The track of the k-th set, with samples that are accepted for it.
fn bake_at<'a>(
    starts: &'a [f64],
    numbers: &'a [u64],
    xs: &'a [f64],
    ys: &'a [f64],
    blocks: &'a [f64],
    defaults: &'a [f64],
    counts: &'a [u64],
    bytes: &'a [u8],
    k: usize,
    times: &[f64],
    values: &[f64],
    marks: &[u8],
    ends: &[u64],
    outtimes: &mut [f64],
    outvalues: &mut [f64],
    outmarks: &mut [u8],
) -> Result<Baked, Refusal>
    requires fact_1 { Made (pages starts.now numbers.now xs.now ys.now blocks.now defaults.now counts.now bytes.now) }
    requires fact_2 { k < get_or counts.now 0 0 }
    requires fact_3 { AcceptedFor (get_or counts.now (1 + k) 0) times.now values.now marks.now ends.now }
    ensures { BakesSet (set_in (state_at (pages starts.now numbers.now xs.now ys.now blocks.now defaults.now counts.now bytes.now) k).set) (lent.samples_of times.now values.now marks.now ends.now) (outputs outtimes.old outvalues.old outmarks.old) result (outputs outtimes.new outvalues.new outmarks.new) }
{
    let a = k * layout::PAGE;
    let b = k * layout::KNOT_PAGE;
    let e = a + layout::PAGE;
    let f = b + layout::KNOT_PAGE;
    let shape = storing::shape_at(defaults, counts, bytes, k);
    standing::questions::bake(
        &starts[a..e],
        &numbers[a..e],
        &xs[b..f],
        &ys[b..f],
        &blocks[a..e],
        shape.counts,
        shape.manifest,
        times,
        values,
        marks,
        ends,
        outtimes,
        outvalues,
        outmarks,
    )
}

// Where the own samples of the k-th set are, of samples that are accepted for every set.
fn own_at(
    counts: &[u64],
    k: usize,
    lens: &[u64],
    ends: &[u64],
    times: &[f64],
    values: &[f64],
    marks: &[u8],
) -> Own
    requires fact_1 { ClipCounts counts.now }
    requires fact_2 { k < get_or counts.now 0 0 }
    requires fact_3 { set_samples_number (part 1 (get_or counts.now 0 0) counts.now) (lent_samples lens.now ends.now times.now values.now marks.now) ≡ 0 }
    ensures { OwnAt (part 1 (get_or counts.now 0 0) counts.now) (lent_samples lens.now ends.now times.now values.now marks.now) k result }
{
    let n = CLIPS + counts[0] as usize;
    set_samples::own_of(&counts[CLIPS..n], lens, ends, times, values, marks, k)
}

// The value of the set that answers, with its own samples.
fn read_own<'a>(
    starts: &'a [f64],
    numbers: &'a [u64],
    xs: &'a [f64],
    ys: &'a [f64],
    blocks: &'a [f64],
    defaults: &'a [f64],
    counts: &'a [u64],
    bytes: &'a [u8],
    k: usize,
    lens: &[u64],
    ends: &[u64],
    times: &[f64],
    values: &[f64],
    marks: &[u8],
    t: StageTime,
) -> ValueRead
    requires fact_1 { Made (pages starts.now numbers.now xs.now ys.now blocks.now defaults.now counts.now bytes.now) }
    requires fact_2 { k < get_or counts.now 0 0 }
    requires fact_3 { set_samples_number (part 1 (get_or counts.now 0 0) counts.now) (lent_samples lens.now ends.now times.now values.now marks.now) ≡ 0 }
    requires fact_4 { T (finite t.0) }
    ensures { result ≡ value_read (set_in (state_at (pages starts.now numbers.now xs.now ys.now blocks.now defaults.now counts.now bytes.now) k).set) (samples_at (part 1 (get_or counts.now 0 0) counts.now) (lent_samples lens.now ends.now times.now values.now marks.now) k) t }
{
    let own = own_at(counts, k, lens, ends, times, values, marks);
    let begin = own.begin;
    let end = own.end;
    let first = own.first;
    let last = own.last;
    read_at(
        starts,
        numbers,
        xs,
        ys,
        blocks,
        defaults,
        counts,
        bytes,
        k,
        &times[begin..end],
        &values[begin..end],
        &marks[begin..end],
        &ends[first..last],
        t,
    )
}

// The track of the set that answers, with its own samples.
fn bake_own<'a>(
    starts: &'a [f64],
    numbers: &'a [u64],
    xs: &'a [f64],
    ys: &'a [f64],
    blocks: &'a [f64],
    defaults: &'a [f64],
    counts: &'a [u64],
    bytes: &'a [u8],
    k: usize,
    lens: &[u64],
    ends: &[u64],
    times: &[f64],
    values: &[f64],
    marks: &[u8],
    outtimes: &mut [f64],
    outvalues: &mut [f64],
    outmarks: &mut [u8],
) -> Result<Baked, Refusal>
    requires fact_1 { Made (pages starts.now numbers.now xs.now ys.now blocks.now defaults.now counts.now bytes.now) }
    requires fact_2 { k < get_or counts.now 0 0 }
    requires fact_3 { set_samples_number (part 1 (get_or counts.now 0 0) counts.now) (lent_samples lens.now ends.now times.now values.now marks.now) ≡ 0 }
    ensures { BakesSet (set_in (state_at (pages starts.now numbers.now xs.now ys.now blocks.now defaults.now counts.now bytes.now) k).set) (samples_at (part 1 (get_or counts.now 0 0) counts.now) (lent_samples lens.now ends.now times.now values.now marks.now) k) (outputs outtimes.old outvalues.old outmarks.old) result (outputs outtimes.new outvalues.new outmarks.new) }
{
    let own = own_at(counts, k, lens, ends, times, values, marks);
    let begin = own.begin;
    let end = own.end;
    let first = own.first;
    let last = own.last;
    bake_at(
        starts,
        numbers,
        xs,
        ys,
        blocks,
        defaults,
        counts,
        bytes,
        k,
        &times[begin..end],
        &values[begin..end],
        &marks[begin..end],
        &ends[first..last],
        outtimes,
        outvalues,
        outmarks,
    )
}

// The value at a stage time and the place of the set that answers; absent where no set qualifies.
pub fn value<'a>(
    starts: &'a [f64],
    numbers: &'a [u64],
    xs: &'a [f64],
    ys: &'a [f64],
    blocks: &'a [f64],
    defaults: &'a [f64],
    counts: &'a [u64],
    bytes: &'a [u8],
    given: bool,
    listed: &[u8],
    nameends: &[u64],
    lens: &[u64],
    ends: &[u64],
    times: &[f64],
    values: &[f64],
    marks: &[u8],
    t: StageTime,
) -> Result<Placed<ValueRead>, Refusal>
    requires { Made (pages starts.now numbers.now xs.now ys.now blocks.now defaults.now counts.now bytes.now) }
    ensures { TellsValue (pages starts.now numbers.now xs.now ys.now blocks.now defaults.now counts.now bytes.now) (order_of given listed.now nameends.now) (lent_samples lens.now ends.now times.now values.now marks.now) t result }
{
    check_question(
        counts, given, listed, nameends, lens, ends, times, values, marks,
    )?;
    if !gf::is_finite(t.0) {
        return Err(Refusal::TimeNotFinite);
    }
    match answering(counts, bytes, given, listed, nameends) {
        Some(set) => {
            let answer = read_own(
                starts, numbers, xs, ys, blocks, defaults, counts, bytes, set.number, lens, ends,
                times, values, marks, t,
            );
            let place = Some(set.place as u64);
            Ok(Placed { place, answer })
        }
        None => Ok(nobody_reads()),
    }
}

fn nobody_reads() -> Placed<ValueRead>
    ensures { result ≡ nobody_read }
{
    let answer = ValueRead {
        answer: Answer::Absent,
        sample: None,
    };
    Placed {
        place: None,
        answer,
    }
}

// The track of the set that answers and its place: the head and the count, and the changes written to the lent lists.
pub fn bake<'a>(
    starts: &'a [f64],
    numbers: &'a [u64],
    xs: &'a [f64],
    ys: &'a [f64],
    blocks: &'a [f64],
    defaults: &'a [f64],
    counts: &'a [u64],
    bytes: &'a [u8],
    given: bool,
    listed: &[u8],
    nameends: &[u64],
    lens: &[u64],
    ends: &[u64],
    times: &[f64],
    values: &[f64],
    marks: &[u8],
    outtimes: &mut [f64],
    outvalues: &mut [f64],
    outmarks: &mut [u8],
) -> Result<Placed<Baked>, Refusal>
    requires { Made (pages starts.now numbers.now xs.now ys.now blocks.now defaults.now counts.now bytes.now) }
    ensures { BakesTrack (pages starts.now numbers.now xs.now ys.now blocks.now defaults.now counts.now bytes.now) (bake_arguments (order_of given listed.now nameends.now) (lent_samples lens.now ends.now times.now values.now marks.now)) (outputs outtimes.old outvalues.old outmarks.old) result (outputs outtimes.new outvalues.new outmarks.new) }
{
    check_question(
        counts, given, listed, nameends, lens, ends, times, values, marks,
    )?;
    match answering(counts, bytes, given, listed, nameends) {
        Some(set) => {
            let answer = bake_own(
                starts, numbers, xs, ys, blocks, defaults, counts, bytes, set.number, lens, ends,
                times, values, marks, outtimes, outvalues, outmarks,
            )?;
            Ok(Placed {
                place: Some(set.place as u64),
                answer,
            })
        }
        None => Ok(no_track()),
    }
}

// An absent head, no change, and no set's place.
fn no_track() -> Placed<Baked>
    ensures { result ≡ no_track }
{
    let answer = Baked {
        mark: 2,
        value: 0.0,
        count: 0,
    };
    Placed {
        place: None,
        answer,
    }
}
