// The normal form of time samples.

#![tactic(auto)]

ghost use Rattle.std.specs.Prelude.{◌≡◌};
ghost use Rattle.definitions.specs.Moments.{outputs};
ghost use Rattle.definitions.specs.Refusals.{number_in};
ghost use Rattle.normal_form.specs.Normalizes.{Normalizes, listed_number};

use definitions::limits::SAMPLES;
use definitions::refusal::Refusal;
use sdf::scans;

mod merging;
mod sorting;

// Whether lists in any order are accepted, before their normal form is looked at: refused by 1, 2 or 9.
fn check_listed(times: &[f64], values: &[f64], marks: &[u8]) -> Result<(), Refusal>
    ensures { number_in result ≡ listed_number times.now values.now marks.now }
{
    if scans::unlike_lengths(times, values, marks) {
        return Err(Refusal::Misshapen);
    }
    if lists::any_unstorable(times) {
        return Err(Refusal::Unstorable);
    }
    if scans::any_nan(values, marks) {
        return Err(Refusal::Unstorable);
    }
    if scans::bad_marks(marks) {
        return Err(Refusal::BadSamples);
    }
    Ok(())
}

// The samples sorted stably by time, and of equal times the first time with the last value and mark.
// Nothing is written before the merged count, which is the reply, is known to fit.
pub fn normalize_time_samples(
    times: &[f64],
    values: &[f64],
    marks: &[u8],
    outtimes: &mut [f64],
    outvalues: &mut [f64],
    outmarks: &mut [u8],
) -> Result<usize, Refusal>
    ensures { Normalizes times.now values.now marks.now (outputs outtimes.old outvalues.old outmarks.old) (outputs outtimes.new outvalues.new outmarks.new) result }
{
    check_listed(times, values, marks)?;
    let n = times.len();
    let mut places = [0u16; SAMPLES];
    let mut firsts = [0u16; SAMPLES];
    let mut lasts = [0u16; SAMPLES];
    merging::normalize_into(
        times,
        values,
        marks,
        &mut places[..n],
        &mut firsts[..n],
        &mut lasts[..n],
        outtimes,
        outvalues,
        outmarks,
    )
}
