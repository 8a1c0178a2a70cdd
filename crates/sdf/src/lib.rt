// Time samples as they are lent: when they are refused.

#![tactic(auto)]

ghost use Rattle.definitions.specs.Refusals.{number_in};
ghost use Rattle.sdf.specs.Judged.{Judged};

use definitions::refusal::Refusal;

pub mod look;
pub mod part;
pub mod scans;

// Whether the samples are accepted for a set with `clips` clips: refused by 1, 2 or 9.
// Sound lists are told in few passes; what is wrong with others is looked for after.
pub fn check_samples(
    clips: u64,
    times: &[f64],
    values: &[f64],
    marks: &[u8],
    ends: &[u64],
) -> Result<(), Refusal>
    ensures { Judged clips times.now values.now marks.now ends.now (number_in result) }
{
    if scans::unlike_lengths(times, values, marks) {
        return Err(Refusal::Misshapen);
    }
    if ends.len() as u64 != clips {
        return Err(Refusal::Misshapen);
    }
    if scans::any_nan(values, marks) {
        return Err(Refusal::Unstorable);
    }
    if !scans::sound(times, ends) {
        if lists::any_unstorable(times) {
            return Err(Refusal::Unstorable);
        }
        return Err(Refusal::BadSamples);
    }
    if scans::bad_marks(marks) {
        return Err(Refusal::BadSamples);
    }
    Ok(())
}
