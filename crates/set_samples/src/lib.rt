// The samples lent for all sets of a dispatcher: the number that refuses them, and each set's own part.

#![tactic(auto)]

ghost use Rattle.std.specs.Prelude.{◌≡◌, ◌≤◌, ◌<◌, eqb, length};
ghost use Rattle.definitions.specs.Refusals.{number_in};
ghost use Rattle.dispatch.specs.NamedSets.{max_sets};
ghost use Rattle.dispatch.specs.SetSamples.{sum, set_samples_number};
ghost use Rattle.set_samples.specs.Parting.{lent_samples, earlier, Parted, Totals, FewClips, OwnAt};

use definitions::limits::SAMPLES;
use definitions::refusal::Refusal;

// Where a set's own samples and clip ends begin and end in the lists of all.
#[derive(Clone, Copy)]
pub struct Own {
    pub begin: usize,
    pub end: usize,
    pub first: usize,
    pub last: usize,
}

// Of two results the one whose number comes first: 2 before 9.
fn first_of(w: Result<(), Refusal>, n: Result<(), Refusal>) -> Result<(), Refusal>
    ensures { number_in result ≡ earlier (eqb (number_in w) 2) (eqb (number_in w) 9) (number_in n) }
{
    match (w, n) {
        (Err(Refusal::Unstorable), _) | (_, Err(Refusal::Unstorable)) => Err(Refusal::Unstorable),
        (Err(Refusal::BadSamples), _) | (_, Err(Refusal::BadSamples)) => Err(Refusal::BadSamples),
        _ => Ok(()),
    }
}

// 2 or 9 where the samples of a set are refused, of lists that can be parted.
fn check_parts(
    clips: &[u64],
    counts: &[u64],
    ends: &[u64],
    times: &[f64],
    values: &[f64],
    marks: &[u8],
) -> Result<(), Refusal>
    requires fact_1 { FewClips clips.now }
    requires fact_2 { Parted clips.now (lent_samples counts.now ends.now times.now values.now marks.now) }
    ensures { number_in result ≡ set_samples_number clips.now (lent_samples counts.now ends.now times.now values.now marks.now) }
{
    let mut a: usize = 0;
    let mut e: usize = 0;
    let mut w = Ok(());
    for i in 0..clips.len() {
        let b = a + counts[i] as usize;
        let f = e + clips[i] as usize;
        let own = sdf::check_samples(
            clips[i],
            &times[a..b],
            &values[a..b],
            &marks[a..b],
            &ends[e..f],
        );
        w = first_of(w, own);
        a = b;
        e = f;
    }
    w
}

// How many samples the sets have. 1 where one has more than the limit.
fn total_samples(counts: &[u64]) -> Result<usize, Refusal>
    requires { length counts.now ≤ max_sets }
    ensures { Totals counts.now result }
{
    let mut sum: usize = 0;
    for count in counts {
        let count = *count as usize;
        if SAMPLES < count {
            return Err(Refusal::Misshapen);
        }
        sum += count;
    }
    Ok(sum)
}

fn total_clips(clips: &[u64]) -> usize
    requires { FewClips clips.now }
    ensures { result ≡ sum clips.now }
{
    clips.iter().map(|c| *c as usize).sum()
}

// 1, 2 or 9 where the samples lent for all sets are refused. The sets have `clips` clips.
pub fn check_samples(
    clips: &[u64],
    counts: &[u64],
    ends: &[u64],
    times: &[f64],
    values: &[f64],
    marks: &[u8],
) -> Result<(), Refusal>
    requires { FewClips clips.now }
    ensures { number_in result ≡ set_samples_number clips.now (lent_samples counts.now ends.now times.now values.now marks.now) }
{
    if values.len() != times.len() || marks.len() != times.len() || counts.len() != clips.len() {
        return Err(Refusal::Misshapen);
    }
    if total_samples(counts)? != times.len() || ends.len() != total_clips(clips) {
        return Err(Refusal::Misshapen);
    }
    check_parts(clips, counts, ends, times, values, marks)
}

// Where the own samples of the k-th set are, of samples that are accepted for every set.
pub fn own_of(
    clips: &[u64],
    counts: &[u64],
    ends: &[u64],
    times: &[f64],
    values: &[f64],
    marks: &[u8],
    k: usize,
) -> Own
    requires fact_1 { FewClips clips.now }
    requires fact_2 { k < length clips.now }
    requires fact_3 { set_samples_number clips.now (lent_samples counts.now ends.now times.now values.now marks.now) ≡ 0 }
    ensures { OwnAt clips.now (lent_samples counts.now ends.now times.now values.now marks.now) k result }
{
    let mut a: usize = 0;
    let mut e: usize = 0;
    for i in 0..k {
        a += counts[i] as usize;
        e += clips[i] as usize;
    }
    Own {
        begin: a,
        end: a + counts[k] as usize,
        first: e,
        last: e + clips[k] as usize,
    }
}
