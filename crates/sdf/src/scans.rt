// The tests over lent samples, each in one pass over its lists.
ghost use Rattle.std.specs.Prelude.{◌≡◌, Bool, not, ◌&&◌, ◌||◌, cond, ◌-◌, ◌≤◌, ltb, length, get_or, take, drop};
ghost use Rattle.std.specs.Float.{nan};
ghost use Rattle.std.specs.List.{list_any, zip};
ghost use Rattle.std.specs.Float.Ieee.{is_nan, lt};
ghost use Rattle.gf.specs.Doubles.{storable};
ghost use Rattle.definitions.specs.Lists.{any, zip_with};
ghost use Rattle.definitions.specs.Doubles as Doubles;
ghost use Rattle.definitions.specs.ClipSet.{any_unstorable};
ghost use Rattle.definitions.specs.Samples as Samples;
ghost use Rattle.sdf.specs.Parts as Parts;

use definitions::limits::SAMPLES;

// More samples than the limit, or lists of unlike length.
pub fn unlike_lengths(times: &[f64], values: &[f64], marks: &[u8]) -> bool
    ensures { result ≡ Samples.unlike_lengths times.now values.now marks.now }
{
    let count = times.len();
    count > SAMPLES || values.len() != count || marks.len() != count
}

// A NaN counts only under the mark of a value.
fn is_nan_value(value: f64, mark: u8) -> bool
    ensures { result ≡ Samples.nan_value value mark }
{
    mark == 0 && value.is_nan()
}

// 1 where either is a NaN, else 0.
fn nan_found(a: f64, b: f64) -> u64
    ensures { result ≡ cond (is_nan a || is_nan b) 1 0 }
{
    u64::from(a.is_nan() || b.is_nan())
}

// A NaN is in one of two lists. No early exit, so that no step branches, and one comparison for an entry of each: by index, since
// a `zip` looks for the end of both lists at each entry.
fn any_nan_beside(left: &[f64], right: &[f64]) -> bool
    requires { length left.now ≡ length right.now }
    ensures { result ≡ (any is_nan left.now || any is_nan right.now) }
{
    let mut found: u64 = 0;
    for (i, value) in left.iter().enumerate() {
        found += nan_found(*value, right[i]);
    }
    0 < found
}

// A NaN is among the values: in one of two halves, which share the middle value of an odd number.
fn any_not_a_number(values: &[f64]) -> bool
    ensures { result ≡ any is_nan values.now }
{
    let half = values.len() / 2;
    let end = values.len() - half;
    any_nan_beside(&values[..end], &values[half..])
}

// A NaN under the mark of a value is among the values.
fn any_nan_marked(values: &[f64], marks: &[u8]) -> bool
    ensures { result ≡ list_any (λ p. Samples.nan_value p.0 p.1) (zip values.now marks.now) }
{
    values
        .iter()
        .zip(marks)
        .any(|(value, mark)| is_nan_value(*value, *mark))
}

// The same, where the marks are looked at only if there is a NaN at all.
pub fn any_nan(values: &[f64], marks: &[u8]) -> bool
    requires { length values.now ≡ length marks.now }
    ensures { result ≡ any (λ (b : Bool). b) (zip_with Samples.nan_value values.now marks.now) }
{
    any_not_a_number(values) && any_nan_marked(values, marks)
}

// A mark other than that of a value or a block is among them: the largest is.
pub fn bad_marks(marks: &[u8]) -> bool
    ensures { result ≡ Samples.bad_marks marks.now }
{
    marks
        .iter()
        .copied()
        .max()
        .is_some_and(|largest| 1 < largest)
}

// 0 where a time is below the one after it, else 1.
fn fall(time: f64, next: f64) -> u64
    ensures { result ≡ cond (lt time next) 0 1 }
{
    u64::from(!(time < next))
}

// How many times are not below the one after them. No early exit, so that no step branches, and each time is read once.
fn falls(times: &[f64]) -> u64
    ensures { result ≡ Parts.falls times.now }
{
    if times.is_empty() {
        return 0;
    }
    let mut found: u64 = 0;
    let mut last = times[0];
    for next in &times[1..] {
        found += fall(last, *next);
        last = *next;
    }
    found
}

// Each time is below the one after it.
pub fn ascending(times: &[f64]) -> bool
    ensures { result ≡ Doubles.ascending times.now }
{
    falls(times) == 0
}

// Of the clip from `begin` to `end`: 1 where its last time is not below the first one behind it, else 0.
fn fall_behind(times: &[f64], begin: usize, end: usize) -> u64
    requires fact_1 { begin ≤ end }
    requires fact_2 { end ≤ length times.now }
    ensures { result ≡ cond (ltb begin end) (Parts.falls (take 2 (drop (end - 1) times.now))) 0 }
{
    if begin == end || end == times.len() {
        return 0;
    }
    fall(times[end - 1], times[end])
}

// The first or the last time of the clip from `begin` to `end` may not be stored.
fn unstorable_bound(times: &[f64], begin: usize, end: usize) -> bool
    requires fact_1 { begin ≤ end }
    requires fact_2 { end ≤ length times.now }
    ensures { result ≡ (ltb begin end && (not (storable (get_or times.now begin nan)) || not (storable (get_or times.now (end - 1) nan)))) }
{
    begin < end && (!gf::is_storable(times[begin]) || !gf::is_storable(times[end - 1]))
}

// The ends close the list, the times ascend within each clip, and all may be stored: as many times fall as do between two clips,
// and times that ascend lie between their first and their last. An end is a place of the list only once it is known to be inside.
pub fn sound(times: &[f64], ends: &[u64]) -> bool
    ensures { result ≡ (Samples.closes 0 ends.now (length times.now) && (Parts.parts_ascend times.now ends.now && not (any_unstorable times.now))) }
{
    let all = falls(times);
    let mut between: u64 = 0;
    let mut begin: usize = 0;
    for end in ends {
        let end = *end as usize;
        if end < begin || end > times.len() || unstorable_bound(times, begin, end) {
            return false;
        }
        between += fall_behind(times, begin, end);
        begin = end;
    }
    begin == times.len() && all == between
}
