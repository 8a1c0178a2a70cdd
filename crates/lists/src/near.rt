// The search in an ascending list, begun at a place where the answer may be.
ghost use Rattle.std.specs.Prelude.{◌≡◌, true, ◌<◌, leb, ltb, eqb, length};
ghost use Rattle.definitions.specs.Timing.{last_at_most};
ghost use Rattle.laws.specs.list.Places.{Ascending};

use super::last_at_most;

// Whether the last of the times that is at most `t` is at this place or behind it.
fn is_reached(times: &[f64], place: usize, t: f64) -> bool
    requires fact_1 { Ascending times.now }
    requires fact_2 { place < length times.now }
    ensures { result ≡ leb place (last_at_most times.now t) }
{
    place == 0 || times[place] <= t
}

// Whether it is behind this place.
fn is_passed(times: &[f64], place: usize, t: f64) -> bool
    requires fact_1 { Ascending times.now }
    requires fact_2 { place < length times.now }
    ensures { result ≡ ltb place (last_at_most times.now t) }
{
    let next = place + 1;
    next < times.len() && times[next] <= t
}

// Whether this is the place of the last of the times that is at most `t`, and 0 if none is.
pub fn is_place(times: &[f64], place: usize, t: f64) -> bool
    requires fact_1 { Ascending times.now }
    requires fact_2 { place < length times.now }
    ensures { result ≡ eqb (last_at_most times.now t) place }
{
    !is_passed(times, place, t) && is_reached(times, place, t)
}

// A hint may be any number: one beyond the list is never the place.
fn is_near(times: &[f64], place: usize, t: f64) -> bool
    requires { Ascending times.now }
    ensures { (result ≡ true) → last_at_most times.now t ≡ place }
{
    place < times.len() && is_place(times, place, t)
}

// As `last_at_most`, wherever the search begins: at the hint, then behind it and before it.
pub fn last_at_most_near(times: &[f64], t: f64, hint: usize) -> usize
    requires { Ascending times.now }
    ensures { result ≡ last_at_most times.now t }
{
    if is_near(times, hint, t) {
        return hint;
    }
    if hint < times.len() {
        let next = hint + 1;
        if is_near(times, next, t) {
            return next;
        }
        if 0 < hint {
            let before = hint - 1;
            if is_near(times, before, t) {
                return before;
            }
        }
    }
    last_at_most(times, t)
}
