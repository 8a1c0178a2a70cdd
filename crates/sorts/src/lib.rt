// The two sorts of `lists` for the benchmark, which holds them alone against the Rust's: inside the library no call is only a sort.

#![tactic(auto)]

ghost use Rattle.std.specs.Prelude.{◌≡◌, cond, length};
ghost use Rattle.definitions.specs.ClipSet.{active_times, knot_times, sort_active, sort_knots};
ghost use Rattle.laws.specs.set.Sound.{knot_values};
ghost use Rattle.laws.specs.cell.Lent.{active_of, knots_of};
ghost use Rattle.sorts.specs.Sortable.{sortable, active_clips};

use definitions::limits::KNOTS;
use lists::sorting;

// C may lend lists of any lengths, and the sorts take only these.
fn sortable(n: usize, m: usize) -> bool
    ensures { result ≡ sortable n m }
{
    n == m && n <= KNOTS
}

#[unsafe(no_mangle)]
pub extern "C" fn tavitrozy_sorts_starts(times: &mut [f64], clips: &mut [u64]) -> bool
    ensures value { result ≡ sortable (length times.old) (length clips.old) }
    ensures times_value { times.new ≡ cond result (active_times (sort_active (active_of times.old clips.old))) times.old }
    ensures clips_value { clips.new ≡ cond result (active_clips (sort_active (active_of times.old clips.old))) clips.old }
{
    if sortable(times.len(), clips.len()) {
        sorting::sort_starts(times, clips);
        return true;
    }
    false
}

#[unsafe(no_mangle)]
pub extern "C" fn tavitrozy_sorts_knots(xs: &mut [f64], ys: &mut [f64]) -> bool
    ensures value { result ≡ sortable (length xs.old) (length ys.old) }
    ensures xs_value { xs.new ≡ cond result (knot_times (sort_knots (knots_of xs.old ys.old))) xs.old }
    ensures ys_value { ys.new ≡ cond result (knot_values (sort_knots (knots_of xs.old ys.old))) ys.old }
{
    if sortable(xs.len(), ys.len()) {
        sorting::sort_knots(xs, ys);
        return true;
    }
    false
}
