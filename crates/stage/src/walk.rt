// The stage sample times one after the other, counted or written.

ghost use Rattle.std.specs.Prelude.{◌≡◌, ◌+◌, ◌≤◌, min, length};
ghost use Rattle.window.specs.search.Latest.{LatestOf};
ghost use Rattle.stage.specs.Times.{times_of, AcceptedTimes};
ghost use Rattle.stage.specs.Promises.{AllWritten};

use super::next::next_time;

// No stage sample time is below -2^40.
const BEFORE_ALL: f64 = -2199023255552.0;

// The number of stage sample times, or one beyond the room if there are more.
pub fn count_within(
    starts: &[f64],
    clips: &[u64],
    xs: &[f64],
    ys: &[f64],
    times: &[f64],
    ends: &[u64],
    latest: &[f64],
    room: usize,
) -> usize
    requires fact_1 { AcceptedTimes starts.now clips.now xs.now ys.now times.now ends.now }
    requires fact_2 { LatestOf xs.now ys.now latest.now }
    ensures { result ≡ min (length (times_of starts.now clips.now xs.now ys.now times.now ends.now)) (room + 1) }
{
    let mut t = BEFORE_ALL;
    let mut count: usize = 0;
    let mut place: usize = 0;
    let mut knot: usize = 0;
    let mut sample: usize = 0;
    loop {
        let next = next_time(
            starts, clips, xs, ys, times, ends, latest, t, place, knot, sample,
        );
        let Some(h) = next.time else {
            return count;
        };
        count += 1;
        if room < count {
            return count;
        }
        t = h;
        place = next.place;
        knot = next.knot;
        sample = next.sample;
    }
}

// The stage sample times go to the front of `out`, which has room for them.
pub fn write_times(
    starts: &[f64],
    clips: &[u64],
    xs: &[f64],
    ys: &[f64],
    times: &[f64],
    ends: &[u64],
    latest: &[f64],
    out: &mut [f64],
) -> usize
    requires accepted_times_1 { AcceptedTimes starts.now clips.now xs.now ys.now times.now ends.now }
    requires accepted_times_2 { LatestOf xs.now ys.now latest.now }
    requires ends_in_bounds { length (times_of starts.now clips.now xs.now ys.now times.now ends.now) ≤ length out.old }
    ensures { AllWritten (times_of starts.now clips.now xs.now ys.now times.now ends.now) out.old out.new result }
{
    let mut t = BEFORE_ALL;
    let mut count: usize = 0;
    let mut place: usize = 0;
    let mut knot: usize = 0;
    let mut sample: usize = 0;
    loop {
        let next = next_time(
            starts, clips, xs, ys, times, ends, latest, t, place, knot, sample,
        );
        let Some(h) = next.time else {
            return count;
        };
        out[count] = h;
        count += 1;
        t = h;
        place = next.place;
        knot = next.knot;
        sample = next.sample;
    }
}
