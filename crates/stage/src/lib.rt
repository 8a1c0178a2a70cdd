// Stage sample times and stage samples. They heed neither the missing flag nor the manifest blocks.

#![tactic(auto)]

pub mod mark;
pub mod next;
pub mod walk;
pub mod zero;

ghost use Rattle.std.specs.Prelude.{◌≡◌, [], length};
ghost use Rattle.definitions.specs.StageSamples.{stage_samples};
ghost use Rattle.laws.specs.cell.Lent.{AcceptedLists, samples_of};
ghost use Rattle.stage.specs.Promises.{TimesWritten, SamplesWritten};
ghost use Rattle.stage.specs.Times.{times_of, AcceptedTimes};
ghost use Rattle.stage.specs.Marks.{unblocked};

use definitions::Missing;
use mark::write_marks;
use walk::{count_within, write_times};
use window::search::latest::latest_inverses;

// Room for every time: there are fewer doubles than that.
const ANY_COUNT: usize = 0xffff_ffff_ffff_ffff;

// The stage sample times, ascending, of equal times -0.0 before 0.0: how many were written. `None`: the lent list is too short for
// them, and nothing was.
pub fn stage_sample_times(
    starts: &[f64],
    clips: &[u64],
    xs: &[f64],
    ys: &[f64],
    times: &[f64],
    ends: &[u64],
    out: &mut [f64],
) -> Option<usize>
    requires { AcceptedTimes starts.now clips.now xs.now ys.now times.now ends.now }
    ensures { TimesWritten (times_of starts.now clips.now xs.now ys.now times.now ends.now) out.old out.new result }
{
    let reach = latest_inverses(xs, ys);
    let room = out.len();
    let counted = count_within(starts, clips, xs, ys, times, ends, &reach.items, room);
    if counted <= room {
        let count = write_times(starts, clips, xs, ys, times, ends, &reach.items, out);
        return Some(count);
    }
    None
}

// How many stage sample times there are: the slots that a list of them asks for.
pub fn stage_sample_count(
    starts: &[f64],
    clips: &[u64],
    xs: &[f64],
    ys: &[f64],
    times: &[f64],
    ends: &[u64],
) -> usize
    requires { AcceptedTimes starts.now clips.now xs.now ys.now times.now ends.now }
    ensures { result ≡ length (times_of starts.now clips.now xs.now ys.now times.now ends.now) }
{
    let reach = latest_inverses(xs, ys);
    count_within(starts, clips, xs, ys, times, ends, &reach.items, ANY_COUNT)
}

// The stage samples: their times, and as many marks, 0 for a value and 1 for a block. How many were written; `None` as above.
pub fn stage_samples(
    starts: &[f64],
    clips: &[u64],
    xs: &[f64],
    ys: &[f64],
    m: Missing,
    times: &[f64],
    values: &[f64],
    marks: &[u8],
    ends: &[u64],
    outtimes: &mut [f64],
    outmarks: &mut [u8],
) -> Option<usize>
    requires { AcceptedLists starts.now clips.now xs.now ys.now [] m times.now values.now marks.now ends.now }
    ensures { SamplesWritten (stage_samples (unblocked starts.now clips.now xs.now ys.now m ends.now) (samples_of times.now values.now marks.now ends.now)) outtimes.old outtimes.new outmarks.old outmarks.new result }
{
    let reach = latest_inverses(xs, ys);
    let room = outtimes.len().min(outmarks.len());
    let counted = count_within(starts, clips, xs, ys, times, ends, &reach.items, room);
    if counted <= room {
        let count = write_times(starts, clips, xs, ys, times, ends, &reach.items, outtimes);
        write_marks(
            starts,
            clips,
            xs,
            ys,
            m,
            times,
            values,
            marks,
            ends,
            &outtimes[..count],
            outmarks,
        );
        return Some(count);
    }
    None
}
