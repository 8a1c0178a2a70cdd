// The marks of the stage samples: bytes, as C gets them.

ghost use Rattle.std.specs.Prelude.{◌≡◌, [], ◌≤◌, length};
ghost use Rattle.definitions.specs.Lists.{written_over};
ghost use Rattle.definitions.specs.StageSamples.{supplied_at};
ghost use Rattle.definitions.specs.Track.{mark_of};
ghost use Rattle.laws.specs.cell.Lent.{AcceptedLists, samples_of};
ghost use Rattle.stage.specs.Marks.{gap_mark_of, unblocked, marks_at};

use definitions::{Answer, Missing, StageTime};
use value::direct::read_clip;

// The mark that stands where the active clip has no samples: that of the manifest default if it is a value, else a block.
fn gap_mark(m: Missing) -> u8
    ensures { result ≡ gap_mark_of m.default.mark }
{
    u8::from(m.default.mark != 0)
}

// The mark of what a sample says.
fn sample_mark(a: Answer) -> u8
    ensures { result ≡ mark_of a }
{
    match a {
        Answer::Value(_) => 0,
        Answer::Blocked => 1,
        Answer::Absent => 2,
    }
}

// The mark of the active clip's reading at the stage time `t`: the Rust's `supplied_at`.
fn supplied_at(
    starts: &[f64],
    clips: &[u64],
    xs: &[f64],
    ys: &[f64],
    m: Missing,
    times: &[f64],
    values: &[f64],
    marks: &[u8],
    ends: &[u64],
    t: StageTime,
) -> u8
    requires { AcceptedLists starts.now clips.now xs.now ys.now [] m times.now values.now marks.now ends.now }
    ensures { result ≡ supplied_at (unblocked starts.now clips.now xs.now ys.now m ends.now) (samples_of times.now values.now marks.now ends.now) t }
{
    if starts.len() == 0 {
        return gap_mark(m);
    }
    let p = lists::last_at_most(starts, t.0);
    let own = read_clip(xs, ys, times, values, marks, ends, clips[p], t);
    match own {
        Some((_, answer)) => sample_mark(answer),
        None => gap_mark(m),
    }
}

// The mark of each of the times goes to the front of `out`, which has room for them.
pub fn write_marks(
    starts: &[f64],
    clips: &[u64],
    xs: &[f64],
    ys: &[f64],
    m: Missing,
    times: &[f64],
    values: &[f64],
    marks: &[u8],
    ends: &[u64],
    at: &[f64],
    out: &mut [u8],
)
    requires fact_1 { AcceptedLists starts.now clips.now xs.now ys.now [] m times.now values.now marks.now ends.now }
    requires fact_2 { length at.now ≤ length out.old }
    ensures { out.new ≡ written_over (marks_at (unblocked starts.now clips.now xs.now ys.now m ends.now) (samples_of times.now values.now marks.now ends.now) at.now) out.old }
{
    for (i, t) in at.iter().enumerate() {
        out[i] = supplied_at(
            starts,
            clips,
            xs,
            ys,
            m,
            times,
            values,
            marks,
            ends,
            StageTime(*t),
        );
    }
}
