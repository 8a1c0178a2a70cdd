// The held reading of a track that is lent as a head and three lists.
ghost use Rattle.std.specs.Prelude.{◌≡◌};
ghost use Rattle.definitions.specs.Reading.{track_of_lists, read_by_halves};
ghost use Rattle.cell.specs.step.Entries.{entry_is};

use crate::fill::shortest;
use cell::step::entry::Entry;
use lists::partition_point;

// What a track gives at t, by halves: where its times ascend, the last change with time at most t, else the head. Of lists of unlike
// length the front of each is read, as long as the shortest.
pub fn read_held(mark: u8, value: f64, times: &[f64], values: &[f64], marks: &[u8], t: f64) -> Entry
    ensures { entry_is result ≡ read_by_halves (track_of_lists value mark times.now values.now marks.now) t }
{
    let n = shortest(times.len(), values.len(), marks.len());
    let found = partition_point(&times[..n], t);
    if found == 0 {
        return Entry { value, mark };
    }
    let last = found - 1;
    Entry {
        value: values[last],
        mark: marks[last],
    }
}
