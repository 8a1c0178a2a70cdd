// A value and its mark, as a track writes them, and when two are alike.
ghost use Rattle.std.specs.Prelude.{◌≡◌};
ghost use Rattle.definitions.specs.Track as Track;
ghost use Rattle.cell.specs.step.Entries.{entry_is};

use definitions::Answer;

// A value and its mark.
#[repr(C)]
#[derive(Clone, Copy)]
pub struct Entry {
    pub value: f64,
    pub mark: u8,
}

// A number as a track writes it: zero as 0.0.
fn zero_as_plus(x: f64) -> f64
    ensures { result ≡ Track.zero_as_plus x }
{
    if x == 0.0 {
        return 0.0;
    }
    x
}

// An answer as a track writes it. The value of a block or of an absent answer is 0.0.
pub fn entry_of(a: Answer) -> Entry
    ensures { entry_is result ≡ Track.written_entry a }
{
    match a {
        Answer::Value(v) => Entry {
            value: zero_as_plus(v),
            mark: 0,
        },
        Answer::Blocked => Entry {
            value: 0.0,
            mark: 1,
        },
        Answer::Absent => Entry {
            value: 0.0,
            mark: 2,
        },
    }
}

// The marks are equal and, of values, the numbers.
pub fn alike(a: Entry, b: Entry) -> bool
    ensures { result ≡ Track.alike (entry_is a) (entry_is b) }
{
    a.mark == b.mark && (a.mark != 0 || a.value == b.value)
}
