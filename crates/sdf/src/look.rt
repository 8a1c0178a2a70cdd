// A clip's samples, seen through a look over the lent lists by the clip's two ends.
ghost use Rattle.std.specs.Prelude.{◌≡◌, ◌+◌};
ghost use Rattle.sdf.specs.look.Reads.{Inside, Readable, marked_at, held_reading};

use definitions::{Answer, ClipTime};

// Each list has a lifetime of its own, as its lender has.
#[derive(Clone, Copy)]
pub struct Look<'t, 'v, 'm> {
    pub times: &'t [f64],
    pub values: &'v [f64],
    pub marks: &'m [u8],
    pub begin: usize,
    pub end: usize,
}

impl<'t, 'v, 'm> Look<'t, 'v, 'm> {
    // The held reading at the clip time `t`: the place of its sample, counted from the clip's first, and what the sample says; none in a
    // clip without samples.
    pub fn read(self, t: ClipTime) -> Option<(usize, Answer)>
        requires { Readable self.times.now self.values.now self.marks.now self.begin self.end }
        ensures { result ≡ held_reading self.entry.times.now self.entry.values.now self.entry.marks.now self.entry.begin self.entry.end t }
    {
        if self.begin == self.end {
            return None;
        }
        let place = lists::last_at_most(&self.times[self.begin..self.end], t.0);
        Some((place, self.answer(place)))
    }

    // What the sample at a place of the clip says. A block read is a reading.
    pub fn answer(self, place: usize) -> Answer
        requires { Inside self.values.now self.marks.now (self.begin + place) }
        ensures { result ≡ marked_at self.entry.values.now self.entry.marks.now (self.entry.begin + place) }
    {
        let at = self.begin + place;
        if self.marks[at] == 0 {
            return Answer::Value(self.values[at]);
        }
        Answer::Blocked
    }
}
