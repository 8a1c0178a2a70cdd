// An interval of times.

ghost use Rattle.std.specs.Prelude.{◌≡◌, ◌&&◌};
ghost use Rattle.std.specs.Float.Ieee.{le, lt};

// From `min` up to `max`: the lower end is in, the upper end is out.
#[derive(Clone, Copy)]
pub struct Interval {
    pub min: f64,
    pub max: f64,
}

impl Interval {
    pub fn contains(self, x: f64) -> bool
        ensures { result ≡ (le self.min x && lt x self.max) }
    {
        self.min <= x && x < self.max
    }
}
