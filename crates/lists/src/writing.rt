// Lists written over in their place.
ghost use Rattle.std.specs.Prelude.{◌≡◌, length, map};
ghost use Rattle.definitions.specs.Retime.{apply};

use definitions::LayerOffset;

// One list written over another as long. Not std's copy, which allows that the two overlap and so needs C's `memmove`.
pub fn copy<T: Copy>(from: &[T], to: &mut [T])
    requires { length to.old ≡ length from.now }
    ensures { to.new ≡ from.now }
{
    for (i, x) in from.iter().enumerate() {
        to[i] = *x;
    }
}

// Each time becomes offset + scale·time, two roundings: the Rust's `LayerOffset::apply`.
pub fn move_times(times: &mut [f64], o: LayerOffset)
    ensures { times.new ≡ map (apply o) times.old }
{
    for time in times.iter_mut() {
        *time = o.offset + o.scale * *time;
    }
}
