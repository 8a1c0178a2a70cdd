// A window of a set, and the neighbours of a time among its times.

#![tactic(auto)]

pub mod crossing;
pub mod nearest;
pub mod search;

ghost use Rattle.std.specs.Prelude.{◌≡◌, ◌<◌, length};
ghost use Rattle.window.specs.Windows.{min_of, max_of};

// The neighbours of a time, as far as there are any.
#[derive(Clone, Copy)]
pub struct Neighbours {
    pub lower: Option<f64>,
    pub upper: Option<f64>,
}

// The first window reaches down without end.
pub fn window_min(starts: &[f64], p: usize) -> f64
    requires { p < length starts.now }
    ensures { result ≡ min_of starts.now p }
{
    if p == 0 {
        return f64::NEG_INFINITY;
    }
    starts[p]
}

// The last one reaches up without end.
pub fn window_max(starts: &[f64], p: usize) -> f64
    requires { p < length starts.now }
    ensures { result ≡ max_of starts.now p }
{
    if p + 1 < starts.len() {
        return starts[p + 1];
    }
    f64::INFINITY
}
