// A jump: two neighbouring knots that share an x.

ghost use Rattle.std.specs.Prelude.{◌≡◌};
ghost use Rattle.laws.specs.list.Places.{Ascending};
ghost use Rattle.value.specs.Jumps.{jump_in};

// Whether some neighbouring knots share an x above `lower` and at most `upper`: looked for from the last knot that is at most `upper` down, near the place
// `knot`. The knot at `upper` counts, though a window ends before it.
pub fn is_jump(xs: &[f64], lower: f64, upper: f64, knot: usize) -> bool
    requires { Ascending xs.now }
    ensures { result ≡ jump_in xs.now lower upper }
{
    let last = lists::near::last_at_most_near(xs, upper, knot);
    for i in (0..last).rev() {
        let x = xs[i + 1];
        if !(lower < x) {
            return false;
        }
        if xs[i] == x {
            return true;
        }
    }
    false
}
