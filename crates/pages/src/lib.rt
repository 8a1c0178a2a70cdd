// The sets of a dispatcher: up to sixteen named clip sets in lists that the caller lends, a page of each for a set, which are those of a resolver that is lent.

#![tactic(auto)]

pub mod layout;
pub mod placing;
pub mod storing;

ghost use Rattle.pages.specs.Pages.{pages};
ghost use Rattle.pages.specs.Placing.{Begins};

// No set. False, and nothing is written, where a list has another size than the pages.
pub fn fresh(
    starts: &mut [f64],
    numbers: &mut [u64],
    xs: &mut [f64],
    ys: &mut [f64],
    blocks: &mut [f64],
    defaults: &mut [f64],
    counts: &mut [u64],
    bytes: &mut [u8],
) -> bool
    ensures { Begins (pages starts.old numbers.old xs.old ys.old blocks.old defaults.old counts.old bytes.old) result (pages starts.new numbers.new xs.new ys.new blocks.new defaults.new counts.new bytes.new) }
{
    if !storing::sized(starts, numbers, xs, ys, blocks, defaults, counts, bytes) {
        return false;
    }
    counts[0] = 0;
    true
}
