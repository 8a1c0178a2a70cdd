// A walk over keys that writes changes while there are slots: one change that is offered, and where the walk stands.
ghost use Rattle.std.specs.Prelude.{◌≤◌};
ghost use Rattle.gf.specs.Doubles as Key;
ghost use Rattle.definitions.specs.Moments.{outputs};
ghost use Rattle.cell.specs.step.Entries.{entry_is};
ghost use Rattle.run.specs.Walks.{Room, Offered};

use cell::step::entry::{Entry, alike};

// The key that is reached, the entry there, the slot behind the changes up to there, and whether the keys were all passed; else
// the slots are full, and there is a further change. An Option would be no plainer: the other three are the same in both cases.
#[derive(Clone, Copy)]
pub struct Went {
    pub key: u64,
    pub last: Entry,
    pub count: usize,
    pub done: bool,
}

// Writes the change at the key k to slot n, if `here` is not alike to the entry before and the slot is below `room`. Gives the
// slot behind the change, which is above `room` where it was not written for want of room.
pub fn offer(
    here: Entry,
    last: Entry,
    k: u64,
    room: usize,
    n: usize,
    outtimes: &mut [f64],
    outvalues: &mut [f64],
    outmarks: &mut [u8],
) -> usize
    requires le_k { (Key.least ≤ k) × (k ≤ Key.most) }
    requires room { Room room n (outputs outtimes.old outvalues.old outmarks.old) }
    ensures { Offered (entry_is last) (entry_is here) k room n (outputs outtimes.old outvalues.old outmarks.old) (outputs outtimes.new outvalues.new outmarks.new) result }
{
    if alike(here, last) {
        return n;
    }
    if room <= n {
        return n + 1;
    }
    outtimes[n] = gf::of_key(k);
    outvalues[n] = here.value;
    outmarks[n] = here.mark;
    n + 1
}
