// Four slots, each with a prepared set or none. They belong to the text, and to no resolver.
ghost use Rattle.std.specs.Prelude.{◌<◌, IfSome};
ghost use Rattle.clip.specs.Preparing.{MadeSet};
ghost use Rattle.cases.specs.Prepared.{MadeSlots, NoneHeld, Puts, Gets};

use crate::text::{Read, ended, read_at_most};
use clip::ClipSet;

pub(crate) const COUNT: usize = 4;

#[derive(Clone, Copy)]
pub(crate) struct Slots {
    pub sets: [Option<ClipSet>; COUNT],
}

pub(crate) fn none() -> Slots
    ensures { NoneHeld result }
{
    Slots {
        sets: [None; COUNT],
    }
}

// The slot's set in place of what was there.
pub(crate) fn put(slots: Slots, slot: usize, set: ClipSet) -> Slots
    requires fact_1 { MadeSlots slots }
    requires fact_2 { slot < 4 }
    requires fact_3 { MadeSet set }
    ensures { Puts slots slot set result }
{
    let mut sets = slots.sets;
    sets[slot] = Some(set);
    Slots { sets }
}

pub(crate) fn get(slots: Slots, slot: usize) -> Option<ClipSet>
    requires fact_1 { MadeSlots slots }
    requires fact_2 { slot < 4 }
    ensures { Gets slots slot result }
{
    slots.sets[slot]
}

// The next word, a slot's number.
pub(crate) fn slot_at(line: &[u8], at: usize) -> Option<Read<usize>>
    ensures { IfSome result (λ n. n.value < 4) }
{
    read_at_most(line, at, COUNT - 1)
}

// The same, and the line ends behind it.
pub(crate) fn last_slot(line: &[u8], at: usize) -> Option<usize>
    ensures { IfSome result (λ n. n < 4) }
{
    let slot = slot_at(line, at)?;
    ended(line, slot.at)?;
    Some(slot.value)
}
