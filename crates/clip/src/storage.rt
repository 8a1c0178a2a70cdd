// A set's lists in arrays with counts, made of plain lists and taken apart again.
ghost use Rattle.std.specs.Prelude.{◌≡◌, [], ◌≤◌, length, map, Float};
ghost use Rattle.definitions.specs.Lists.{zip_with};
ghost use Rattle.definitions.specs.Explicit.{knot};
ghost use Rattle.definitions.specs.ClipSet.{max_active, max_knots, max_blocks, active_times, knot_times};
ghost use Rattle.laws.specs.set.Sound.{knot_values};
ghost use Rattle.laws.specs.cell.Lent.{start, active_of, knots_of};
ghost use Rattle.clip.specs.Holding.{Room, Holds, active_in, active_clips, knots_in, blocks_in};

use definitions::limits::{BLOCKS, KNOTS, STARTS};
use definitions::{Knot, Start};

// The three below are one struct but for their entry and their size: an exported function takes no
// struct with type or const parameters.
#[repr(C)]
#[derive(Clone, Copy)]
pub struct Active {
    pub items: [Start; STARTS],
    pub count: usize,
}

#[repr(C)]
#[derive(Clone, Copy)]
pub struct Knots {
    pub items: [Knot; KNOTS],
    pub count: usize,
}

#[repr(C)]
#[derive(Clone, Copy)]
pub struct Blocks {
    pub items: [f64; BLOCKS],
    pub count: usize,
}

// An entry of two parts, which are lent in two lists: the time and the clip of a start, the x and
// the y of a knot.
trait Entry: Copy {
    type Second: Copy;

    ghost joined: { Float → Self.Second → Self };

    ghost first_of: { Self → Float };

    ghost second_of: { Self → Self.Second };

    fn join(first: f64, second: Self::Second) -> Self
        ensures { result ≡ joined first second };

    fn first(self) -> f64
        ensures { result ≡ first_of self };

    fn second(self) -> Self::Second
        ensures { result ≡ second_of self };
}

impl Entry for Start {
    type Second = u64;

    ghost joined = { start };

    ghost first_of = { λ s. s.time };

    ghost second_of = { λ s. s.clip };

    fn join(time: f64, clip: u64) -> Start {
        Start { time, clip }
    }

    fn first(self) -> f64 {
        self.time
    }

    fn second(self) -> u64 {
        self.clip
    }
}

impl Entry for Knot {
    type Second = f64;

    ghost joined = { knot };

    ghost first_of = { λ k. k.x };

    ghost second_of = { λ k. k.y };

    fn join(x: f64, y: f64) -> Knot {
        Knot { x, y }
    }

    fn first(self) -> f64 {
        self.x
    }

    fn second(self) -> f64 {
        self.y
    }
}

// The entries of two lists, written over a third.
fn pack<T: Entry>(items: &mut [T], firsts: &[f64], seconds: &[T::Second])
    requires paired { length firsts.now ≡ length seconds.now }
    requires room { length items.old ≡ length firsts.now }
    ensures { items.new ≡ zip_with T.joined firsts.now seconds.now }
{
    for (i, first) in firsts.iter().enumerate() {
        items[i] = T::join(*first, seconds[i]);
    }
}

// The parts of the entries, written over two lists of their number.
fn unpack<T: Entry>(items: &[T], firsts: &mut [f64], seconds: &mut [T::Second])
    requires few { length firsts.old ≡ length items.now }
    requires paired { length seconds.old ≡ length items.now }
    ensures first { firsts.new ≡ map T.first_of items.now }
    ensures second { seconds.new ≡ map T.second_of items.now }
{
    for (i, entry) in items.iter().enumerate() {
        firsts[i] = entry.first();
        seconds[i] = entry.second();
    }
}

pub fn no_active() -> Active
    ensures { Holds max_active result.items result.count [] }
{
    let none = Start { time: 0.0, clip: 0 };
    Active {
        items: [none; STARTS],
        count: 0,
    }
}

pub fn no_knots() -> Knots
    ensures { Holds max_knots result.items result.count [] }
{
    let none = Knot { x: 0.0, y: 0.0 };
    Knots {
        items: [none; KNOTS],
        count: 0,
    }
}

pub fn no_blocks() -> Blocks
    ensures { Holds max_blocks result.items result.count [] }
{
    Blocks {
        items: [0.0; BLOCKS],
        count: 0,
    }
}

pub fn pack_active(times: &[f64], clips: &[u64]) -> Active
    requires fact_1 { length times.now ≡ length clips.now }
    requires fact_2 { length times.now ≤ max_active }
    ensures { Holds max_active result.items result.count (active_of times.now clips.now) }
{
    let mut items = no_active().items;
    let count = times.len();
    pack(&mut items[..count], times, clips);
    Active { items, count }
}

pub fn pack_knots(xs: &[f64], ys: &[f64]) -> Knots
    requires fact_1 { length xs.now ≡ length ys.now }
    requires fact_2 { length xs.now ≤ max_knots }
    ensures { Holds max_knots result.items result.count (knots_of xs.now ys.now) }
{
    let mut items = no_knots().items;
    let count = xs.len();
    pack(&mut items[..count], xs, ys);
    Knots { items, count }
}

pub fn pack_blocks(times: &[f64]) -> Blocks
    requires { length times.now ≤ max_blocks }
    ensures { Holds max_blocks result.items result.count times.now }
{
    let mut items = no_blocks().items;
    let count = times.len();
    items[..count].copy_from_slice(times);
    Blocks { items, count }
}

// The times and the clip numbers of the starts, written over lists of their number.
pub fn unpack_active(active: Active, times: &mut [f64], clips: &mut [u64])
    requires fact_1 { Room max_active active.items active.count }
    requires fact_2 { length times.old ≡ active.count }
    requires fact_3 { length clips.old ≡ active.count }
    ensures times_value { times.new ≡ active_times (active_in active) }
    ensures clips_value { clips.new ≡ active_clips (active_in active) }
{
    unpack(&active.items[..active.count], times, clips);
}

pub fn unpack_knots(knots: Knots, xs: &mut [f64], ys: &mut [f64])
    requires fact_1 { Room max_knots knots.items knots.count }
    requires fact_2 { length xs.old ≡ knots.count }
    requires fact_3 { length ys.old ≡ knots.count }
    ensures xs_value { xs.new ≡ knot_times (knots_in knots) }
    ensures ys_value { ys.new ≡ knot_values (knots_in knots) }
{
    unpack(&knots.items[..knots.count], xs, ys);
}

pub fn unpack_blocks(blocks: Blocks, times: &mut [f64])
    requires fact_1 { Room max_blocks blocks.items blocks.count }
    requires fact_2 { length times.old ≡ blocks.count }
    ensures { times.new ≡ blocks_in blocks }
{
    times.copy_from_slice(&blocks.items[..blocks.count]);
}
