// The set that stands, in plain arrays: made of a prepared set once, when it is installed, and lent as it is to every question.

#![tactic(auto)]

pub mod questions;

ghost use Rattle.clip.specs.Holding.{ArraysWhole};
ghost use Rattle.standing.specs.Standing.{Arrays, Lengths, lent_set, Installed, Unpacked, Packed};

use clip::{ClipSet, storage, storing};
use definitions::Missing;
use definitions::limits::{BLOCKS, KNOTS, STARTS};

// How many entries of each array count.
#[repr(C)]
#[derive(Clone, Copy)]
pub struct Counts {
    pub starts: usize,
    pub knots: usize,
    pub blocks: usize,
}

// `numbers` has the clip number of each start; `clips` is the clip count.
#[repr(C)]
#[derive(Clone, Copy)]
pub struct StandingSet {
    pub clips: u64,
    pub counts: Counts,
    pub starts: [f64; STARTS],
    pub numbers: [u64; STARTS],
    pub xs: [f64; KNOTS],
    pub ys: [f64; KNOTS],
    pub blocks: [f64; BLOCKS],
    pub manifest: Missing,
}

// The arrays of a prepared set. Built into its callers: of the empty set, a fresh resolver's, little is left to do.
#[inline(always)]
pub fn installed(set: ClipSet) -> StandingSet
    requires { ArraysWhole set }
    ensures { Installed set result }
{
    let mut starts = [0.0; STARTS];
    let mut numbers = [0u64; STARTS];
    let mut xs = [0.0; KNOTS];
    let mut ys = [0.0; KNOTS];
    let mut blocks = [0.0; BLOCKS];
    let counts = unpacked(
        set,
        &mut starts,
        &mut numbers,
        &mut xs,
        &mut ys,
        &mut blocks,
    );
    StandingSet {
        clips: set.clips,
        counts,
        starts,
        numbers,
        xs,
        ys,
        blocks,
        manifest: set.manifest(),
    }
}

// A prepared set written to lent arrays: how many entries of each count.
pub fn unpacked(
    set: ClipSet,
    starts: &mut [f64],
    numbers: &mut [u64],
    xs: &mut [f64],
    ys: &mut [f64],
    blocks: &mut [f64],
) -> Counts
    requires fact_1 { ArraysWhole set }
    requires fact_2 { Lengths starts.old numbers.old xs.old ys.old blocks.old }
    ensures { Unpacked set result starts.new numbers.new xs.new ys.new blocks.new }
{
    let n = set.active.count;
    let k = set.knots.count;
    let b = set.blocks.count;
    storage::unpack_active(set.active, &mut starts[..n], &mut numbers[..n]);
    storage::unpack_knots(set.knots, &mut xs[..k], &mut ys[..k]);
    storage::unpack_blocks(set.blocks, &mut blocks[..b]);
    Counts {
        starts: n,
        knots: k,
        blocks: b,
    }
}

// The prepared set of the entries that count, for a retiming.
pub fn packed<'a>(
    clips: u64,
    starts: &'a [f64],
    numbers: &'a [u64],
    xs: &'a [f64],
    ys: &'a [f64],
    blocks: &'a [f64],
    counts: Counts,
    m: Missing,
) -> ClipSet
    requires { Arrays counts starts.now numbers.now xs.now ys.now blocks.now }
    ensures { Packed (lent_set clips counts starts.now numbers.now xs.now ys.now blocks.now m) result }
{
    let n = counts.starts;
    let k = counts.knots;
    let b = counts.blocks;
    storing::store(
        clips,
        &starts[..n],
        &numbers[..n],
        &xs[..k],
        &ys[..k],
        &blocks[..b],
        m,
    )
}
