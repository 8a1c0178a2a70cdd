// A prepared clip set by value: how it is stored, the checks that every set passes, and its retiming.

#![tactic(auto)]

mod retiming;
pub mod storage;
pub mod storing;

ghost use Rattle.std.specs.Prelude.{◌≡◌};
ghost use Rattle.clip.specs.Holding.{EmptySet, manifest_of};
ghost use Rattle.clip.specs.Preparing.{MadeSet};
ghost use Rattle.clip.specs.Retiming.{Retimes};

use definitions::limits::{BLOCKS, KNOTS, STARTS};
use definitions::refusal::Refusal;
use definitions::{Default, LayerOffset, Missing};
use storage::{Active, Blocks, Knots};

#[repr(C)]
#[derive(Clone, Copy)]
pub struct ClipSet {
    pub clips: u64,
    pub active: Active,
    pub knots: Knots,
    pub blocks: Blocks,
    pub default: Default,
    pub interpolate: bool,
}

// A set without clips, and with no manifest default.
pub fn empty() -> ClipSet
    ensures { EmptySet result }
{
    let active = storage::no_active();
    let knots = storage::no_knots();
    let blocks = storage::no_blocks();
    let default = Default {
        mark: 2,
        value: 0.0,
    };
    ClipSet {
        clips: 0,
        active,
        knots,
        blocks,
        default,
        interpolate: false,
    }
}

impl ClipSet {
    // What stands in for a missing sample of the set.
    pub fn manifest(&self) -> Missing
        ensures { result ≡ manifest_of self.now }
    {
        Missing {
            default: self.default,
            interpolate: self.interpolate,
        }
    }

    // The set with its stage times moved, unless 2, 4 or 5 refuses that; the caller still has the one that went in.
    pub fn retime_stage_times(self, o: LayerOffset) -> Result<ClipSet, Refusal>
        requires { MadeSet self }
        ensures { Retimes self o result }
    {
        if !retiming::is_finite(o) {
            return Err(Refusal::Unstorable);
        }
        if retiming::is_identity(o) {
            return Ok(self);
        }
        let n = self.active.count;
        let m = self.knots.count;
        let b = self.blocks.count;
        let mut times = [0.0; STARTS];
        let mut numbers = [0u64; STARTS];
        let mut xs = [0.0; KNOTS];
        let mut ys = [0.0; KNOTS];
        let mut blocks = [0.0; BLOCKS];
        retiming::retime_lists(
            self,
            o,
            &mut times[..n],
            &mut numbers[..n],
            &mut xs[..m],
            &mut ys[..m],
            &mut blocks[..b],
        )
    }
}
