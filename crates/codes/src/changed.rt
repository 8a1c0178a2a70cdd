// What C gets of a call that prepares a set or may change what stands: the number that refuses it, or 0, and what there is after it.
ghost use Rattle.std.specs.Prelude.{◌≡◌};
ghost use Rattle.definitions.specs.Refusals.{number_in};
ghost use Rattle.codes.specs.Changed.{IsPrepared, settled_code};

use clip::ClipSet;
use definitions::refusal::Refusal;
use resolver::Shape;

// Beside a number stands the empty set.
#[repr(C)]
#[derive(Clone, Copy)]
pub struct Prepared {
    pub number: u8,
    pub set: ClipSet,
}

// Beside a number stands the shape that went in.
#[repr(C)]
#[derive(Clone, Copy)]
pub struct Settled {
    pub number: u8,
    pub shape: Shape,
}

impl From<Result<ClipSet, Refusal>> for Prepared {
    ghost from_gives = { IsPrepared };

    fn from(r: Result<ClipSet, Refusal>) -> Prepared {
        match &r {
            Ok(set) => Prepared {
                number: 0,
                set: part_by_part(set),
            },
            Err(e) => Prepared {
                number: u8::from(*e),
                set: clip::empty(),
            },
        }
    }
}

// The same set. It is copied part by part: LLVM copies a whole one that stands behind a number at odd addresses, and twice.
fn part_by_part(set: &ClipSet) -> ClipSet
    ensures { result ≡ set.now }
{
    ClipSet {
        clips: set.clips,
        active: set.active,
        knots: set.knots,
        blocks: set.blocks,
        default: set.default,
        interpolate: set.interpolate,
    }
}

pub fn settle(before: Shape, r: Result<Shape, Refusal>) -> Settled
    ensures { result ≡ settled_code before r }
{
    match r {
        Ok(shape) => Settled { number: 0, shape },
        Err(e) => {
            let number = u8::from(e);
            Settled {
                number,
                shape: before,
            }
        }
    }
}

// Of a call that replies nothing but whether it is refused.
pub fn number(r: Result<(), Refusal>) -> u8
    ensures { result ≡ number_in r }
{
    match r {
        Ok(()) => 0,
        Err(e) => u8::from(e),
    }
}
