// The replies of a dispatcher as structs of numbers. The place is that of the set that answers, in the order in force, unless `placed` is false.
ghost use Rattle.std.specs.Prelude.{◌≡◌};
ghost use Rattle.codes.specs.PlacedCodes.{placed_code, placed_bake_code};

use crate::{BakedCode, ValueCode};
use definitions::ValueRead;
use definitions::refusal::Refusal;
use set_questions::Placed;
use track::bake::Baked;

#[repr(C)]
#[derive(Clone, Copy)]
pub struct PlacedCode {
    pub reply: ValueCode,
    pub placed: bool,
    pub set: u64,
}

#[repr(C)]
#[derive(Clone, Copy)]
pub struct PlacedBakeCode {
    pub baked: BakedCode,
    pub placed: bool,
    pub set: u64,
}

impl From<Result<Placed<ValueRead>, Refusal>> for PlacedCode {
    ghost from_gives = { λ r c. c ≡ placed_code r };

    fn from(r: Result<Placed<ValueRead>, Refusal>) -> PlacedCode {
        match r {
            Ok(x) => PlacedCode {
                reply: ValueCode::from(Ok(x.answer)),
                placed: x.place.is_some(),
                set: x.place.unwrap_or(0),
            },
            Err(e) => PlacedCode {
                reply: ValueCode::from(Err(e)),
                placed: false,
                set: 0,
            },
        }
    }
}

impl From<Result<Placed<Baked>, Refusal>> for PlacedBakeCode {
    ghost from_gives = { λ r c. c ≡ placed_bake_code r };

    fn from(r: Result<Placed<Baked>, Refusal>) -> PlacedBakeCode {
        match r {
            Ok(b) => PlacedBakeCode {
                baked: BakedCode::from(Ok(b.answer)),
                placed: b.place.is_some(),
                set: b.place.unwrap_or(0),
            },
            Err(e) => PlacedBakeCode {
                baked: BakedCode::from(Err(e)),
                placed: false,
                set: 0,
            },
        }
    }
}
