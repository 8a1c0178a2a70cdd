// What a reply is to callers in other languages: each Result as a struct of numbers, in which a refusal has its number and 0 or false in every other field. Those of
// `changed` say what stands beside it instead.

#![tactic(auto)]

pub mod changed;
pub mod placed;

ghost use Rattle.std.specs.Prelude.{◌≡◌};
ghost use Rattle.codes.specs.Codes.{clip_code, time_code, sample_code, answer_code, value_code, state_code, untimed_code, count_code, bake_code};

use definitions::refusal::Refusal;
use definitions::{Answer, ClipTime, ValueRead, ValueState};
use track::bake::Baked;

// A clip is active, unless `found` is false.
#[repr(C)]
#[derive(Clone, Copy)]
pub struct ClipCode {
    pub number: u8,
    pub found: bool,
    pub clip: u64,
}

#[repr(C)]
#[derive(Clone, Copy)]
pub struct TimeCode {
    pub number: u8,
    pub time: ClipTime,
}

// Mark 0: the value; 1: blocked; 2: absent. It was read from a sample, the one at a place of a clip, unless `sampled` is false.
#[repr(C)]
#[derive(Clone, Copy)]
pub struct ValueCode {
    pub number: u8,
    pub mark: u8,
    pub sampled: bool,
    pub value: f64,
    pub clip: u64,
    pub place: u64,
}

// State 0: present; 1: blocked; 2: absent.
#[repr(C)]
#[derive(Clone, Copy)]
pub struct UntimedCode {
    pub number: u8,
    pub state: u8,
}

// How many there are, or were written: a name's bytes, times, samples, changes.
#[repr(C)]
#[derive(Clone, Copy)]
pub struct Counted {
    pub number: u8,
    pub count: usize,
}

// The head of a track, and the number of its changes.
#[repr(C)]
#[derive(Clone, Copy)]
pub struct BakedCode {
    pub number: u8,
    pub mark: u8,
    pub value: f64,
    pub count: usize,
}

impl From<Result<Option<u64>, Refusal>> for ClipCode {
    ghost from_gives = { λ r c. c ≡ clip_code r };

    fn from(r: Result<Option<u64>, Refusal>) -> ClipCode {
        match r {
            Ok(Some(clip)) => ClipCode {
                number: 0,
                found: true,
                clip,
            },
            Ok(None) => ClipCode {
                number: 0,
                found: false,
                clip: 0,
            },
            Err(e) => ClipCode {
                number: u8::from(e),
                found: false,
                clip: 0,
            },
        }
    }
}

impl From<Result<ClipTime, Refusal>> for TimeCode {
    ghost from_gives = { λ r c. c ≡ time_code r };

    fn from(r: Result<ClipTime, Refusal>) -> TimeCode {
        match r {
            Ok(time) => TimeCode { number: 0, time },
            Err(e) => TimeCode {
                number: u8::from(e),
                time: ClipTime(0.0),
            },
        }
    }
}

pub fn sample_code(mark: u8, value: f64, sample: Option<(u64, u64)>) -> ValueCode
    ensures { result ≡ sample_code mark value sample }
{
    match sample {
        Some((clip, place)) => ValueCode {
            number: 0,
            mark,
            sampled: true,
            value,
            clip,
            place,
        },
        None => ValueCode {
            number: 0,
            mark,
            sampled: false,
            value,
            clip: 0,
            place: 0,
        },
    }
}

pub fn answer_code(answer: Answer, sample: Option<(u64, u64)>) -> ValueCode
    ensures { result ≡ answer_code answer sample }
{
    match answer {
        Answer::Value(v) => sample_code(0, v, sample),
        Answer::Blocked => sample_code(1, 0.0, sample),
        Answer::Absent => sample_code(2, 0.0, sample),
    }
}

impl From<Result<ValueRead, Refusal>> for ValueCode {
    ghost from_gives = { λ r c. c ≡ value_code r };

    fn from(r: Result<ValueRead, Refusal>) -> ValueCode {
        match r {
            Ok(read) => answer_code(read.answer, read.sample),
            Err(e) => ValueCode {
                number: u8::from(e), // of a value: 20 or 23, 1, 2, 9, 10
                mark: 0,
                sampled: false,
                value: 0.0,
                clip: 0,
                place: 0,
            },
        }
    }
}

fn state_code(s: ValueState) -> u8
    ensures { result ≡ state_code s }
{
    match s {
        ValueState::Present => 0,
        ValueState::Blocked => 1,
        ValueState::Absent => 2,
    }
}

impl From<Result<ValueState, Refusal>> for UntimedCode {
    ghost from_gives = { λ r c. c ≡ untimed_code r };

    fn from(r: Result<ValueState, Refusal>) -> UntimedCode {
        match r {
            Ok(s) => UntimedCode {
                number: 0,
                state: state_code(s),
            },
            Err(e) => UntimedCode {
                number: u8::from(e), // untimed: 20, 1, 2, 9
                state: 0,
            },
        }
    }
}

impl From<Result<usize, Refusal>> for Counted {
    ghost from_gives = { λ r c. c ≡ count_code r };

    fn from(r: Result<usize, Refusal>) -> Counted {
        match r {
            Ok(count) => Counted { number: 0, count },
            Err(e) => {
                let number = u8::from(e);
                Counted { number, count: 0 }
            }
        }
    }
}

impl From<Result<Baked, Refusal>> for BakedCode {
    ghost from_gives = { λ r c. c ≡ bake_code r };

    fn from(r: Result<Baked, Refusal>) -> BakedCode {
        match r {
            Ok(b) => BakedCode {
                number: 0,
                mark: b.mark,
                value: b.value,
                count: b.count,
            },
            Err(e) => BakedCode {
                number: u8::from(e), // of a bake: 20 or 23, 1, 2, 9, 22
                mark: 0,
                value: 0.0,
                count: 0,
            },
        }
    }
}
