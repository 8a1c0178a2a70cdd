// An order list as it is lent, and the set that answers: the first in the order in force that qualifies.

#![tactic(auto)]

pub mod listed;

ghost use Rattle.std.specs.Prelude.{◌≡◌, ℕ, ◌<◌, T, length};
ghost use Rattle.std.proofs.Math.Option.{some};
ghost use Rattle.definitions.specs.Lists.{any};
ghost use Rattle.definitions.specs.Samples.{closes};
ghost use Rattle.definitions.specs.Refusals.{number_in};
ghost use Rattle.dispatch.specs.SetOrder.{too_long, names_from, order_number};
ghost use Rattle.dispatch.specs.NamedSets.{first_qualifying};
ghost use Rattle.laws.specs.list.Every.{Every};
ghost use Rattle.set_order.specs.Answered.{fit_at, fit_in, answered, lent_list};

use definitions::refusal::Refusal;
use dispatch::{LISTED, NAME_BYTES};

// The set that answers: its place in the order in force and its number.
#[derive(Clone, Copy)]
pub struct AnsweringSet {
    pub place: usize,
    pub number: usize,
}

// No end falls behind the one before, and the last is `len`.
fn ends_close(ends: &[u64], len: usize) -> bool
    ensures { result ≡ closes 0 ends.now len }
{
    let mut begin: u64 = 0;
    for end in ends {
        if *end < begin {
            return false;
        }
        begin = *end;
    }
    begin == len as u64
}

// A name of the list is above its limit.
fn any_too_long(bytes: &[u8], ends: &[u64]) -> bool
    requires { T (closes 0 ends.now (length bytes.now)) }
    ensures { result ≡ any too_long (names_from 0 bytes.now ends.now) }
{
    let mut begin: usize = 0;
    for end in ends {
        let end = *end as usize;
        if NAME_BYTES < end - begin {
            return true;
        }
        begin = end;
    }
    false
}

// 23 where the list is none that can be taken.
pub fn check_order(bytes: &[u8], ends: &[u64]) -> Result<(), Refusal>
    ensures { number_in result ≡ order_number (some (lent_list bytes.now ends.now)) }
{
    if LISTED < ends.len() || !ends_close(ends, bytes.len()) || any_too_long(bytes, ends) {
        return Err(Refusal::NotTaken);
    }
    Ok(())
}

// Whether the k-th set has a start and declares.
fn qualifies(starts: &[u64], declares: &[u8], k: usize) -> bool
    requires fact_1 { k < length starts.now }
    requires fact_2 { length declares.now ≡ length starts.now }
    ensures { result ≡ fit_at starts.now declares.now k }
{
    declares[k] != 0 && starts[k] != 0
}

// The first of these numbers whose set qualifies.
pub fn first_in_order(starts: &[u64], declares: &[u8], order: &[u64]) -> Option<AnsweringSet>
    requires fact_1 { length declares.now ≡ length starts.now }
    requires fact_2 { Every (λ (k : ℕ). k < length starts.now) order.now }
    ensures { answered result ≡ first_qualifying (fit_in starts.now declares.now) 0 order.now }
{
    for (place, k) in order.iter().enumerate() {
        let number = *k as usize;
        if qualifies(starts, declares, number) {
            return Some(AnsweringSet { place, number });
        }
    }
    None
}
