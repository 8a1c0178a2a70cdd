// The set that answers by an order list.
ghost use Rattle.std.specs.Prelude.{◌≡◌, ◌≤◌, length};
ghost use Rattle.std.proofs.Math.Option.{some};
ghost use Rattle.dispatch.specs.SetOrder.{order_number, order_in_force};
ghost use Rattle.dispatch.specs.NamedSets.{max_sets, first_qualifying};
ghost use Rattle.set_names.specs.Pages.{NamePages, names_in};
ghost use Rattle.set_order.specs.Answered.{fit_in, answered, lent_list};

use crate::{AnsweringSet, qualifies};
use dispatch::SETS;

// The first listed set that qualifies. A name that no set has is passed over, and one that was met before; every other set has a place.
pub fn first_listed(
    names: &[u8],
    starts: &[u64],
    declares: &[u8],
    bytes: &[u8],
    ends: &[u64],
) -> Option<AnsweringSet>
    requires fact_1 { NamePages names.now (length starts.now) }
    requires fact_2 { length starts.now ≤ max_sets }
    requires fact_3 { length declares.now ≡ length starts.now }
    requires fact_4 { order_number (some (lent_list bytes.now ends.now)) ≡ 0 }
    ensures { answered result ≡ first_qualifying (fit_in starts.now declares.now) 0 (order_in_force (some (lent_list bytes.now ends.now)) (names_in names.now (length starts.now))) }
{
    let n = starts.len();
    let mut met = [false; SETS];
    let mut place: usize = 0;
    let mut begin: usize = 0;
    for end in ends {
        let end = *end as usize;
        let found = set_names::find(names, n, &bytes[begin..end]);
        begin = end;
        let Some(number) = found else {
            continue;
        };
        if met[number] {
            continue;
        }
        if qualifies(starts, declares, number) {
            return Some(AnsweringSet { place, number });
        }
        met[number] = true;
        place += 1;
    }
    None
}
