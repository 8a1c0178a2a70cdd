// The names of a dispatcher's sets: a page of bytes for each, which set has a name, and the sets sorted by their names.

#![tactic(auto)]

pub mod sorted;

ghost use Rattle.std.specs.Prelude.{◌≡◌, ◌≤◌, ◌<◌};
ghost use Rattle.dispatch.specs.SetOrder.{same_name, name_before, set_number};
ghost use Rattle.dispatch.specs.NamedSets.{max_sets};
ghost use Rattle.set_names.specs.Pages.{NamePages, name_in, names_in, number_of};

// A name's page: its length, then its bytes.
pub const PAGE: usize = 256;

pub fn is_same(a: &[u8], b: &[u8]) -> bool
    ensures { result ≡ same_name a.now b.now }
{
    a == b
}

pub fn is_before(a: &[u8], b: &[u8]) -> bool
    ensures { result ≡ name_before a.now b.now }
{
    a < b
}

// The name on the i-th page, of n.
fn name_at(bytes: &[u8], n: usize, i: usize) -> &[u8]
    requires fact_1 { NamePages bytes.now n }
    requires fact_2 { n ≤ max_sets }
    requires fact_3 { i < n }
    ensures { result.now ≡ name_in bytes.now i }
{
    let page = i * PAGE;
    let begin = page + 1;
    let len = bytes[page] as usize;
    &bytes[begin..begin + len]
}

// The set with this name, of the first n: its number in the order of acceptance.
pub fn find(bytes: &[u8], n: usize, name: &[u8]) -> Option<usize>
    requires fact_1 { NamePages bytes.now n }
    requires fact_2 { n ≤ max_sets }
    ensures { number_of result ≡ set_number name.now (names_in bytes.now n) }
{
    for i in 0..n {
        if is_same(name_at(bytes, n, i), name) {
            return Some(i);
        }
    }
    None
}
