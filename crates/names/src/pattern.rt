// The `#` pattern of a template, by the places of its parts. The Rust's `HashPattern`.

ghost use Rattle.std.specs.Prelude.{◌≡◌, ◌==◌, ◌&&◌, ◌≤◌, leb, not, length, drop};
ghost use Rattle.std.specs.List.{list_any, prefix_len};
ghost use Rattle.definitions.specs.Names.{hash, readable};
ghost use Rattle.names.specs.Pattern.{Parses, fraction_run, pattern_of, with_dot};

use crate::body;

// `first` is where the first run of `#` begins and `width` its length; `fraction` is the length of
// the second run, 0 without one (no run is that short, and as a number it goes into the sums of
// lengths as it is); `suffix` is where the rest begins.
#[derive(Clone, Copy)]
pub struct Pattern {
    pub first: usize,
    pub width: usize,
    pub fraction: usize,
    pub suffix: usize,
}

// How many bytes stand before the first `#`.
fn before_hash(template: &[u8]) -> usize
    ensures run { result ≡ prefix_len (λ b. not (b == hash)) template.now }
    ensures within { result ≤ length template.now }
{
    template.iter().take_while(|b| **b != b'#').count()
}

// The length of the run of `#` that the bytes begin with.
fn hash_run(bytes: &[u8]) -> usize
    ensures run { result ≡ prefix_len (λ b. b == hash) bytes.now }
    ensures within { result ≤ length bytes.now }
{
    bytes.iter().take_while(|b| **b == b'#').count()
}

// The length of a second run, behind a `.`: 0 where there is none.
fn fraction_run(bytes: &[u8]) -> usize
    ensures run { result ≡ fraction_run bytes.now }
    ensures within { with_dot result ≤ length bytes.now }
{
    match bytes {
        [b'.', rest @ ..] => hash_run(rest),
        _ => 0,
    }
}

// The pattern as it is split, readable or not.
pub fn parse(template: &[u8]) -> Pattern
    ensures { Parses template.now result }
{
    let first = before_hash(template);
    let width = hash_run(&template[first..]);
    let end = first + width;
    let fraction = fraction_run(&template[end..]);
    let suffix = end + body::fraction_length(fraction);
    Pattern {
        first,
        width,
        fraction,
        suffix,
    }
}

// Whether a `#` stands at `from` or later.
fn has_hash(template: &[u8], from: usize) -> bool
    ensures { result ≡ list_any (λ b. b == hash) (drop from template.now) }
{
    template.iter().skip(from).any(|b| *b == b'#')
}

// At least one `#`, and at most 32 and 6 in the two runs.
fn within_limits(p: Pattern) -> bool
    ensures { result ≡ (leb 1 p.width && leb p.width 32 && leb p.fraction 6) }
{
    1 <= p.width && p.width <= 32 && p.fraction <= 6
}

// The widths are within their limits, and no `#` is left in the suffix.
pub fn is_readable(template: &[u8], p: Pattern) -> bool
    ensures { result ≡ readable (pattern_of template.now p) }
{
    within_limits(p) && !has_hash(template, p.suffix)
}
