// Template names: the `#` pattern of a template, and the name at a clip time.

#![tactic(auto)]

mod body;
mod digits;
mod magnitude;
pub mod pattern;

ghost use Rattle.std.specs.Prelude.{◌≡◌, ◌++◌, ◌+◌, ◌-◌, ◌≤◌, length, take, drop};
ghost use Rattle.definitions.specs.Names.{split, readable};
ghost use Rattle.names.specs.Put.{put};
ghost use Rattle.names.specs.Body.{body_of};
ghost use Rattle.names.specs.Named.{Names};

use body::Body;
use definitions::ClipTime;
use definitions::limits::TEMPLATE_BYTES;
use definitions::refusal::Refusal;
use pattern::Pattern;

// Whether a template has a pattern that can be read.
pub fn is_readable(template: &[u8]) -> bool
    ensures { result ≡ readable (split template.now) }
{
    let p = pattern::parse(template);
    pattern::is_readable(template, p)
}

// Writes the bytes from the slot `at` on. Not by std's copy, which allows that the two overlap and so needs C's `memmove`.
fn put_bytes(bytes: &[u8], out: &mut [u8], at: usize)
    requires { at + length bytes.now ≤ length out.old }
    ensures { out.new ≡ put out.old at bytes.now }
{
    for (i, b) in bytes.iter().enumerate() {
        out[at + i] = *b;
    }
}

// Writes the prefix, the body and the suffix to the front of the lent bytes.
fn put_name(template: &[u8], p: Pattern, b: Body, out: &mut [u8])
    requires first_le_suffix { (p.first ≤ p.suffix) × (p.suffix ≤ length template.now) }
    requires suffix_in_bounds { p.first + length (body_of b) + (length template.now - p.suffix) ≤ length out.old }
    requires b_len_bound { length (body_of b) ≤ 268 }
    ensures { out.new ≡ put out.old 0 (take p.first template.now ++ (body_of b ++ drop p.suffix template.now)) }
{
    let rest = p.first + body::body_length(b);
    put_bytes(&template[..p.first], out, 0);
    body::put_body(b, out, p.first);
    put_bytes(&template[p.suffix..], out, rest);
}

// The name of the template at a clip time, written to the front of the lent bytes: its length. Refused by 1, 2, 6, then 22.
pub fn name(template: &[u8], time: ClipTime, out: &mut [u8]) -> Result<usize, Refusal>
    ensures { Names template.now time out.old out.new result }
{
    if TEMPLATE_BYTES < template.len() {
        return Err(Refusal::Misshapen);
    }
    if !gf::is_storable(time.0) {
        return Err(Refusal::Unstorable);
    }
    let p = pattern::parse(template);
    if !pattern::is_readable(template, p) {
        return Err(Refusal::UnreadableTemplate);
    }
    let b = body::body_at(p, time.0);
    let n = p.first + body::body_length(b) + (template.len() - p.suffix);
    if out.len() < n {
        return Err(Refusal::NoRoom);
    }
    put_name(template, p, b, out);
    Ok(n)
}
