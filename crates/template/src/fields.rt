// A template's fields: the numbers that they alone give.
ghost use Rattle.std.specs.Prelude.{◌≡◌};
ghost use Rattle.definitions.specs.Template.{times_unstorable, times_disordered};
ghost use Rattle.definitions.specs.Refusals.{number_in};
ghost use Rattle.template.specs.Expanding.{offset_of, template_fields, template_fields_number};

use clip::storing;
use definitions::limits::{BLOCKS, TEMPLATE_BYTES};
use definitions::refusal::Refusal;
use definitions::{Missing, TemplateTimes};

// 2 of the four numbers. An absent offset's slot is not looked at.
#[tactic(auto, unfolding(definitions::specs::Template::times_unstorable))]
pub fn is_unstorable(times: TemplateTimes, offset: bool) -> bool
    ensures { result ≡ times_unstorable times (offset_of times offset) }
{
    !gf::is_storable(times.start)
        || !gf::is_storable(times.end)
        || !gf::is_finite(times.stride)
        || (offset && !gf::is_finite(times.offset))
}

// 7.
#[tactic(auto, unfolding(definitions::specs::Template::times_disordered))]
pub fn is_disordered(times: TemplateTimes, offset: bool) -> bool
    ensures { result ≡ times_disordered times (offset_of times offset) }
{
    times.stride <= 0.0
        || times.end < times.start
        || (offset && times.stride < gf::magnitude::abs(times.offset))
}

// 1, 2, 7 and 6, in this order.
pub fn check_fields(
    template: &[u8],
    times: TemplateTimes,
    offset: bool,
    blocks: &[f64],
    manifest: Missing,
) -> Result<(), Refusal>
    ensures { number_in result ≡ template_fields_number (template_fields template.now times offset blocks.now manifest) }
{
    if TEMPLATE_BYTES < template.len() || BLOCKS < blocks.len() {
        return Err(Refusal::Misshapen);
    }
    if is_unstorable(times, offset)
        || lists::any_unstorable(blocks)
        || storing::is_nan_default(manifest.default)
    {
        return Err(Refusal::Unstorable);
    }
    if is_disordered(times, offset) {
        return Err(Refusal::DisorderedTemplate);
    }
    if !names::is_readable(template) {
        return Err(Refusal::UnreadableTemplate);
    }
    Ok(())
}
