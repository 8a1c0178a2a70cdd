// The lines that examine a set: its fields are read as those of an acceptance, and no resolver is touched.
ghost use Rattle.std.specs.Prelude.{◌<◌, IfSome};
ghost use Rattle.definitions.specs.Examining.{explicitly, by_template};
ghost use Rattle.clip.specs.Preparing.{Examines};
ghost use Rattle.cases.specs.Changes.{explicit_of, template_of};
ghost use Rattle.cases.specs.Prepared.{Looks};

use crate::changes::{ExplicitRead, TemplateRead, read_explicit, read_template};
use crate::lines::limits::{BLOCKS, BYTES, KNOTS, STARTS};
use crate::prepared;
use crate::text::{after, first};
use clip::ClipSet;
use definitions::refusal::Refusal;

// What the examining handed back, and for which slot.
#[derive(Clone, Copy)]
pub(crate) struct Looked {
    pub slot: usize,
    pub prepared: Result<ClipSet, Refusal>,
}

fn examine_read(
    read: ExplicitRead,
    starts: &[f64],
    numbers: &[f64],
    xs: &[f64],
    ys: &[f64],
    blocks: &[f64],
) -> Result<ClipSet, Refusal>
    ensures { Examines (explicitly (explicit_of read starts.now numbers.now xs.now ys.now blocks.now)) result }
{
    explicit::parse_set(
        read.clips,
        first(starts, read.starts),
        first(numbers, read.numbers),
        first(xs, read.xs),
        first(ys, read.ys),
        first(blocks, read.blocks),
        read.manifest.default,
        read.manifest.interpolate,
    )
}

fn explicit(line: &[u8], at: usize, slot: usize) -> Option<Looked>
    requires { slot < 4 }
    ensures { IfSome result Looks }
{
    let mut starts = [0.0f64; STARTS];
    let mut numbers = [0.0f64; STARTS];
    let mut xs = [0.0f64; KNOTS];
    let mut ys = [0.0f64; KNOTS];
    let mut blocks = [0.0f64; BLOCKS];
    let read = read_explicit(
        line,
        at,
        &mut starts,
        &mut numbers,
        &mut xs,
        &mut ys,
        &mut blocks,
    )?;
    let prepared = examine_read(read, &starts, &numbers, &xs, &ys, &blocks);
    Some(Looked { slot, prepared })
}

fn expand_read(read: TemplateRead, bytes: &[u8], blocks: &[f64]) -> Result<ClipSet, Refusal>
    ensures { Examines (by_template (template_of read bytes.now blocks.now)) result }
{
    template::expand_template(
        first(bytes, read.bytes),
        read.times,
        read.offset,
        first(blocks, read.blocks),
        read.manifest.default,
        read.manifest.interpolate,
    )
}

fn template(line: &[u8], at: usize, slot: usize) -> Option<Looked>
    requires { slot < 4 }
    ensures { IfSome result Looks }
{
    let mut bytes = [0u8; BYTES];
    let mut blocks = [0.0f64; BLOCKS];
    let read = read_template(line, at, &mut bytes, &mut blocks)?;
    let prepared = expand_read(read, &bytes, &blocks);
    Some(Looked { slot, prepared })
}

// `SLOT explicit ..` or `SLOT template ..`
pub(crate) fn examine(line: &[u8], at: usize) -> Option<Looked>
    ensures { IfSome result Looks }
{
    let n = prepared::slot_at(line, at)?;
    if let Some(fields) = after(line, n.at, b"explicit") {
        return explicit(line, fields, n.value);
    }
    template(line, after(line, n.at, b"template")?, n.value)
}
