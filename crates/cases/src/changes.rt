// The calls that change what stands: each reads its fields, and hands back what the operation replied.
pub(crate) mod named;

ghost use Rattle.definitions.specs.Refusals.{number_in};
ghost use Rattle.resolver.specs.State.{Made, left};
ghost use Rattle.resolver.specs.Promises.{Accepts, Expands};
ghost use Rattle.cases.specs.declared.lines.calls.Change.TheVariants.{Explicit, Template, Retime};
ghost use Rattle.cases.specs.Changes.{Changes, explicit_of, template_of};

use crate::lines::calls::Change;
use crate::lines::limits::{BLOCKS, BYTES, KNOTS, STARTS};
use crate::lines::template_numbers;
use crate::text::{
    Read, after, doubles_after, ended, first, read_byte, read_bytes, read_decimal, read_double,
    read_flag,
};
use definitions::refusal::Refusal;
use definitions::{Default, LayerOffset, Missing, TemplateTimes};
use resolver::Resolver;

// The manifest's part of a set: `def MARK VALUE flag 0/1`.
fn read_manifest(line: &[u8], at: usize) -> Option<Read<Missing>> {
    let mark = read_byte(line, after(line, at, b"def")?)?;
    let value = read_double(line, mark.at)?;
    let flag = read_flag(line, after(line, value.at, b"flag")?)?;
    Some(Read {
        at: flag.at,
        value: Missing {
            default: Default {
                mark: mark.value,
                value: value.value,
            },
            interpolate: flag.value,
        },
    })
}

// An explicit set's fields: how much of each list was read, and the rest.
#[derive(Clone, Copy)]
pub(crate) struct ExplicitRead {
    pub clips: u64,
    pub starts: usize,
    pub numbers: usize,
    pub xs: usize,
    pub ys: usize,
    pub blocks: usize,
    pub manifest: Missing,
}

// The rest of a line.
pub(crate) fn read_explicit(
    line: &[u8],
    at: usize,
    starts: &mut [f64],
    numbers: &mut [f64],
    xs: &mut [f64],
    ys: &mut [f64],
    blocks: &mut [f64],
) -> Option<ExplicitRead> {
    let clips = read_decimal(line, at)?;
    let st = doubles_after(line, clips.at, b"st", starts)?;
    let sc = doubles_after(line, st.at, b"sc", numbers)?;
    let kx = doubles_after(line, sc.at, b"kx", xs)?;
    let ky = doubles_after(line, kx.at, b"ky", ys)?;
    let bl = doubles_after(line, ky.at, b"bl", blocks)?;
    let manifest = read_manifest(line, bl.at)?;
    ended(line, manifest.at)?;
    Some(ExplicitRead {
        clips: clips.value,
        starts: st.value,
        numbers: sc.value,
        xs: kx.value,
        ys: ky.value,
        blocks: bl.value,
        manifest: manifest.value,
    })
}

fn accept_read(
    read: ExplicitRead,
    starts: &[f64],
    numbers: &[f64],
    xs: &[f64],
    ys: &[f64],
    blocks: &[f64],
    resolver: Resolver,
) -> Result<Resolver, Refusal>
    requires { Made resolver }
    ensures { Accepts resolver (explicit_of read starts.now numbers.now xs.now ys.now blocks.now) (number_in result) (left resolver result) }
{
    by_value::accept(
        resolver,
        read.clips,
        first(starts, read.starts),
        first(numbers, read.numbers),
        first(xs, read.xs),
        first(ys, read.ys),
        first(blocks, read.blocks),
        read.manifest.default,
        read.manifest.interpolate,
    )
}

fn explicit(line: &[u8], at: usize, resolver: Resolver) -> Option<Result<Resolver, Refusal>>
    requires { Made resolver }
    ensures { Changes Explicit resolver result }
{
    let mut starts = [0.0f64; STARTS];
    let mut numbers = [0.0f64; STARTS];
    let mut xs = [0.0f64; KNOTS];
    let mut ys = [0.0f64; KNOTS];
    let mut blocks = [0.0f64; BLOCKS];
    let read = read_explicit(
        line,
        at,
        &mut starts,
        &mut numbers,
        &mut xs,
        &mut ys,
        &mut blocks,
    )?;
    Some(accept_read(read, &starts, &numbers, &xs, &ys, &blocks, resolver))
}

// A template set's fields: how much of each list was read, and the rest.
#[derive(Clone, Copy)]
pub(crate) struct TemplateRead {
    pub bytes: usize,
    pub times: TemplateTimes,
    pub offset: bool,
    pub blocks: usize,
    pub manifest: Missing,
}

// The rest of a line.
pub(crate) fn read_template(
    line: &[u8],
    at: usize,
    bytes: &mut [u8],
    blocks: &mut [f64],
) -> Option<TemplateRead> {
    let b = read_bytes(line, at, bytes)?;
    let numbers = template_numbers::read(line, b.at)?;
    let bl = doubles_after(line, numbers.at, b"bl", blocks)?;
    let manifest = read_manifest(line, bl.at)?;
    ended(line, manifest.at)?;
    Some(TemplateRead {
        bytes: b.value,
        times: numbers.times,
        offset: numbers.offset,
        blocks: bl.value,
        manifest: manifest.value,
    })
}

fn expand_read(
    read: TemplateRead,
    bytes: &[u8],
    blocks: &[f64],
    resolver: Resolver,
) -> Result<Resolver, Refusal>
    requires { Made resolver }
    ensures { Expands resolver (template_of read bytes.now blocks.now) (number_in result) (left resolver result) }
{
    by_value::accept_template(
        resolver,
        first(bytes, read.bytes),
        read.times,
        read.offset,
        first(blocks, read.blocks),
        read.manifest.default,
        read.manifest.interpolate,
    )
}

fn template(line: &[u8], at: usize, resolver: Resolver) -> Option<Result<Resolver, Refusal>>
    requires { Made resolver }
    ensures { Changes Template resolver result }
{
    let mut bytes = [0u8; BYTES];
    let mut blocks = [0.0f64; BLOCKS];
    let read = read_template(line, at, &mut bytes, &mut blocks)?;
    Some(expand_read(read, &bytes, &blocks, resolver))
}

fn retime(line: &[u8], at: usize, resolver: Resolver) -> Option<Result<Resolver, Refusal>>
    requires { Made resolver }
    ensures { Changes Retime resolver result }
{
    let offset = read_double(line, at)?;
    let scale = read_double(line, offset.at)?;
    ended(line, scale.at)?;
    let o = LayerOffset {
        offset: offset.value,
        scale: scale.value,
    };
    Some(by_value::retime(resolver, o))
}

// What the operation replied. Where the line could not be read none was asked.
pub(crate) fn change(
    kind: Change,
    line: &[u8],
    at: usize,
    resolver: Resolver,
) -> Option<Result<Resolver, Refusal>>
    requires { Made resolver }
    ensures { Changes kind resolver result }
{
    match kind {
        Change::Explicit => explicit(line, at, resolver),
        Change::Template => template(line, at, resolver),
        Change::Retime => retime(line, at, resolver),
    }
}
