// A template's four numbers: `START END STRIDE OFFSET`.
use crate::text::{Read, after, read_double};
use definitions::TemplateTimes;

// Where `offset` is false the offset is absent.
#[derive(Clone, Copy)]
pub(crate) struct TemplateNumbers {
    pub at: usize,
    pub times: TemplateTimes,
    pub offset: bool,
}

// A template's offset: a double, or `none`.
fn read_offset(line: &[u8], at: usize) -> Option<Read<Option<f64>>> {
    if let Some(at) = after(line, at, b"none") {
        return Some(Read { at, value: None });
    }
    let d = read_double(line, at)?;
    Some(Read {
        at: d.at,
        value: Some(d.value),
    })
}

// The slot of an absent offset holds a NaN, which nothing may look at.
pub(crate) fn read(line: &[u8], at: usize) -> Option<TemplateNumbers> {
    let start = read_double(line, at)?;
    let end = read_double(line, start.at)?;
    let stride = read_double(line, end.at)?;
    let offset = read_offset(line, stride.at)?;
    Some(TemplateNumbers {
        at: offset.at,
        times: TemplateTimes {
            start: start.value,
            end: end.value,
            stride: stride.value,
            offset: offset.value.unwrap_or(f64::NAN),
        },
        offset: offset.value.is_some(),
    })
}
