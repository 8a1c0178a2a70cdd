// A set's name, and whether its manifest declares the attribute: `NAME 0/1`.
use crate::text::{read_bytes, read_flag};

// How many bytes the name has.
#[derive(Clone, Copy)]
pub(crate) struct Naming {
    pub at: usize,
    pub count: usize,
    pub declares: bool,
}

pub(crate) fn read(line: &[u8], at: usize, name: &mut [u8]) -> Option<Naming> {
    let read = read_bytes(line, at, name)?;
    let flag = read_flag(line, read.at)?;
    Some(Naming {
        at: flag.at,
        count: read.value,
        declares: flag.value,
    })
}
