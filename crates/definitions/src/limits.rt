// How much a set, its samples and a template may hold.
pub const CLIPS: usize = 256;

pub const STARTS: usize = 256;

pub const KNOTS: usize = 512;

pub const BLOCKS: usize = 256;

pub const SAMPLES: usize = 4096;

pub const TEMPLATE_BYTES: usize = 255;
