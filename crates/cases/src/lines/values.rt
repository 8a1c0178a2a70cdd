// Values by their bits, so that all of them come out of the normal form as they were lent. A NaN has no bits that could be
// asked for, and a block's slot may hold one. Nothing looks at that slot: it goes in as the double whose bits are the sample's
// place, and comes out as what was lent at that place.
use crate::text::{bits_of, double_of};

// The values of the samples with these bits and marks.
pub(crate) fn lend(patterns: &[u64], marks: &[u8], values: &mut [f64]) {
    for (place, ((slot, pattern), mark)) in values.iter_mut().zip(patterns).zip(marks).enumerate() {
        *slot = double_of(if *mark == 0 { *pattern } else { place as u64 });
    }
}

// The bits of a value that came out.
pub(crate) fn bits_in(value: f64, mark: u8, patterns: &[u64]) -> u64 {
    let bits = bits_of(value);
    if mark == 0 {
        return bits;
    }
    *patterns.get(bits as usize).unwrap_or(&bits)
}
