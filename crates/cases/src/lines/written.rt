// The lists that a question has written, as its reply shows them: a count, and that many entries.
use crate::lines::values::bits_in;
use crate::text::{Replies, first};

impl Replies {
    fn begin(&mut self, word: &[u8], count: usize) {
        self.put(word);
        self.decimal(count as u64);
    }

    // Each entry a time.
    pub(crate) fn times(&mut self, word: &[u8], count: usize, times: &[f64]) {
        self.begin(word, count);
        for t in first(times, count) {
            self.double(*t);
        }
        self.put_byte(b'\n');
    }

    // Each entry a time and a mark.
    pub(crate) fn marked_times(&mut self, word: &[u8], count: usize, times: &[f64], marks: &[u8]) {
        self.begin(word, count);
        for (t, m) in first(times, count).iter().zip(marks) {
            self.double(*t);
            self.mark(*m);
        }
        self.put_byte(b'\n');
    }

    // Each entry a change's time, mark and value.
    pub(crate) fn changes(&mut self, count: usize, times: &[f64], values: &[f64], marks: &[u8]) {
        self.begin(b"", count);
        for ((t, x), m) in first(times, count).iter().zip(values).zip(marks) {
            self.double(*t);
            self.mark(*m);
            self.double(*x);
        }
        self.put_byte(b'\n');
    }

    // Each entry a sample's time, the bits of its value and its mark. The values are those of `values::lend`.
    pub(crate) fn samples(
        &mut self,
        count: usize,
        times: &[f64],
        values: &[f64],
        marks: &[u8],
        patterns: &[u64],
    ) {
        self.begin(b"normalize", count);
        for ((t, x), m) in first(times, count).iter().zip(values).zip(marks) {
            self.double(*t);
            self.bits(bits_in(*x, *m, patterns));
            self.mark(*m);
        }
        self.put_byte(b'\n');
    }
}
