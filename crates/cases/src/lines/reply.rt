// The replies that several calls share, each a whole line, and parts of them.
use crate::text::{Replies, bits_of};
use definitions::refusal::Refusal;

impl Replies {
    pub(crate) fn unreadable(&mut self) {
        self.put(b"unreadable\n");
    }

    pub(crate) fn refused(&mut self, why: Refusal) {
        self.put(b"refused ");
        self.put_decimal(u64::from(u8::from(why)));
        self.put_byte(b'\n');
    }

    // Of a call that may change what stands.
    pub(crate) fn changed(&mut self, refusal: Option<Refusal>) {
        match refusal {
            Some(why) => self.refused(why),
            None => self.put(b"ok\n"),
        }
    }

    // Of a slot that has no set.
    pub(crate) fn empty(&mut self) {
        self.put(b"empty\n");
    }

    pub(crate) fn case_named(&mut self, name: &[u8]) {
        self.put(b"case ");
        self.put(name);
        self.put_byte(b'\n');
    }

    // A blank and a number.
    pub(crate) fn decimal(&mut self, value: u64) {
        self.put_byte(b' ');
        self.put_decimal(value);
    }

    // A blank and a mark.
    pub(crate) fn mark(&mut self, value: u8) {
        self.decimal(u64::from(value));
    }

    // A blank and a double's bits.
    pub(crate) fn bits(&mut self, value: u64) {
        self.put_byte(b' ');
        self.put_bits(value);
    }

    // A blank and a double.
    pub(crate) fn double(&mut self, value: f64) {
        self.bits(bits_of(value));
    }

    // A track's head, behind the word of its call.
    pub(crate) fn head(&mut self, word: &[u8], kind: u8, value: f64) {
        self.put(word);
        self.mark(kind);
        self.double(value);
    }
}
