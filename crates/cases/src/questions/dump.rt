// A set, entry by entry: the standing one, a prepared one, or one of the dispatcher's.
use crate::text::{Replies, ended, first};
use definitions::refusal::Refusal;
use resolver::Resolver;
use standing::StandingSet;

impl Replies {
    fn starts(&mut self, times: &[f64], numbers: &[u64]) {
        self.put(b" starts");
        self.decimal(times.len().min(numbers.len()) as u64);
        for (t, clip) in times.iter().zip(numbers) {
            self.double(*t);
            self.decimal(*clip);
        }
    }

    fn knots(&mut self, xs: &[f64], ys: &[f64]) {
        self.put(b" knots");
        self.decimal(xs.len().min(ys.len()) as u64);
        for (x, y) in xs.iter().zip(ys) {
            self.double(*x);
            self.double(*y);
        }
    }

    // The set with these entries.
    pub(super) fn put_lists(
        &mut self,
        clips: u64,
        times: &[f64],
        numbers: &[u64],
        xs: &[f64],
        ys: &[f64],
        blocks: &[f64],
    ) {
        self.put(b"set");
        self.decimal(clips);
        self.starts(times, numbers);
        self.knots(xs, ys);
        self.times(b" bl", blocks.len(), blocks);
    }

    pub(crate) fn put_set(&mut self, set: &StandingSet) {
        let counts = set.counts;
        self.put_lists(
            set.clips,
            first(&set.starts, counts.starts),
            first(&set.numbers, counts.starts),
            first(&set.xs, counts.knots),
            first(&set.ys, counts.knots),
            first(&set.blocks, counts.blocks),
        );
    }
}

pub(super) fn dump(line: &[u8], at: usize, resolver: Resolver, out: &mut Replies) -> Option<()> {
    ended(line, at)?;
    if resolver.stands {
        out.put_set(&resolver.set);
    } else {
        out.refused(Refusal::NoSet);
    }
    Some(())
}
