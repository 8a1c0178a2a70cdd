// The hash of a track that is too long to print: its changes are walked, and none is kept.
ghost use Rattle.std.specs.Prelude.{◌≡◌, ◌≤◌, length};
ghost use Rattle.gf.specs.Doubles as Key;
ghost use Rattle.laws.specs.cell.Keys.{entry_at_key};
ghost use Rattle.laws.specs.cell.Lent.{set_of, samples_of, AcceptedLists};
ghost use Rattle.window.specs.search.Latest.{LatestOf};
ghost use Rattle.cell.specs.step.Entries.{entry_is};
ghost use Rattle.standing.specs.Standing.{Asked};
ghost use Rattle.track.specs.Fills.{CursorIs, PageIs};

use crate::text::Replies;
use cell::place::no_place;
use cell::step::entry::Entry;
use definitions::Missing;
use gf::{LEAST, MOST};
use standing::Counts;
use track::bake::PAGE;
use track::entry::entry_at;
use track::fill::{Cursor, Filled, fill};
use window::search::latest::latest_inverses;

// A byte more: FNV-1a, a product by its prime, 2^40 + 435, modulo 2^64.
fn eat(hash: u64, byte: u8) -> u64 {
    (hash ^ u64::from(byte)).wrapping_mul(0x100_0000_01b3)
}

// Eight bytes more, the lowest first.
fn eat_word(hash: u64, word: u64) -> u64 {
    let mut h = hash;
    for b in word.to_le_bytes() {
        h = eat(h, b);
    }
    h
}

fn eat_change(hash: u64, time: f64, entry: Entry) -> u64 {
    let h = eat_word(hash, crate::text::bits_of(time));
    let h = eat_word(h, crate::text::bits_of(entry.value));
    eat(h, entry.mark)
}

// The first n changes of a page.
fn eat_page(
    hash: u64,
    times: &[f64; PAGE],
    values: &[f64; PAGE],
    marks: &[u8; PAGE],
    n: usize,
) -> u64
    requires { n ≤ 256 }
{
    let mut h = hash;
    for ((t, value), mark) in times[..n].iter().zip(values).zip(marks) {
        let entry = Entry {
            value: *value,
            mark: *mark,
        };
        h = eat_change(h, *t, entry);
    }
    h
}

#[derive(Clone, Copy)]
struct Walked {
    count: u64,
    hash: u64,
}

// A page of changes hashed, and where the walk stands.
#[derive(Clone, Copy)]
struct Page {
    filled: Filled,
    hash: u64,
}

// The changes of the next page.
fn walk_page(
    starts: &[f64],
    clips: &[u64],
    xs: &[f64],
    ys: &[f64],
    blocks: &[f64],
    m: Missing,
    times: &[f64],
    values: &[f64],
    marks: &[u8],
    ends: &[u64],
    latest: &[f64],
    from: Cursor,
    hash: u64,
) -> Page
    requires accepted_lists { AcceptedLists starts.now clips.now xs.now ys.now blocks.now m times.now values.now marks.now ends.now }
    requires latest_of { LatestOf xs.now ys.now latest.now }
    requires cursor_is { CursorIs starts.now clips.now xs.now ys.now blocks.now m times.now values.now marks.now ends.now Key.most from }
    ensures { PageIs starts.now clips.now xs.now ys.now blocks.now m times.now values.now marks.now ends.now from.key Key.most result.filled }
{
    let mut pagetimes: [f64; PAGE] = [0.0; PAGE];
    let mut pagevalues: [f64; PAGE] = [0.0; PAGE];
    let mut pagemarks: [u8; PAGE] = [0; PAGE];
    let filled = fill(
        starts,
        clips,
        xs,
        ys,
        blocks,
        m,
        times,
        values,
        marks,
        ends,
        latest,
        from,
        MOST,
        &mut pagetimes,
        &mut pagevalues,
        &mut pagemarks,
    );
    let hash = eat_page(hash, &pagetimes, &pagevalues, &pagemarks, filled.count);
    Page { filled, hash }
}

// The changes of the value above the lowest key, counted and hashed page by page. `head` is the value there.
fn walk(
    starts: &[f64],
    clips: &[u64],
    xs: &[f64],
    ys: &[f64],
    blocks: &[f64],
    m: Missing,
    times: &[f64],
    values: &[f64],
    marks: &[u8],
    ends: &[u64],
    head: Entry,
) -> Walked
    requires accepted_lists { AcceptedLists starts.now clips.now xs.now ys.now blocks.now m times.now values.now marks.now ends.now }
    requires head_value { entry_is head ≡ entry_at_key (set_of (length ends.now) starts.now clips.now xs.now ys.now blocks.now m) (samples_of times.now values.now marks.now ends.now) Key.least }
{
    let latest = latest_inverses(xs, ys);
    let place = no_place(starts);
    let mut at = Cursor {
        key: LEAST,
        last: head,
        place,
    };
    let mut count: u64 = 0;
    let mut hash: u64 = 0xcbf2_9ce4_8422_2325;
    loop {
        let page = walk_page(
            starts,
            clips,
            xs,
            ys,
            blocks,
            m,
            times,
            values,
            marks,
            ends,
            &latest.items,
            at,
            hash,
        );
        let filled = page.filled;
        count = count.wrapping_add(filled.count as u64);
        hash = page.hash;
        if filled.done {
            return Walked { count, hash };
        }
        at = filled.cursor;
    }
}

// The head, and the hash of the changes behind it.
#[derive(Clone, Copy)]
pub(crate) struct Hashed {
    pub mark: u8,
    pub value: f64,
    pub count: u64,
    pub hash: u64,
}

fn hash_lists(
    starts: &[f64],
    clips: &[u64],
    xs: &[f64],
    ys: &[f64],
    blocks: &[f64],
    m: Missing,
    times: &[f64],
    values: &[f64],
    marks: &[u8],
    ends: &[u64],
) -> Hashed
    requires { AcceptedLists starts.now clips.now xs.now ys.now blocks.now m times.now values.now marks.now ends.now }
{
    let head = entry_at(
        starts, clips, xs, ys, blocks, m, times, values, marks, ends, LEAST,
    );
    let walked = walk(
        starts, clips, xs, ys, blocks, m, times, values, marks, ends, head,
    );
    Hashed {
        mark: head.mark,
        value: head.value,
        count: walked.count,
        hash: walked.hash,
    }
}

// The hash of a standing set's track, from its arrays.
pub(crate) fn hash_of<'a>(
    starts: &'a [f64],
    numbers: &'a [u64],
    xs: &'a [f64],
    ys: &'a [f64],
    blocks: &'a [f64],
    counts: Counts,
    m: Missing,
    times: &[f64],
    values: &[f64],
    marks: &[u8],
    ends: &[u64],
) -> Hashed
    requires { Asked counts starts.now numbers.now xs.now ys.now blocks.now m times.now values.now marks.now ends.now }
{
    let n = counts.starts;
    let k = counts.knots;
    let b = counts.blocks;
    hash_lists(
        &starts[..n],
        &numbers[..n],
        &xs[..k],
        &ys[..k],
        &blocks[..b],
        m,
        times,
        values,
        marks,
        ends,
    )
}

impl Replies {
    pub(crate) fn put_hashed(&mut self, h: Hashed) {
        self.head(b"trackhash", h.mark, h.value);
        self.decimal(h.count);
        self.bits(h.hash);
        self.put_byte(b'\n');
    }
}
