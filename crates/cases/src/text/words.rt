// The words of a line, parted by blanks. A place is an index into the line.

ghost use Rattle.std.specs.Prelude.{◌≡◌, ◌↔◌, IsSome, length, take, ◌==◌};
ghost use Rattle.cases.specs.declared.text.words.Stop.TheVariants.{Word, Blank, Comment};
ghost use Rattle.cases.specs.Text.{is_blank, stops_at, scanned, word_at, closed_at, behind};

use crate::text::listings::{first, part, rest};

// A space, a tab or the carriage return of a line that ends in two bytes.
fn is_blank(b: u8) -> bool
    ensures { result ≡ is_blank b }
{
    matches!(b, b'\t' | b'\r' | b' ')
}

// What a scan looks for.
#[derive(Clone, Copy)]
pub(crate) enum Stop {
    Word,
    Blank,
    Comment,
    LineEnd,
}

fn stops_at(b: u8, stop: Stop) -> bool
    ensures { result ≡ stops_at b stop }
{
    match stop {
        Stop::Word => !is_blank(b),
        Stop::Blank => is_blank(b),
        Stop::Comment => b == b';',
        Stop::LineEnd => b == b'\n',
    }
}

// The first place from `at` on where it stands, the end of the text if it stands nowhere.
#[tactic(auto, using(crate::proofs::Words::scans))]
pub(crate) fn scan(text: &[u8], at: usize, stop: Stop) -> usize
    ensures { result ≡ scanned text.now at stop }
{
    let text = rest(text, at);
    for (n, b) in text.iter().enumerate() {
        if stops_at(*b, stop) {
            return at + n;
        }
    }
    at + text.len()
}

pub(crate) fn skip_blanks(line: &[u8], at: usize) -> usize
    ensures { result ≡ scanned line.now at Word }
{
    scan(line, at, Stop::Word)
}

// Behind the word that stands at `at`.
pub(crate) fn word_end(line: &[u8], at: usize) -> usize
    ensures { result ≡ scanned line.now at Blank }
{
    scan(line, at, Stop::Blank)
}

// The line up to its comment.
pub(crate) fn without_comment(line: &[u8]) -> &[u8]
    ensures { result.now ≡ take (scanned line.now 0 Comment) line.now }
{
    first(line, scan(line, 0, Stop::Comment))
}

// The next word, empty if there is none.
pub(crate) fn word(line: &[u8], at: usize) -> &[u8]
    ensures { result.now ≡ word_at line.now at }
{
    let from = skip_blanks(line, at);
    part(line, from, word_end(line, from))
}

// Nothing but blanks is left.
pub(crate) fn is_end(line: &[u8], at: usize) -> bool
    ensures { result ≡ (scanned line.now at Word == length line.now) }
{
    skip_blanks(line, at) == line.len()
}

// The line has no more words behind the place.
pub(crate) fn ended(line: &[u8], at: usize) -> Option<()>
    ensures { IsSome result ↔ (scanned line.now at Word ≡ length line.now) }
{
    is_end(line, at).then_some(())
}

// The place itself, if no word goes on there.
#[tactic(auto, unfolding(crate::specs::Text::closed_at))]
pub(crate) fn closed(line: &[u8], at: usize) -> Option<usize>
    ensures { result ≡ closed_at line.now at }
{
    if at < line.len() && !is_blank(line[at]) {
        return None;
    }
    Some(at)
}

// The place behind `word`, if it is the next word of the line.
#[tactic(auto, unfolding(crate::specs::Text::behind))]
pub(crate) fn after(line: &[u8], at: usize, word: &[u8]) -> Option<usize>
    ensures { result ≡ behind line.now at word.now }
{
    let from = skip_blanks(line, at);
    if !rest(line, from).starts_with(word) {
        return None;
    }
    closed(line, from + word.len())
}
