// Which call a line makes, and where its arguments begin. The calls with a slot stand apart, since they alone need the slots.
use crate::text::{first, is_end, part, skip_blanks, word_end};

// The letters of the longest call.
const LONGEST: usize = 9;

#[derive(Clone, Copy)]
pub(crate) enum Change {
    Explicit,
    Template,
    Retime,
}

#[derive(Clone, Copy)]
pub(crate) enum Question {
    Dump,
    Active,
    ClipTime,
    // Whether the sample is asked for too.
    Value(bool),
    Times,
    StageSamples,
    Untimed,
    Track,
    TrackHash,
    Name,
    Normalize,
    ClipTimes,
    CompareKeys,
}

#[derive(Clone, Copy)]
pub(crate) enum Call {
    Nothing,
    Unreadable,
    Case(usize),
    Samples(usize),
    Order(usize),
    Parted(usize),
    Changing(Change, usize),
    Asking(Question, usize),
}

#[derive(Clone, Copy)]
pub(crate) enum Slotted {
    Examine(usize),
    Prepared(usize),
    Install(usize),
}

// The line's first word, and the place behind it. Of one that is too long for a call's name no more is looked at than tells that.
pub(crate) fn first_word(line: &[u8]) -> (&[u8], usize) {
    let from = skip_blanks(line, 0);
    let at = word_end(first(line, from.saturating_add(LONGEST + 1)), from);
    (part(line, from, at), at)
}

pub(crate) fn slotted_of(line: &[u8]) -> Option<Slotted> {
    let (name, at) = first_word(line);
    match name {
        b"examine" => Some(Slotted::Examine(at)),
        b"prepared" => Some(Slotted::Prepared(at)),
        b"install" => Some(Slotted::Install(at)),
        _ => None,
    }
}

pub(crate) fn call_of(line: &[u8]) -> Call {
    if is_end(line, 0) {
        return Call::Nothing;
    }
    let (name, at) = first_word(line);
    match name {
        b"samples" => Call::Samples(at),
        b"order" => Call::Order(at),
        b"dsamples" => Call::Parted(at),
        b"case" => case_of(line, at),
        b"explicit" => Call::Changing(Change::Explicit, at),
        b"template" => Call::Changing(Change::Template, at),
        b"retime" => Call::Changing(Change::Retime, at),
        _ => match question_of(name) {
            Some(kind) => Call::Asking(kind, at),
            None => Call::Unreadable,
        },
    }
}

fn question_of(name: &[u8]) -> Option<Question> {
    Some(match name {
        b"value" => Question::Value(false),
        b"read" => Question::Value(true),
        b"active" => Question::Active,
        b"cliptime" => Question::ClipTime,
        b"name" => Question::Name,
        b"normalize" => Question::Normalize,
        b"cliptimes" => Question::ClipTimes,
        b"keycmp" => Question::CompareKeys,
        b"dump" => Question::Dump,
        b"track" => Question::Track,
        b"trackhash" => Question::TrackHash,
        b"times" => Question::Times,
        b"ssamples" => Question::StageSamples,
        b"untimed" => Question::Untimed,
        _ => return None,
    })
}

// A case has a name of one word.
fn case_of(line: &[u8], at: usize) -> Call {
    let from = skip_blanks(line, at);
    if from < line.len() && is_end(line, word_end(line, from)) {
        return Call::Case(from);
    }
    Call::Unreadable
}
