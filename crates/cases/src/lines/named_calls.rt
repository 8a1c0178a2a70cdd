// Which call to the dispatcher a line makes, and where its arguments begin. They stand apart, since they alone need its lists.
use crate::lines::calls::first_word;

#[derive(Clone, Copy)]
pub(crate) enum NamedChange {
    Explicit(usize),
    Template(usize),
    Retime(usize),
    Install(usize),
}

#[derive(Clone, Copy)]
pub(crate) enum NamedQuestion {
    // Whether the sample is asked for too.
    Value(bool, usize),
    Track(usize),
    Sets(usize),
    Dump(usize),
}

pub(crate) fn change_of(line: &[u8]) -> Option<NamedChange> {
    let (name, at) = first_word(line);
    match name {
        b"dexplicit" => Some(NamedChange::Explicit(at)),
        b"dtemplate" => Some(NamedChange::Template(at)),
        b"dretime" => Some(NamedChange::Retime(at)),
        b"dinstall" => Some(NamedChange::Install(at)),
        _ => None,
    }
}

pub(crate) fn question_of(line: &[u8]) -> Option<NamedQuestion> {
    let (name, at) = first_word(line);
    match name {
        b"dvalue" => Some(NamedQuestion::Value(false, at)),
        b"dread" => Some(NamedQuestion::Value(true, at)),
        b"dtrack" => Some(NamedQuestion::Track(at)),
        b"dsets" => Some(NamedQuestion::Sets(at)),
        b"ddump" => Some(NamedQuestion::Dump(at)),
        _ => None,
    }
}
