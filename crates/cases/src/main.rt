// Answers the case text of standard input on standard output.

#![tactic(auto)]

mod changes;
mod examinings;
mod help;
mod lines;
mod named;
mod prepared;
mod questions;
mod setless;
mod text;
mod track_hash;

ghost use Rattle.std.specs.Prelude.{◌≡◌, None, length};
ghost use Rattle.resolver.specs.State.{Made, left};
ghost use Rattle.cases.specs.Prepared.{MadeSlots, Looking, Installing};
ghost use Rattle.cases.specs.Sessions.{Stays};

use crate::lines::calls::{Call, Change, Question, Slotted};
use crate::lines::held::{
    ALL_ENDS, ALL_MARKS, ALL_SAMPLES, DEFAULTS, ENTRIES, KNOT_ENTRIES, NAMES, SHAPES,
};
use crate::lines::input::Buffer;
use crate::lines::lent::Lent;
use crate::lines::limits::LINE;
use crate::lines::{calls, input, lent, named_calls, order, parted, told};
use crate::prepared::Slots;
use crate::text::{Replies, word};
use definitions::refusal::Refusal;
use resolver::Resolver;
use std::io::Stdin;

// What a line leaves for the next one: how many lines there were, whether the last one began a case, the samples that are lent,
// and what stands.
#[derive(Clone, Copy)]
struct Session {
    pub lines: u64,
    pub begun: bool,
    pub lent: Lent,
    pub resolver: Resolver,
}

// Nothing is lent and no set stands.
fn begin(lines: u64) -> Session
    ensures { Made result.resolver }
{
    Session {
        lines,
        begun: true,
        lent: lent::none(),
        resolver: by_value::fresh(),
    }
}

// A session and the slots, after a line with a slot.
#[derive(Clone, Copy)]
struct Held {
    pub session: Session,
    pub slots: Slots,
}

// One line more.
fn counted(session: Session) -> Session
    requires { Made session.resolver }
    ensures { Stays session result }
{
    Session {
        lines: session.lines.wrapping_add(1),
        begun: false,
        ..session
    }
}

// Answers line by line until the input ends. Nothing says that it does, so the turns are bounded by a number that no run uses
// up.
fn serve(
    from: Stdin,
    input: &mut [u8],
    out: &mut Replies,
    ends: &mut [u64],
    times: &mut [f64],
    values: &mut [f64],
    marks: &mut [u8],
    starts: &mut [f64; ENTRIES],
    numbers: &mut [u64; ENTRIES],
    xs: &mut [f64; KNOT_ENTRIES],
    ys: &mut [f64; KNOT_ENTRIES],
    blocks: &mut [f64; ENTRIES],
    defaults: &mut [f64; DEFAULTS],
    counts: &mut [u64; SHAPES],
    bytes: &mut [u8; NAMES],
) {
    let mut session = begin(0);
    let mut slots = prepared::none();
    let mut buffer = input::empty();
    named::renew(starts, numbers, xs, ys, blocks, defaults, counts, bytes);
    for _ in 0..u64::MAX {
        let to = input::line_end(input, buffer);
        if to < buffer.end {
            let line = input::line(input, buffer, to);
            buffer = input::past(buffer, to);
            if let Some(call) = calls::slotted_of(line) {
                let held = with_slot(call, line, session, slots, out);
                session = held.session;
                slots = held.slots;
            } else if let Some(call) = named_calls::change_of(line) {
                session = named::change(
                    call, line, session, slots, starts, numbers, xs, ys, blocks, defaults, counts,
                    bytes, out,
                );
            } else if let Some(call) = named_calls::question_of(line) {
                session = named::ask(
                    call, line, session, starts, numbers, xs, ys, blocks, defaults, counts, bytes,
                    ends, times, values, marks, out,
                );
            } else {
                session = run(line, session, ends, times, values, marks, out);
                if session.begun {
                    slots = prepared::none();
                    named::renew(starts, numbers, xs, ys, blocks, defaults, counts, bytes);
                }
            }
        } else {
            out.flush();
            if buffer.ended {
                return;
            }
            let more = input::refill(from, input, buffer);
            tell_too_long(session, buffer, more, out);
            buffer = more;
        }
    }
}

// A line that was found to be longer than the buffer is not readable.
fn tell_too_long(session: Session, before: Buffer, after: Buffer, out: &mut Replies) {
    if after.skips && !before.skips {
        told::too_long(out.told, session.lines.wrapping_add(1));
        out.unreadable();
    }
}

// Answers one line.
fn run(
    line: &[u8],
    session: Session,
    ends: &mut [u64],
    times: &mut [f64],
    values: &mut [f64],
    marks: &mut [u8],
    out: &mut Replies,
) -> Session
    requires { Made session.resolver }
    ensures { Made result.resolver }
{
    let session = counted(session);
    let lent = session.lent;
    match calls::call_of(line) {
        Call::Nothing => session,
        Call::Unreadable => unreadable(line, session, out),
        Call::Case(at) => {
            out.case_named(word(line, at));
            begin(session.lines)
        }
        Call::Samples(at) => {
            let read = lent::lend(line, at, lent, ends, times, values, marks);
            lend(read, line, session, out)
        }
        Call::Order(at) => lend(order::lend(line, at, lent, ends, marks), line, session, out),
        Call::Parted(at) => {
            let read = parted::lend(line, at, lent, ends, times, values, marks);
            lend(read, line, session, out)
        }
        Call::Changing(kind, at) => change(kind, line, at, session, out),
        Call::Asking(kind, at) => ask(kind, line, at, session, ends, times, values, marks, out),
    }
}

// The line could not be read: it changes nothing, and is told.
fn unreadable(line: &[u8], session: Session, out: &mut Replies) -> Session
    requires { Made session.resolver }
    ensures { Stays session result }
{
    told::unreadable(out.told, session.lines, line);
    out.unreadable();
    session
}

// What a line lends from now on.
fn lend(read: Option<Lent>, line: &[u8], session: Session, out: &mut Replies) -> Session
    requires { Made session.resolver }
    ensures made { Made result.resolver }
    ensures unread { read ≡ None → Stays session result }
{
    match read {
        Some(lent) => Session { lent, ..session },
        None => unreadable(line, session, out),
    }
}

fn ask(
    kind: Question,
    line: &[u8],
    at: usize,
    session: Session,
    ends: &[u64],
    times: &[f64],
    values: &[f64],
    marks: &[u8],
    out: &mut Replies,
) -> Session
    requires { Made session.resolver }
    ensures { Stays session result }
{
    let answered = crate::questions::ask(
        kind,
        line,
        at,
        session.resolver,
        session.lent,
        ends,
        times,
        values,
        marks,
        out,
    );
    if answered.is_none() {
        return unreadable(line, session, out);
    }
    session
}

fn change(kind: Change, line: &[u8], at: usize, session: Session, out: &mut Replies) -> Session
    requires { Made session.resolver }
    ensures { Made result.resolver }
{
    let Some(told) = crate::changes::change(kind, line, at, session.resolver) else {
        return unreadable(line, session, out);
    };
    changed(told, session, out)
}

// The reply is told. Where a number refuses the call, what stood still stands.
fn changed(told: Result<Resolver, Refusal>, session: Session, out: &mut Replies) -> Session
    ensures lent { result.lent ≡ session.lent }
    ensures stands { result.resolver ≡ left session.resolver told }
{
    out.changed(told.err());
    Session {
        resolver: told.unwrap_or(session.resolver),
        ..session
    }
}

// Answers a line with a slot.
fn with_slot(call: Slotted, line: &[u8], session: Session, slots: Slots, out: &mut Replies) -> Held
    requires { (Made session.resolver) × (MadeSlots slots) }
    ensures { (Made result.session.resolver) × (MadeSlots result.slots) }
{
    let session = counted(session);
    match call {
        Slotted::Examine(at) => examine(line, at, session, slots, out),
        Slotted::Prepared(at) => tell(line, at, session, slots, out),
        Slotted::Install(at) => install(line, at, session, slots, out),
    }
}

// A line with a slot that could not be read: it changes nothing, no slot either, and is told.
fn not_read(line: &[u8], session: Session, slots: Slots, out: &mut Replies) -> Held
    requires { Made session.resolver }
    ensures { Stays session result.session × (result.slots ≡ slots) }
{
    Held {
        session: unreadable(line, session, out),
        slots,
    }
}

// The prepared set is put in the slot, unless it is refused; then the slot is as it was.
fn examine(line: &[u8], at: usize, session: Session, slots: Slots, out: &mut Replies) -> Held
    requires { (Made session.resolver) × (MadeSlots slots) }
    ensures { Looking session result }
{
    let Some(looked) = examinings::examine(line, at) else {
        return not_read(line, session, slots, out);
    };
    out.changed(looked.prepared.err());
    let Ok(set) = looked.prepared else {
        return Held { session, slots };
    };
    let slots = prepared::put(slots, looked.slot, set);
    Held { session, slots }
}

// The set of a slot.
fn tell(line: &[u8], at: usize, session: Session, slots: Slots, out: &mut Replies) -> Held
    requires fact_1 { Made session.resolver }
    requires fact_2 { MadeSlots slots }
    ensures { Looking session result }
{
    let Some(slot) = prepared::last_slot(line, at) else {
        return not_read(line, session, slots, out);
    };
    match prepared::get(slots, slot) {
        Some(set) => out.put_set(&standing::installed(set)),
        None => out.empty(),
    }
    Held { session, slots }
}

// The set of a slot takes the place of the standing one; where the slot has none, no call is made.
fn install(line: &[u8], at: usize, session: Session, slots: Slots, out: &mut Replies) -> Held
    requires fact_1 { Made session.resolver }
    requires fact_2 { MadeSlots slots }
    ensures { Installing session slots result }
{
    let Some(slot) = prepared::last_slot(line, at) else {
        return not_read(line, session, slots, out);
    };
    let Some(set) = prepared::get(slots, slot) else {
        out.empty();
        return Held { session, slots };
    };
    out.changed(None);
    let resolver = by_value::install(session.resolver, set);
    let session = Session {
        resolver,
        ..session
    };
    Held { session, slots }
}

// Of `[0; LINE]` itself, without the parameter, the check did not come to an end in 70 seconds.
fn zeros<const N: usize>() -> [u8; N]
    ensures { N ≡ length result }
{
    [0; N]
}

// Room for a line of half a million bytes.
fn input_buffer() -> [u8; LINE]
    ensures { 524288 ≡ length result }
{
    zeros()
}

fn main(rt: HostRuntime) {
    if help::has_argument(&rt, 1) {
        help::answer(&rt);
        return;
    }
    let mut input = input_buffer();
    let mut out = Replies::new(rt.stdout(), rt.stderr());
    let mut ends = [0u64; ALL_ENDS];
    let mut times = [0.0f64; ALL_SAMPLES];
    let mut values = [0.0f64; ALL_SAMPLES];
    let mut marks = [0u8; ALL_MARKS];
    let mut starts = [0.0f64; ENTRIES];
    let mut numbers = [0u64; ENTRIES];
    let mut xs = [0.0f64; KNOT_ENTRIES];
    let mut ys = [0.0f64; KNOT_ENTRIES];
    let mut blocks = [0.0f64; ENTRIES];
    let mut defaults = [0.0f64; DEFAULTS];
    let mut counts = [0u64; SHAPES];
    let mut bytes = [0u8; NAMES];
    serve(
        rt.stdin(),
        &mut input,
        &mut out,
        &mut ends,
        &mut times,
        &mut values,
        &mut marks,
        &mut starts,
        &mut numbers,
        &mut xs,
        &mut ys,
        &mut blocks,
        &mut defaults,
        &mut counts,
        &mut bytes,
    );
}
