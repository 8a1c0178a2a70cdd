// The lines that call the dispatcher. Its sets stand in eight lists, beside the resolver.
ghost use Rattle.resolver.specs.State.{Made};
ghost use Rattle.pages.specs.Pages as Pages;
ghost use Rattle.pages.specs.Pages.{pages};
ghost use Rattle.cases.specs.Prepared.{MadeSlots};
ghost use Rattle.cases.specs.Sessions.{Stays};

use crate::Session;
use crate::changes::named::Said;
use crate::lines::held::{DEFAULTS, ENTRIES, KNOT_ENTRIES, NAMES, SHAPES};
use crate::lines::named_calls::{NamedChange, NamedQuestion};
use crate::prepared::Slots;
use crate::text::Replies;

// No set stands under a name.
pub(crate) fn renew(
    starts: &mut [f64; ENTRIES],
    numbers: &mut [u64; ENTRIES],
    xs: &mut [f64; KNOT_ENTRIES],
    ys: &mut [f64; KNOT_ENTRIES],
    blocks: &mut [f64; ENTRIES],
    defaults: &mut [f64; DEFAULTS],
    counts: &mut [u64; SHAPES],
    bytes: &mut [u8; NAMES],
)
    ensures { Pages.Made (pages starts.new numbers.new xs.new ys.new blocks.new defaults.new counts.new bytes.new) }
{
    pages::fresh(starts, numbers, xs, ys, blocks, defaults, counts, bytes);
}

// Answers a line that may change the dispatcher.
pub(crate) fn change(
    call: NamedChange,
    line: &[u8],
    session: Session,
    slots: Slots,
    starts: &mut [f64; ENTRIES],
    numbers: &mut [u64; ENTRIES],
    xs: &mut [f64; KNOT_ENTRIES],
    ys: &mut [f64; KNOT_ENTRIES],
    blocks: &mut [f64; ENTRIES],
    defaults: &mut [f64; DEFAULTS],
    counts: &mut [u64; SHAPES],
    bytes: &mut [u8; NAMES],
    out: &mut Replies,
) -> Session
    requires fact_1 { Made session.resolver }
    requires fact_2 { MadeSlots slots }
    requires fact_3 { Pages.Made (pages starts.old numbers.old xs.old ys.old blocks.old defaults.old counts.old bytes.old) }
    ensures fact_1 { Stays session result }
    ensures fact_2 { Pages.Made (pages starts.new numbers.new xs.new ys.new blocks.new defaults.new counts.new bytes.new) }
{
    let said = crate::changes::named::change(
        call, line, slots, starts, numbers, xs, ys, blocks, defaults, counts, bytes,
    );
    told(said, line, crate::counted(session), out)
}

fn told(said: Option<Said>, line: &[u8], session: Session, out: &mut Replies) -> Session
    requires { Made session.resolver }
    ensures { Stays session result }
{
    match said {
        None => return crate::unreadable(line, session, out),
        Some(Said::Empty) => out.empty(),
        Some(Said::Replied(told)) => out.changed(told.err()),
    }
    session
}

// Answers a question to the dispatcher.
pub(crate) fn ask<'a>(
    call: NamedQuestion,
    line: &[u8],
    session: Session,
    starts: &'a [f64; ENTRIES],
    numbers: &'a [u64; ENTRIES],
    xs: &'a [f64; KNOT_ENTRIES],
    ys: &'a [f64; KNOT_ENTRIES],
    blocks: &'a [f64; ENTRIES],
    defaults: &'a [f64; DEFAULTS],
    counts: &'a [u64; SHAPES],
    bytes: &'a [u8; NAMES],
    ends: &[u64],
    times: &[f64],
    values: &[f64],
    marks: &[u8],
    out: &mut Replies,
) -> Session
    requires fact_1 { Made session.resolver }
    requires fact_2 { Pages.Made (pages starts.now numbers.now xs.now ys.now blocks.now defaults.now counts.now bytes.now) }
    ensures { Stays session result }
{
    let session = crate::counted(session);
    let answered = crate::questions::named::ask(
        call,
        line,
        starts,
        numbers,
        xs,
        ys,
        blocks,
        defaults,
        counts,
        bytes,
        session.lent,
        ends,
        times,
        values,
        marks,
        out,
    );
    if answered.is_none() {
        return crate::unreadable(line, session, out);
    }
    session
}
