// The program's arguments: `--help` alone is known.
use std::env::{Env, FillError};

fn calls(rt: &impl Print) {
    let _ = rt.write_all(
        b"usage: cases < CALLS

Answers the case text of standard input on standard output: one line a call, one line a reply.

  case NAME                                         a fresh resolver, nothing lent
  explicit CLIPS st L sc L kx L ky L bl L def MARK VALUE flag 0/1
  template BYTES START END STRIDE OFFSET bl L def MARK VALUE flag 0/1
  retime OFFSET SCALE
  samples ends N e.. t L v L m N m..                lent with every later question of the case; no reply
  dump                                              the standing set
  active T | cliptime T | value T                   at a stage time
  read T                                            the value, with the clip and the place of its sample
  times [SLOTS] | ssamples [SLOTS] | untimed
  track [SLOTS] | trackhash
  name BYTES T [SLOTS]
  normalize t L v L m N m.. [SLOTS]
  cliptimes START END STRIDE OFFSET [SLOTS]         a template's clip times
  examine SLOT explicit .. | examine SLOT template ..   into a slot, 0 to 3, with the arguments of the acceptance
  prepared SLOT                                     the slot's set
  install SLOT                                      the slot's set on the resolver
  keycmp BITS BITS                                  before, same or after in the total order
",
    );
}

fn dispatcher(rt: &impl Print) {
    let _ = rt.write_all(
        b"
The dispatcher, with up to 16 sets under names:

  dexplicit NAME 0/1 .. | dtemplate NAME 0/1 ..     whether it declares, then the arguments of the acceptance
  dinstall NAME 0/1 SLOT                            the slot's set under a name
  dretime NAME OFFSET SCALE
  order none | order ends N e.. bytes BYTES         lent with every later question to the dispatcher; no reply
  dsamples counts N n.. ends N e.. t L v L m N m..  the same: of all sets, in the order of acceptance
  dvalue T | dread T | dtrack [SLOTS]               with the answering set's place in the order
  dsets | ddump NAME                                the sets' names, and the set of a name
",
    );
}

fn words(rt: &impl Print) {
    let _ = rt.write_all(
        b"
A double (VALUE, START, T, ..) is its bits, 16 hex digits (3ff0000000000000 is 1), or a decimal of at most 15 digits (-2.5).
BITS are a double too, a NaN with the sign and the payload that are written.
L is a list of doubles: their count, and that many. CLIPS, N, MARK, e, m, n and SLOTS are whole numbers in decimal.
BYTES and NAME (but of case, any word) are hex pairs, - for none. A template's OFFSET may be none. A ; begins a comment. Replies give doubles by their bits.

A call that is refused is answered 'refused N'. A line that cannot be read is answered 'unreadable', changes nothing, and is
told on standard error with its number and its first word that cannot be read. The whole text: docs/CASES.md.
",
    );
}

// Whether the program has an argument at this place; its name stands at 0.
pub(crate) fn has_argument(rt: &impl Env, i: usize) -> bool {
    let mut word = [0u8; 64];
    !matches!(rt.arg(i, &mut word), Err(FillError::NotPresent))
}

// The first argument is `--help`.
fn asks_help(rt: &impl Env) -> bool {
    let mut word = [0u8; 64];
    rt.arg(1, &mut word)
        .is_ok_and(|n| &word[..n] == b"--help".as_slice())
}

// Answers the arguments behind the program's name. A write that fails is passed over.
pub(crate) fn answer(rt: &(impl Env + Print + Eprint)) {
    if asks_help(rt) && !has_argument(rt, 2) {
        calls(rt);
        dispatcher(rt);
        words(rt);
        return;
    }
    let _ = rt.eprintln(
        "cases: it takes no argument but --help, and reads calls from standard input",
    );
}
