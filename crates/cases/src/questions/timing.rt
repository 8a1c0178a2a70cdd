// The active clip and the clip time at a stage time.
ghost use Rattle.resolver.specs.State.{Made};

use crate::text::{Replies, ended, read_double};
use definitions::StageTime;
use resolver::Resolver;

pub(super) fn active(line: &[u8], at: usize, resolver: Resolver, out: &mut Replies) -> Option<()>
    requires { Made resolver }
{
    let t = read_double(line, at)?;
    ended(line, t.at)?;
    match by_value::active_clip(resolver, StageTime(t.value)) {
        Ok(Some(clip)) => {
            out.put(b"active");
            out.decimal(clip);
            out.put_byte(b'\n');
        }
        Ok(None) => out.put(b"active none\n"),
        Err(why) => out.refused(why),
    }
    Some(())
}

pub(super) fn clip_time(line: &[u8], at: usize, resolver: Resolver, out: &mut Replies) -> Option<()>
    requires { Made resolver }
{
    let t = read_double(line, at)?;
    ended(line, t.at)?;
    match by_value::clip_time(resolver, StageTime(t.value)) {
        Ok(time) => {
            out.put(b"cliptime");
            out.double(time.0);
            out.put_byte(b'\n');
        }
        Err(why) => out.refused(why),
    }
    Some(())
}
