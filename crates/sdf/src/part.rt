// A clip's part of the lent times.

ghost use Rattle.std.specs.Prelude.{◌≡◌, ◌<◌, length};
ghost use Rattle.definitions.specs.Samples.{clip_begin, clip_end};

// Each clip's samples begin where those of the clip before end.
pub fn clip_begin(ends: &[u64], clip: u64) -> usize
    requires { clip < length ends.now }
    ensures { result ≡ clip_begin ends.now clip }
{
    if clip == 0 {
        return 0;
    }
    let before = clip as usize - 1;
    ends[before] as usize
}

pub fn clip_end(ends: &[u64], clip: u64) -> usize
    requires { clip < length ends.now }
    ensures { result ≡ clip_end ends.now clip }
{
    let at = clip as usize;
    ends[at] as usize
}
