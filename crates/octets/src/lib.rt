// Parts of lent octets, and octets written into a lent buffer.
#![tactic(auto)]

ghost use Rattle.std.specs.Prelude.{◌≡◌, ◌+◌, ◌≤◌, min, length};
ghost use Rattle.octets.specs.Part.{between, start_of, place_at};
ghost use Rattle.octets.specs.Splice.{splice};

// From one octet up to, not including, another. Who looks for a part answers `Option<Span>`; C sees it as it stands.
#[repr(C)]
#[derive(Clone, Copy)]
pub struct Span {
    pub start: usize,
    pub end: usize,
}

// The octets from one place up to another; places past the end stand for the end.
pub fn part(s: &[u8], from: usize, to: usize) -> &[u8]
    ensures octets { result.now ≡ between from to s.now }
    ensures place { result.ref_ptr ≡ place_at (start_of from to s.now) s.entry.ref_ptr }
{
    let end = to.min(s.len());
    let start = from.min(end);
    &s[start..end]
}

// Copies src into the buffer at a place; what stands before and behind stays.
pub fn put(buf: &mut [u8], at: usize, src: &[u8])
    requires { at + length src.now ≤ length buf.old }
    ensures { buf.new ≡ splice buf.old at src.now }
{
    for (j, octet) in src.iter().enumerate() {
        buf[at + j] = *octet;
    }
}
