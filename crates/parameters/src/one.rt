// A parameter is one element and nothing behind it.
ghost use Rattle.std.specs.Prelude.{◌≡◌};
ghost use Rattle.parameters.specs.Parameter.{is_sound, one};
ghost use Rattle.parameters.specs.Seen.{ReadsContents};

// Whether a part is one element.
#[tactic(auto, using(crate::proofs::Paths::at_end))]
pub fn is_one(p: &[u8]) -> bool
    ensures { result ≡ is_sound (one p.now) }
{
    let Ok(element) = elements::read_element(p) else {
        return false;
    };
    element.end == p.len()
}

// The contents of the one element that a part is, if it has this tag: they go from the place told to the end of the part.
#[tactic(auto, using(crate::proofs::Paths::at_end))]
pub fn contents_of(p: &[u8], tag: u8) -> Option<usize>
    ensures { ReadsContents tag p.now result }
{
    let element = elements::read_element(p).ok()?;
    if element.end != p.len() || element.tag != tag {
        return None;
    }
    Some(element.start)
}
