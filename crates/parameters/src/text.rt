// The text of a USSD parameter: coding scheme, string, tail.
ghost use Rattle.parameters.specs.Seen.{ReadsString, ReadsUssdContents, ReadsUssd};

use octets::Span;

// The coding scheme, and the string's places; the tail goes from its end to the end of the part.
#[derive(Clone, Copy)]
pub struct Ussd {
    pub scheme: u8,
    pub start: usize,
    pub end: usize,
}

// The octet string at the front of a part, of so many octets.
#[tactic(auto, unfolding(crate::specs::Parameter::string))]
pub fn read_string(s: &[u8], low: usize, high: usize) -> Option<Span>
    ensures { ReadsString low high s.now result }
{
    let element = elements::read_element(s).ok()?;
    if element.tag != 0x04 {
        return None;
    }
    if !(low..=high).contains(&(element.end - element.start)) {
        return None;
    }
    Some(Span {
        start: element.start,
        end: element.end,
    })
}

// The contents of a USSD parameter.
#[tactic(auto, unfolding(crate::specs::Parameter::ussd_contents, crate::specs::Parameter::text))]
fn read_contents(s: &[u8]) -> Option<Ussd>
    ensures { ReadsUssdContents s.now result }
{
    let scheme = read_string(s, 1, 1)?;
    let string = read_string(&s[scheme.end..], 1, 160)?;
    if !elements::is_row(&s[scheme.end + string.end..]) {
        return None;
    }
    Some(Ussd {
        scheme: s[scheme.start],
        start: scheme.end + string.start,
        end: scheme.end + string.end,
    })
}

// A USSD-Arg or USSD-Res that is all of a part.
#[tactic(auto, unfolding(crate::specs::Parameter::ussd))]
pub fn read_ussd(p: &[u8]) -> Option<Ussd>
    ensures { ReadsUssd p.now result }
{
    let at = super::one::contents_of(p, 0x30)?;
    let text = read_contents(&p[at..])?;
    Some(Ussd {
        scheme: text.scheme,
        start: at + text.start,
        end: at + text.end,
    })
}
