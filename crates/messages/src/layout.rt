// The first octet and the mandatory part of a message.
ghost use Rattle.std.specs.Prelude.{◌≡◌, ◌≤◌};
ghost use Rattle.messages.specs.Layout.{discriminator, value, flag, sent_first};
ghost use Rattle.messages.specs.Types.{TellsType};
ghost use Rattle.messages.specs.Seen.{ReadsSized, ReadsMandatory};

use octets::Span;

// What octet 2 tells, compared whole.
#[derive(Clone, Copy, Debug, PartialEq, Eq)]
pub enum MessageType {
    ReleaseComplete,
    Facility,
    Register,
    Unknown,
}

// By ranges, each of the 256 named.
impl From<u8> for MessageType {
    ghost from_gives = { TellsType };

    fn from(octet: u8) -> MessageType {
        match octet {
            0x2A => MessageType::ReleaseComplete,
            0x3A => MessageType::Facility,
            0x3B => MessageType::Register,
            0x00..=0x29 | 0x2B..=0x39 | 0x3C..=0xFF => MessageType::Unknown,
        }
    }
}

pub fn discriminator_of(first: u8) -> u8
    ensures { result ≡ discriminator first }
{
    first % 16
}

pub fn value_of(first: u8) -> u8
    ensures { result ≡ value first }
{
    first / 16 % 8
}

pub fn flag_of(first: u8) -> u8
    ensures { result ≡ flag first }
{
    first / 128
}

// The first octet of what is sent in the transaction that is received under this flag.
pub fn sent_first(flag: u8, value: u8) -> u8
    requires { (flag ≤ 1) × (value ≤ 7) }
    ensures { result ≡ sent_first flag value }
{
    128 * (1 - flag) + 16 * value + 11
}

// A length of one plain octet, and so many octets.
#[tactic(auto, using(crate::proofs::Paths::reading), unfolding(crate::specs::Layout::sized))]
fn read_sized(s: &[u8]) -> Option<Span>
    ensures { ReadsSized s.now result }
{
    let n = *s.first()? as usize;
    if s.len() - 1 < n {
        return None;
    }
    Some(Span {
        start: 1,
        end: 1 + n,
    })
}

// The Facility value that must stand behind the type. The type is its octet: a MessageType would ask more of the caller.
#[tactic(auto, using(crate::proofs::Paths::reading), unfolding(crate::specs::Layout::mandatory))]
pub fn read_mandatory(s: &[u8], kind: u8) -> Option<Span>
    ensures { ReadsMandatory kind s.now result }
{
    if kind != 0x3B {
        return read_sized(s);
    }
    if *s.first()? != 0x1C {
        return None;
    }
    let value = read_sized(&s[1..])?;
    Some(Span {
        start: 1 + value.start,
        end: 1 + value.end,
    })
}
