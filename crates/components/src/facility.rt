// A Facility value: empty, one component, or the first fault from left to right.
ghost use Rattle.std.specs.Prelude.{◌≡◌};
ghost use Rattle.octets.specs.Part.{place_at};
ghost use Rattle.components.specs.Facility.{facility, inside, after_tag, parameter_in, parameter_start};
ghost use Rattle.components.specs.Seen.{ReadsKind, ReadsInside, ReadsFinding, outer_fault};

use super::kinds;
use super::shown::Shown;
use places::problems::Problem;

// Why a Facility value shows no component: a general problem, with the id if it was read, or a cause without a component.
#[derive(Clone, Copy)]
pub enum Unread {
    General { problem: Problem, id: Option<i8> },
    LeftOver,
    FaultyReject,
}

// What follows an id, by the outer tag.
#[tactic(auto, unfolding(crate::specs::Facility::after_tag))]
fn read_after_id(s: &[u8], tag: u8, id: i8) -> Result<Shown, Problem>
    ensures { ReadsKind (after_tag tag id s.now) s.now result }
{
    match tag {
        0xA1 => kinds::read_invoke(s, id),
        0xA2 => kinds::read_result(s, id),
        _ => kinds::read_error(s, id),
    }
}

// The contents under an outer tag.
#[tactic(auto, unfolding(crate::specs::Facility::inside, crate::specs::Facility::component))]
fn read_inside(s: &[u8], tag: u8) -> Result<Shown, Unread>
    ensures { ReadsInside (inside tag s.now) s.now result }
{
    if tag == 0xA4 {
        return kinds::read_reject(s).map_err(|_| Unread::FaultyReject);
    }
    let single = places::read_single(s, 0x02).map_err(|problem| Unread::General {
        problem,
        id: None,
    })?;
    let id = codes::ids::id_of(single.octet);
    read_after_id(&s[single.end..], tag, id).map_err(|problem| Unread::General {
        problem,
        id: Some(id),
    })
}

// The outer length of a component that can't be read.
fn outer_fault(tag: u8) -> Unread
    ensures { result ≡ outer_fault tag }
{
    if tag == 0xA4 {
        return Unread::FaultyReject;
    }
    Unread::General {
        problem: Problem::BadlyStructured,
        id: None,
    }
}

// What a Facility value says: nothing if it is empty.
#[tactic(auto, using(places::proofs::Left::left_some, crate::proofs::Paths::shown_end), unfolding(crate::specs::Facility::facility))]
pub fn read_facility(s: &[u8]) -> Result<Option<Shown>, Unread>
    ensures { ReadsFinding (facility s.now) s.now result }
{
    let Some(&tag) = s.first() else {
        return Ok(None);
    };
    if !matches!(tag, 0xA1..=0xA4) {
        return Err(Unread::General {
            problem: Problem::UnrecognizedComponent,
            id: None,
        });
    }
    let Ok(element) = elements::read_element(s) else {
        return Err(outer_fault(tag));
    };
    if element.end != s.len() {
        return Err(Unread::LeftOver);
    }
    read_inside(&s[element.start..], tag).map(Some)
}

// The parameter of the component that a Facility value shows: its last octets, none of them where there is no parameter.
#[tactic(auto, using(crate::proofs::Paths::shown))]
pub fn parameter_of(s: &[u8]) -> &[u8]
    ensures octets { result.now ≡ parameter_in (facility s.now) }
    ensures place { result.ref_ptr ≡ place_at (parameter_start s.now) s.entry.ref_ptr }
{
    let Ok(Some(shown)) = read_facility(s) else {
        return &s[s.len()..];
    };
    &s[s.len() - shown.parameter_length()..]
}
