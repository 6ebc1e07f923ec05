// What C gets to see of a component. Places are counted in the whole message; the two octets before `s` are its head.
#![tactic(auto)]

ghost use Rattle.std.specs.Prelude.{◌≡◌, List, ℕ, ◌+◌, ◌≤◌, length, take, drop};
ghost use Rattle.std.proofs.Math.Option.{some};
ghost use Rattle.components.specs.Seen.{shown_seen, TextTold, parameter_length};
ghost use Rattle.octets.specs.Seen.{part_found, PartWithin};
ghost use Rattle.showing.specs.Views.{view_of, component_view, text_view, cause_view, no_component, no_text};

use components::shown::Shown;
use octets::Span;
use parameters::text::Ussd;

// A component; kind is its outer tag, 0 for nothing. A number that is not there is 0; a parameter is empty at its place.
#[repr(C)]
#[derive(Clone, Copy)]
pub struct ComponentView {
    pub kind: u8,
    pub has_id: bool,
    pub id: i8,
    pub has_linked: bool,
    pub linked: i8,
    pub has_operation: bool,
    pub operation: u8,
    pub code: u8,
    pub tag: u8,
    pub problem: u8,
    pub parameter: Span,
}

// The text of a USSD parameter.
#[repr(C)]
#[derive(Clone, Copy)]
pub struct TextView {
    pub is_there: bool,
    pub scheme: u8,
    pub string: Span,
    pub tail: Span,
}

// The contents of a cause element.
#[repr(C)]
#[derive(Clone, Copy)]
pub struct CauseView {
    pub is_there: bool,
    pub contents: Span,
}

// The numbers of a component, whatever its parameter says.
fn view_of(shown: Shown, parameter: Span) -> ComponentView
    ensures { (s : List ℕ) → result ≡ view_of (shown_seen s shown) parameter }
{
    match shown {
        Shown::Invoke {
            id,
            linked,
            operation,
            ..
        } => ComponentView {
            kind: 0xA1,
            has_id: true,
            id,
            has_linked: linked.is_some(),
            linked: linked.unwrap_or(0),
            has_operation: true,
            operation,
            parameter,
            ..no_component()
        },
        Shown::Result { id, operation, .. } => ComponentView {
            kind: 0xA2,
            has_id: true,
            id,
            has_operation: operation.is_some(),
            operation: operation.unwrap_or(0),
            parameter,
            ..no_component()
        },
        Shown::Error { id, code, .. } => ComponentView {
            kind: 0xA3,
            has_id: true,
            id,
            code,
            parameter,
            ..no_component()
        },
        Shown::Reject { id, tag, problem } => ComponentView {
            kind: 0xA4,
            has_id: id.is_some(),
            id: id.unwrap_or(0),
            tag,
            problem,
            parameter,
            ..no_component()
        },
    }
}

pub fn no_component() -> ComponentView
    ensures { result ≡ no_component }
{
    ComponentView {
        kind: 0,
        has_id: false,
        id: 0,
        has_linked: false,
        linked: 0,
        has_operation: false,
        operation: 0,
        code: 0,
        tag: 0,
        problem: 0,
        parameter: Span { start: 0, end: 0 },
    }
}

// A component whose Facility value ends at a place of s.
pub fn component_view(s: &[u8], shown: Shown, end: usize) -> ComponentView
    requires { (parameter_length shown ≤ end) × (end ≤ length s.now) }
    ensures { result ≡ component_view (2 + length s.now) (some (record { component = shown_seen (take end s.now) shown; behind = drop end s.now })) }
{
    let n = shown.parameter_length();
    let parameter = Span {
        start: 2 + end - n,
        end: 2 + end,
    };
    view_of(shown, parameter)
}

pub fn no_text() -> TextView
    ensures { result ≡ no_text }
{
    TextView {
        is_there: false, // no text
        scheme: 0,
        string: Span { start: 0, end: 0 },
        tail: Span { start: 0, end: 0 },
    }
}

// The text that a component is told with, whose Facility value ends at a place of s.
pub fn text_view(s: &[u8], shown: Shown, end: usize, text: Option<Ussd>) -> TextView
    requires { ((parameter_length shown ≤ end) × (end ≤ length s.now)) × TextTold (shown_seen (take end s.now) shown) text }
    ensures { result ≡ text_view (2 + length s.now) (some (record { component = shown_seen (take end s.now) shown; behind = drop end s.now })) }
{
    let Some(told) = text else {
        return no_text();
    };
    let at = end - shown.parameter_length();
    TextView {
        is_there: true,
        scheme: told.scheme,
        string: Span {
            start: 2 + at + told.start,
            end: 2 + at + told.end,
        },
        tail: Span {
            start: 2 + at + told.end,
            end: 2 + end,
        },
    }
}

// The part of a cause element, found in s.
pub fn cause_view(s: &[u8], cause: Option<Span>) -> CauseView
    requires { PartWithin s.now cause }
    ensures { result ≡ cause_view (2 + length s.now) (part_found s.now cause) }
{
    let Some(part) = cause else {
        return CauseView {
            is_there: false,
            contents: Span { start: 0, end: 0 },
        };
    };
    CauseView {
        is_there: true, // an 08, maybe empty
        contents: Span {
            start: 2 + part.start,
            end: 2 + part.end,
        },
    }
}
