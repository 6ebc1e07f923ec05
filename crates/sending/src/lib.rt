// Messages written at the front of a lent buffer. Their lengths are told beforehand; what stands behind stays.
#![tactic(auto)]

ghost use Rattle.std.specs.Prelude.{◌≡◌, ◌+◌, ◌≤◌, ◌<◌, length};
ghost use Rattle.std.proofs.Math.Option.{none};
ghost use Rattle.octets.specs.Splice.{splice};
ghost use Rattle.places.specs.Seen.{id_seen};
ghost use Rattle.components.specs.Component.{invoke, error, reject};
ghost use Rattle.components.specs.Written.{component_octets, result_for, coded_length, result_length};
ghost use Rattle.writing.specs.Coded.{coded_octets};
ghost use Rattle.messages.specs.Layout.{register, facility_message, release_empty, release_cause, release_facility};

// A REGISTER around an Invoke with a parameter of so many octets.
#[tactic(auto, using(writing::proofs::WriteLaws::sizes))]
pub fn register_length(n: usize) -> usize
    requires { n ≤ 255 }
    ensures { result ≡ 7 + coded_length n }
{
    7 + writing::coded_length(n)
}

// A FACILITY around an Invoke or a Return error.
#[tactic(auto, using(writing::proofs::WriteLaws::sizes))]
pub fn facility_length(n: usize) -> usize
    requires { n ≤ 255 }
    ensures { result ≡ 3 + coded_length n }
{
    3 + writing::coded_length(n)
}

// A FACILITY around a Return result.
#[tactic(auto, using(writing::proofs::WriteLaws::sizes))]
pub fn facility_answer_length(n: usize) -> usize
    requires { n ≤ 255 }
    ensures { result ≡ 3 + result_length n }
{
    3 + writing::answer_length(n)
}

pub fn put_release(buf: &mut [u8], first: u8) -> usize
    requires { 2 ≤ length buf.old }
    ensures writes { buf.new ≡ splice buf.old 0 (release_empty first) }
    ensures next { result ≡ length (release_empty first) }
{
    octets::put(buf, 0, &[first, 0x2A]);
    2
}

pub fn put_release_cause(buf: &mut [u8], first: u8, cause: u8) -> usize
    requires { (cause < 128) × (6 ≤ length buf.old) }
    ensures writes { buf.new ≡ splice buf.old 0 (release_cause first cause) }
    ensures next { result ≡ length (release_cause first cause) }
{
    octets::put(buf, 0, &[first, 0x2A, 0x08, 0x02, 0xE0, 128 + cause]);
    6
}

// RELEASE COMPLETE with a Reject: at most twelve octets.
#[tactic(auto, using(crate::proofs::SendLaws::sent))]
pub fn put_release_reject(buf: &mut [u8], first: u8, id: Option<i8>, tag: u8, problem: u8) -> usize
    requires { 12 ≤ length buf.old }
    ensures writes { buf.new ≡ splice buf.old 0 (release_facility first (component_octets (reject (id_seen id) tag problem))) }
    ensures next { result ≡ length (release_facility first (component_octets (reject (id_seen id) tag problem))) }
{
    octets::put(buf, 0, &[first, 0x2A, 0x1C, writing::reject_length(id)]);
    writing::write_reject(buf, 4, id, tag, problem)
}

// A REGISTER that begins a transaction.
#[tactic(auto, using(crate::proofs::SendLaws::sent))]
pub fn put_register(buf: &mut [u8], first: u8, id: i8, operation: u8, p: &[u8]) -> usize
    requires { (length p.now ≤ 255) × ((7 + coded_length (length p.now) ≤ 255) × (7 + coded_length (length p.now) ≤ length buf.old)) }
    ensures writes { buf.new ≡ splice buf.old 0 (register first (component_octets (invoke id none operation p.now))) }
    ensures next { result ≡ length (register first (component_octets (invoke id none operation p.now))) }
{
    let head = [first, 0x3B, 0x1C, writing::coded_length(p.len()) as u8];
    octets::put(buf, 0, &head);
    let next = writing::write_invoke(buf, 4, id, operation, p);
    octets::put(buf, next, &[0x7F, 0x01, 0x00]);
    next + 3
}

// A FACILITY with an Invoke or a Return error, told by its tag.
#[tactic(auto, using(crate::proofs::SendLaws::sent))]
fn put_coded(buf: &mut [u8], first: u8, tag: u8, id: i8, code: u8, p: &[u8]) -> usize
    requires { (length p.now ≤ 255) × ((3 + coded_length (length p.now) ≤ 255) × (3 + coded_length (length p.now) ≤ length buf.old)) }
    ensures writes { buf.new ≡ splice buf.old 0 (facility_message first (coded_octets tag id code p.now)) }
    ensures next { result ≡ length (facility_message first (coded_octets tag id code p.now)) }
{
    octets::put(buf, 0, &[first, 0x3A, writing::coded_length(p.len()) as u8]);
    writing::write_coded(buf, 3, tag, id, code, p)
}

// A FACILITY with an Invoke.
#[tactic(auto, using(writing::proofs::WriteLaws::held), unfolding(components::specs::Written::contents))]
pub fn put_invoke(buf: &mut [u8], first: u8, id: i8, operation: u8, p: &[u8]) -> usize
    requires { (length p.now ≤ 255) × ((3 + coded_length (length p.now) ≤ 255) × (3 + coded_length (length p.now) ≤ length buf.old)) }
    ensures writes { buf.new ≡ splice buf.old 0 (facility_message first (component_octets (invoke id none operation p.now))) }
    ensures next { result ≡ length (facility_message first (component_octets (invoke id none operation p.now))) }
{
    put_coded(buf, first, 0xA1, id, operation, p)
}

// A FACILITY with a Return error.
#[tactic(auto, using(writing::proofs::WriteLaws::held), unfolding(components::specs::Written::contents))]
pub fn put_error(buf: &mut [u8], first: u8, id: i8, code: u8, p: &[u8]) -> usize
    requires { (length p.now ≤ 255) × ((3 + coded_length (length p.now) ≤ 255) × (3 + coded_length (length p.now) ≤ length buf.old)) }
    ensures writes { buf.new ≡ splice buf.old 0 (facility_message first (component_octets (error id code p.now))) }
    ensures next { result ≡ length (facility_message first (component_octets (error id code p.now))) }
{
    put_coded(buf, first, 0xA3, id, code, p)
}

// A FACILITY with a Return result.
#[tactic(auto, using(crate::proofs::SendLaws::sent))]
pub fn put_answer(buf: &mut [u8], first: u8, id: i8, operation: u8, p: &[u8]) -> usize
    requires { (length p.now ≤ 255) × ((3 + result_length (length p.now) ≤ 255) × (3 + result_length (length p.now) ≤ length buf.old)) }
    ensures writes { buf.new ≡ splice buf.old 0 (facility_message first (component_octets (result_for id operation p.now))) }
    ensures next { result ≡ length (facility_message first (component_octets (result_for id operation p.now))) }
{
    let head = [first, 0x3A, writing::answer_length(p.len()) as u8];
    octets::put(buf, 0, &head);
    writing::write_answer(buf, 3, id, operation, p)
}
