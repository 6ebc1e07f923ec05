// Writing a component at a place of a lent buffer. Its length is told beforehand, so that nothing is written in vain.
#![tactic(auto)]

ghost use Rattle.std.specs.Prelude.{◌≡◌, ◌++◌, ◌+◌, ◌≤◌, ◌<◌, length};
ghost use Rattle.std.proofs.Math.Option.{none};
ghost use Rattle.octets.specs.Splice.{splice};
ghost use Rattle.elements.specs.Element.{written};
ghost use Rattle.places.specs.Seen.{id_seen};
ghost use Rattle.components.specs.Component.{invoke, error, reject};
ghost use Rattle.components.specs.Written.{component_octets, result_for, enclosed_length, coded_length, result_length, reject_length};
ghost use Rattle.writing.specs.Coded.{coded_octets};

// An element with so many octets of contents.
#[tactic(auto, using(crate::proofs::WriteLaws::sizes))]
fn enclosed_length(n: usize) -> usize
    requires { n < 65536 }
    ensures { result ≡ enclosed_length n }
{
    elements::header_length(n) + n
}

// An Invoke or a Return error with a parameter of so many octets.
pub fn coded_length(n: usize) -> usize
    requires { n ≤ 255 }
    ensures { result ≡ coded_length n }
{
    enclosed_length(6 + n)
}

// A Return result with a parameter of so many octets.
#[tactic(auto, using(crate::proofs::WriteLaws::sizes))]
pub fn answer_length(n: usize) -> usize
    requires { n ≤ 255 }
    ensures { result ≡ result_length n }
{
    if n == 0 {
        return enclosed_length(3);
    }
    enclosed_length(3 + enclosed_length(3 + n))
}

// An element whose contents are given in two pieces; answers the place behind it.
fn write_enclosed(buf: &mut [u8], at: usize, tag: u8, head: &[u8], tail: &[u8]) -> usize
    requires { (length (head.now ++ tail.now) < 65536) × (at + length (written tag (head.now ++ tail.now)) ≤ length buf.old) }
    ensures writes { buf.new ≡ splice buf.old at (written tag (head.now ++ tail.now)) }
    ensures next { result ≡ at + length (written tag (head.now ++ tail.now)) }
{
    let next = elements::write_header(buf, at, tag, head.len() + tail.len());
    octets::put(buf, next, head);
    octets::put(buf, next + head.len(), tail);
    next + head.len() + tail.len()
}

// An Invoke without a linked id, or a Return error: under its tag an id, a code and a parameter.
pub fn write_coded(buf: &mut [u8], at: usize, tag: u8, id: i8, code: u8, p: &[u8]) -> usize
    requires { (length p.now ≤ 255) × (at + length (coded_octets tag id code p.now) ≤ length buf.old) }
    ensures writes { buf.new ≡ splice buf.old at (coded_octets tag id code p.now) }
    ensures next { result ≡ at + length (coded_octets tag id code p.now) }
{
    let head = [0x02, 0x01, codes::ids::octet_of(id), 0x02, 0x01, code];
    write_enclosed(buf, at, tag, &head, p)
}

// An Invoke; no linked id is written.
#[tactic(auto, using(crate::proofs::WriteLaws::held), unfolding(components::specs::Written::contents))]
pub fn write_invoke(buf: &mut [u8], at: usize, id: i8, operation: u8, p: &[u8]) -> usize
    requires { (length p.now ≤ 255) × (at + length (component_octets (invoke id none operation p.now)) ≤ length buf.old) }
    ensures writes { buf.new ≡ splice buf.old at (component_octets (invoke id none operation p.now)) }
    ensures next { result ≡ at + length (component_octets (invoke id none operation p.now)) }
{
    write_coded(buf, at, 0xA1, id, operation, p)
}

// A Return error.
#[tactic(auto, using(crate::proofs::WriteLaws::held), unfolding(components::specs::Written::contents))]
pub fn write_error(buf: &mut [u8], at: usize, id: i8, code: u8, p: &[u8]) -> usize
    requires { (length p.now ≤ 255) × (at + length (component_octets (error id code p.now)) ≤ length buf.old) }
    ensures writes { buf.new ≡ splice buf.old at (component_octets (error id code p.now)) }
    ensures next { result ≡ at + length (component_octets (error id code p.now)) }
{
    write_coded(buf, at, 0xA3, id, code, p)
}

// A Reject, with the id if there is one.
#[tactic(auto, using(crate::proofs::WriteLaws::held), unfolding(components::specs::Written::contents))]
pub fn write_reject(buf: &mut [u8], at: usize, id: Option<i8>, tag: u8, problem: u8) -> usize
    requires { at + length (component_octets (reject (id_seen id) tag problem)) ≤ length buf.old }
    ensures writes { buf.new ≡ splice buf.old at (component_octets (reject (id_seen id) tag problem)) }
    ensures next { result ≡ at + length (component_octets (reject (id_seen id) tag problem)) }
{
    let told = [tag, 0x01, problem];
    match id {
        None => write_enclosed(buf, at, 0xA4, &[0x05, 0x00], &told),
        Some(id) => {
            let named = [0x02, 0x01, codes::ids::octet_of(id)];
            write_enclosed(buf, at, 0xA4, &named, &told)
        }
    }
}

// A Return result; without a parameter it has no 30.
#[tactic(auto, using(crate::proofs::WriteLaws::answers))]
pub fn write_answer(buf: &mut [u8], at: usize, id: i8, operation: u8, p: &[u8]) -> usize
    requires { (length p.now ≤ 255) × (at + length (component_octets (result_for id operation p.now)) ≤ length buf.old) }
    ensures writes { buf.new ≡ splice buf.old at (component_octets (result_for id operation p.now)) }
    ensures next { result ≡ at + length (component_octets (result_for id operation p.now)) }
{
    let head = [0x02, 0x01, codes::ids::octet_of(id)];
    if p.is_empty() {
        return write_enclosed(buf, at, 0xA2, &head, p);
    }
    let inner = 3 + p.len();
    let next = elements::write_header(buf, at, 0xA2, 3 + enclosed_length(inner));
    octets::put(buf, next, &head);
    let told = [0x02, 0x01, operation];
    write_enclosed(buf, next + 3, 0x30, &told, p)
}

// A Reject has seven octets, or eight with an id.
pub fn reject_length(id: Option<i8>) -> u8
    ensures { result ≡ reject_length (id_seen id) }
{
    match id {
        None => 7,
        Some(_) => 8,
    }
}
