// The kinds of parameter, each decided for a part that should be all of it.
ghost use Rattle.std.specs.Prelude.{◌≡◌};
ghost use Rattle.parameters.specs.Parameter.{is_sound, ussd, guidance, are_digits, password, service_code, ss_for_bs, ss_for_bs_contents, basic_service};
ghost use Rattle.elements.specs.Element.{element};

pub fn is_ussd(p: &[u8]) -> bool
    ensures { result ≡ is_sound (ussd p.now) }
{
    super::text::read_ussd(p).is_some()
}

pub fn is_guidance(p: &[u8]) -> bool
    ensures { result ≡ guidance p.now }
{
    let Some(at) = super::one::contents_of(p, 0x0A) else {
        return false;
    };
    p.len() - at == 1 && p[at] <= 2
}

fn are_digits(s: &[u8]) -> bool
    ensures { result ≡ are_digits s.now }
{
    s.iter().all(|octet| matches!(octet, 0x30..=0x39))
}

// `&`, not `&&`: of a loop that is known to go over four octets the compiler makes four tests.
pub fn is_password(p: &[u8]) -> bool
    ensures { result ≡ password p.now }
{
    let Some(at) = super::one::contents_of(p, 0x12) else {
        return false;
    };
    (p.len() - at == 4) & are_digits(&p[at..])
}

pub fn is_service_code(p: &[u8]) -> bool
    ensures { result ≡ service_code p.now }
{
    let Some(at) = super::one::contents_of(p, 0x04) else {
        return false;
    };
    p.len() - at == 1
}

// What may stand behind the service code of an SS-ForBS: an 82 or 83 standing there has one octet.
fn is_basic_service(s: &[u8]) -> bool
    ensures { result ≡ basic_service (element s.now) }
{
    let Ok(element) = elements::read_element(s) else {
        return true;
    };
    !matches!(element.tag, 0x82 | 0x83) || element.end - element.start == 1
}

#[tactic(auto, unfolding(crate::specs::Parameter::ss_for_bs_contents))]
fn is_ss_for_bs_contents(s: &[u8]) -> bool
    ensures { result ≡ is_sound (ss_for_bs_contents s.now) }
{
    let Some(code) = super::text::read_string(s, 1, 1) else {
        return false;
    };
    is_basic_service(&s[code.end..]) && elements::is_row(&s[code.end..])
}

pub fn is_ss_for_bs(p: &[u8]) -> bool
    ensures { result ≡ ss_for_bs p.now }
{
    let Some(at) = super::one::contents_of(p, 0x30) else {
        return false;
    };
    is_ss_for_bs_contents(&p[at..])
}
