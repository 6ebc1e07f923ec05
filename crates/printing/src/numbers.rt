// Words and numbers at a place of a lent page; each answers the place behind.
ghost use Rattle.std.specs.Prelude.{◌≡◌, ◌+◌, ◌≤◌, ◌<◌, length};
ghost use Rattle.octets.specs.Splice.{splice};
ghost use Rattle.printing.specs.Lent.{Wrote, WroteAt};
ghost use Rattle.printing.specs.Numbers.{decimal, id_text, glyph, pair};

pub fn put_words(page: &mut [u8], at: usize, words: &[u8]) -> usize
    requires { at + length words.now ≤ length page.old }
    ensures { Wrote page.old at words.now page.new result }
{
    octets::put(page, at, words);
    at + words.len()
}

pub fn put_decimal(page: &mut [u8], at: usize, n: u64) -> usize
    requires { at + 20 ≤ length page.old }
    ensures { WroteAt 20 page.old at (decimal n) page.new result }
{
    let mut digits = [0u8; 20];
    let count = io::decimal(n, &mut digits);
    put_words(page, at, &digits[..count])
}

pub fn put_id(page: &mut [u8], at: usize, id: i8) -> usize
    requires { at + 21 ≤ length page.old }
    ensures { WroteAt 21 page.old at (id_text id) page.new result }
{
    let octet = codes::ids::octet_of(id) as u64;
    if octet < 128 {
        put_decimal(page, at, octet)
    } else {
        let next = put_words(page, at, b"-");
        put_decimal(page, next, 256 - octet)
    }
}

fn glyph_of(d: u8) -> u8
    requires { d < 16 }
    ensures { result ≡ glyph d }
{
    if d < 10 { 48 + d } else { 55 + d }
}

// An octet as two capital hex digits.
#[tactic(auto, unfolding(crate::specs::Numbers::pair))]
pub fn put_pair(page: &mut [u8], at: usize, octet: u8) -> usize
    requires { at + 2 ≤ length page.old }
    ensures writes { page.new ≡ splice page.old at (pair octet) }
    ensures next { result ≡ at + 2 }
{
    put_words(page, at, &[glyph_of(octet / 16), glyph_of(octet % 16)])
}
