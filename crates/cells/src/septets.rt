// The septets of a string.
ghost use Rattle.std.specs.Prelude.{◌≡◌, ◌+◌, ◌/◌, ◌%◌, ◌<◌, length};
ghost use Rattle.cells.specs.Septets.{septet_at, septets_in, septets_sent};
ghost use Rattle.cells.specs.Rows.{carried_to};

// What is left of the octets that are read, and above it the next octet, where fewer than seven bits are left: septet i is the
// lowest seven bits of it, and the rest is carried on to the next.
pub fn bits_at(string: &[u8], i: usize, carried: u16) -> u16
    requires { (i < septets_in (length string.now)) × (carried ≡ carried_to string.now i) }
    ensures septet { result % 128 ≡ septet_at string.now i }
    ensures rest { result / 128 ≡ carried_to string.now (i + 1) }
{
    if i % 8 == 7 {
        return carried;
    }
    carried + ((string[i - i / 8] as u16) << (i % 8))
}

// How many septets are sent: a carriage return that fills the last octet is none. It is the upper seven bits of that octet. Eight
// septets fill seven octets, so the string ends on an octet boundary where it holds whole eights.
pub fn septets_sent(string: &[u8]) -> usize
    ensures { result ≡ septets_sent string.now }
{
    let n = string.len();
    let held = n + n / 7;
    if held % 8 != 0 {
        return held;
    }
    if n == 0 {
        return 0;
    }
    if string[n - 1] / 2 != 0x0D {
        return held;
    }
    held - 1
}
