// One side of an entry, ours or the peer's: up to four invokes that wait, in order of arrival. Its eight octets are joined in one
// number, the first lowest: the loops walk down that number, as there is no slice to walk.
#![tactic(auto)]

ghost use Rattle.std.specs.Prelude.{◌≡◌, ◌/◌, ◌%◌, ◌<◌, ◌≤◌, not, eqb, length};
ghost use Rattle.std.specs.Option.{is_some};
ghost use Rattle.sides.specs.Side.{places, among, full, operation_of, is_empty, sound_side};
ghost use Rattle.sides.specs.Seen.{octets_seen, side_seen, listed_for, joined_at, found_in, asked_in, number_or0, with_last, without_id};

// Where an id stands: how many places stand before it, and the places from it on.
#[derive(Clone, Copy)]
struct Found {
    place: u8,
    rest: u64,
}

// The octet of the id in the first place.
fn id_in(side: u64) -> u8
    ensures { result ≡ side % 256 }
{
    (side % 256) as u8
}

// The operation in the first place.
fn operation_in(side: u64) -> u8
    ensures { result ≡ side / 256 % 256 }
{
    ((side / 256) % 256) as u8
}

// How many wait.
fn used(side: u64) -> u8
    ensures value { result ≡ length (side_seen side) }
    ensures upper_bound { result ≤ places }
{
    let mut rest = side;
    let mut n = 0;
    while operation_in(rest) != 0 {
        rest /= 65536;
        n += 1;
    }
    n
}

// The first place with this id.
fn find(id: i8, side: u64) -> Option<Found>
    ensures { result ≡ found_in id side }
{
    let wanted = codes::ids::octet_of(id);
    let mut rest = side;
    let mut place = 0;
    while operation_in(rest) != 0 {
        if id_in(rest) == wanted {
            return Some(Found { place, rest });
        }
        rest /= 65536;
        place += 1;
    }
    None
}

// The operation that waits under this id.
pub fn operation_of(id: i8, side: u64) -> Option<u8>
    ensures asked { result ≡ asked_in id (side_seen side) }
    ensures value { number_or0 result ≡ operation_of id (side_seen side) }
    ensures result_value { eqb (number_or0 result) 0 ≡ not (among id (side_seen side)) }
    ensures there { is_some result ≡ among id (side_seen side) }
{
    let found = find(id, side)?;
    Some(operation_in(found.rest))
}

// Whether an invoke with this id waits.
pub fn is_among(id: i8, side: u64) -> bool
    ensures { result ≡ among id (side_seen side) }
{
    operation_of(id, side).is_some()
}

// Whether nothing waits.
pub fn is_none(side: u64) -> bool
    ensures { result ≡ is_empty (side_seen side) }
{
    operation_in(side) == 0
}

// Whether there is no place for another.
pub fn is_full(side: u64) -> bool
    ensures { result ≡ full (side_seen side) }
{
    used(side) == 4
}

// The first places of a side, and others behind them: by four constants, as no number is divided by one that is computed.
fn joined(side: u64, place: u8, behind: u64) -> u64
    requires { (place < places) × (joined_at place side behind < 18446744073709551616) }
    ensures { result ≡ joined_at place side behind }
{
    match place {
        0 => behind,
        1 => side % 65536 + 65536 * behind,
        2 => side % 4294967296 + 4294967296 * behind,
        _ => side % 281474976710656 + 281474976710656 * behind,
    }
}

// The side without the invoke with this id: those behind it move up.
pub fn without(id: i8, side: u64) -> u64
    ensures { result ≡ without_id id side }
{
    let Some(found) = find(id, side) else {
        return side;
    };
    joined(side, found.place, found.rest / 65536)
}

// The side with another invoke behind the last.
pub fn with_last(side: u64, id: i8, operation: u8) -> u64
    ensures { result ≡ with_last side id operation }
{
    let n = used(side);
    if n == 4 || operation == 0 {
        return side;
    }
    let place = (codes::ids::octet_of(id) as u64) + 256 * (operation as u64);
    joined(side, n, place)
}

// An operation of this side: one that we begin, or one of the peer's that we answer.
fn is_listed(ours: bool, operation: u8) -> bool
    ensures { result ≡ listed_for ours operation }
{
    if ours {
        codes::operations::is_begun(operation)
    } else {
        codes::operations::is_waited_for(operation)
    }
}

// Places in a row, each with an operation of its side and an id that stands in no other, and zeros behind them.
pub fn is_sound(ours: bool, side: u64) -> bool
    ensures { result ≡ sound_side (listed_for ours) (octets_seen side) }
{
    let mut rest = side;
    while rest != 0 {
        let id = codes::ids::id_of(id_in(rest));
        let behind = rest / 65536;
        if !is_listed(ours, operation_in(rest)) || is_among(id, behind) {
            return false;
        }
        rest = behind;
    }
    true
}
