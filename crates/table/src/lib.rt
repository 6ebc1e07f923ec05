// The transaction table in 238 lent octets: fourteen entries, each read by value and changed in one way at a time.
#![tactic(auto)]

ghost use Rattle.std.specs.Prelude.{◌≡◌, not, ◌+◌, ◌*◌, ◌<◌, ◌≤◌, length, get_or};
ghost use Rattle.octets.specs.Octets.{Octets};
ghost use Rattle.octets.specs.Part.{between};
ghost use Rattle.octets.specs.Splice.{splice};
ghost use Rattle.sides.specs.Side.{is_empty};
ghost use Rattle.sides.specs.Seen.{octets_seen, side_seen};
ghost use Rattle.table.specs.Table.{size, image_in, sound_image, valid, added, state_of};
ghost use Rattle.table.specs.Change.{with_change, CanChange};
ghost use Rattle.table.specs.Seen.{slot_seen, change_seen, FindsClosed, NamesEntry};
ghost use Rattle.table.specs.Raw.{join_of, slot_of, slot_octets, with_side, side_in, slot_changed, ChangeFits, IsOctets, ReadsEntry};

// An entry by value: its two sides as `sides` has them.
#[derive(Clone, Copy)]
pub struct Slot {
    pub open: bool,
    pub own: u64,
    pub peer: u64,
}

// What one step does to an entry; a side is ours or the peer's.
#[derive(Clone, Copy)]
pub enum Change {
    Opens,
    Closes,
    Adds { ours: bool, id: i8, operation: u8 },
    Clears { ours: bool, id: i8 },
}

// What the invokes of a side add to the state.
fn added(side: u64, n: u8) -> u8
    ensures value { result ≡ added (not (is_empty (side_seen side))) n }
    ensures upper_bound { result ≤ n }
{
    if sides::is_none(side) { 0 } else { n }
}

impl Slot {
    // Closed, and nothing waits.
    const CLOSED: Slot = Slot {
        open: false,
        own: 0,
        peer: 0,
    };

    // 0 is closed; an open entry has 1, and more for what waits.
    #[tactic(auto, unfolding(crate::specs::Table::state_of))]
    fn state_of(self) -> u8
        ensures { result ≡ state_of (slot_seen self) }
    {
        if self.open {
            1 + added(self.own, 2) + added(self.peer, 4)
        } else {
            0
        }
    }

    // One of the sides.
    fn side_of(self, ours: bool) -> u64
        ensures { result ≡ side_in self ours }
    {
        if ours { self.own } else { self.peer }
    }

    // The entry open, with one of its sides.
    fn with_side(self, ours: bool, side: u64) -> Slot
        ensures { result ≡ with_side self ours side }
    {
        if ours {
            Slot {
                open: true,
                own: side,
                ..self
            }
        } else {
            Slot {
                open: true,
                peer: side,
                ..self
            }
        }
    }

    // What becomes of the entry.
    fn changed(self, change: Change) -> Slot
        ensures value { result ≡ slot_changed self change }
        ensures change_fits { ChangeFits change }
    {
        match change {
            Change::Opens => Slot { open: true, ..self },
            Change::Closes => Slot::CLOSED,
            Change::Adds {
                ours,
                id,
                operation,
            } => self.with_side(ours, sides::with_last(self.side_of(ours), id, operation)),
            Change::Clears { ours, id } => self.with_side(
                ours,
                sides::without(id, self.side_of(ours)),
            ),
        }
    }
}

// The place of an entry's first octet.
fn start_of(k: u8) -> usize
    ensures { result ≡ size * k }
{
    17 * (k as usize)
}

// The octets of an entry that the table has.
fn image_of(table: &[u8], k: u8) -> &[u8; 17]
    requires { size * k + size ≤ length table.now }
    ensures { result.now ≡ between (size * k) (size * k + size) table.now }
{
    table[start_of(k)..].first_chunk().unwrap()
}

// Eight octets joined: a side.
fn read_side(image: &[u8; 17], at: usize) -> u64
    requires { at + 8 ≤ size }
    ensures value { result ≡ join_of (between at (at + 8) image.now) }
    ensures octets { Octets (between at (at + 8) image.now) }
{
    u64::from_le_bytes(*image[at..].first_chunk().unwrap())
}

// What the octets of an entry say.
fn read_slot(image: &[u8; 17]) -> Slot
    ensures value { result ≡ slot_of (image_in image.now 0) }
    ensures octets { IsOctets (image_in image.now 0) }
{
    Slot {
        open: image[0] != 0,
        own: read_side(image, 1),
        peer: read_side(image, 9),
    }
}

// An entry, whatever its octets are; one that the table hasn't is closed.
pub fn read_entry(table: &[u8], k: u8) -> Slot
    ensures { ReadsEntry table.now k result }
{
    if table.len() < start_of(k) + 17 {
        Slot::CLOSED
    } else {
        read_slot(image_of(table, k))
    }
}

// An entry of the image. Most are closed, and all zero: that is told at once by the octets joined.
fn is_sound(image: &[u8; 17]) -> bool
    ensures { result ≡ sound_image (image_in image.now 0) }
{
    let state = image[0];
    let slot = read_slot(image);
    if state == 0 {
        return slot.own == 0 && slot.peer == 0;
    }
    state == slot.state_of() && sides::is_sound(true, slot.own) && sides::is_sound(false, slot.peer)
}

// 238 octets and fourteen sound entries; any other image is damaged.
pub fn is_valid(table: &[u8]) -> bool
    ensures { result ≡ valid table.now }
{
    table.len() == 238 && table.as_chunks().0.iter().all(is_sound)
}

// Writes the eight octets of a side; all others stay.
fn write_side(table: &mut [u8], at: usize, side: u64)
    requires { at + 8 ≤ length table.old }
    ensures { table.new ≡ splice table.old at (octets_seen side) }
{
    octets::put(table, at, &side.to_le_bytes());
}

// Writes the octets of an entry; all others stay.
fn write_slot(table: &mut [u8], k: u8, e: Slot)
    requires { size * k + size ≤ length table.old }
    ensures { table.new ≡ splice table.old (size * k) (slot_octets e) }
{
    let at = start_of(k);
    table[at] = e.state_of();
    write_side(table, at + 1, e.own);
    write_side(table, at + 9, e.peer);
}

// Changes an entry of a sound table into one that it can hold; all other entries stay.
pub fn change_entry(table: &mut [u8], k: u8, change: Change)
    requires { CanChange table.old k (change_seen change) }
    ensures { table.new ≡ with_change table.old k (change_seen change) }
{
    let next = read_slot(image_of(table, k)).changed(change);
    write_slot(table, k, next);
}

// The lowest own value whose entry is closed.
pub fn lowest_closed(table: &[u8]) -> Option<u8>
    ensures { FindsClosed table.now result }
{
    (0..7).find(|v| !read_entry(table, *v).open)
}

// The entry that a flag and a value name; flag 1 is ours.
pub fn entry_named(flag: u8, value: u8) -> Option<u8>
    ensures { NamesEntry flag value result }
{
    if 6 < value {
        return None;
    }
    match flag {
        0 => Some(7 + value),
        1 => Some(value),
        _ => None,
    }
}
