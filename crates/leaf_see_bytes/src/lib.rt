// What is seen of a leaf that is bytes, kinds 23 to 27, once it is found or refused: none sets a slot, and a static BLOB alone has a role.
#![tactic(auto)]

ghost use Rattle.std.specs.Prelude.{◌≡◌, ◌+◌, ◌≤◌, length, take, drop};
ghost use Rattle.rules.specs.Field.{same_bytes};
ghost use Rattle.leaf_after.specs.Seeing.{seen, plain_seen, uuid_seen, blob_seen};
ghost use Rattle.leaf_see_bytes.specs.InStream.{InStream};

use leaf_after::{Due, Seen};
use leaf_find_number::Found;
use numbers::limits::NO_SLOT;
use numbers::{kinds, roles};
use rules::{Content, Entry, Order, Stop};

// A leaf of any of these kinds, without a role.
pub fn plain(kind: u8, found: Found, number: u64, last: Option<Order>) -> Seen
    ensures { result ≡ seen found (plain_seen number kind last) }
{
    match found {
        Found::Refused { place, why } => Seen::Stops(Stop { why, place }),
        Found::At { place, bits, value } => Seen::Field(Due {
            entry: Entry {
                kind: u64::from(kind),
                place,
                bits,
                value,
                number,
            },
            order: last,
            slot: NO_SLOT,
            content: Content::Unset,
            role: roles::NO_ROLE,
            width: 0,
        }),
    }
}

// Kind 25, which may have to be the trace class's UUID.
pub fn static_blob(
    found: Found,
    number: u64,
    role: u8,
    last: Option<Order>,
    uuid: &[u8],
    stream: &[u8],
) -> Seen
    requires { InStream stream.now found }
    ensures { result ≡ seen found (blob_seen number stream.now uuid.now role last) }
{
    if role == roles::UUID {
        return uuid_blob(found, number, last, uuid, stream);
    }
    plain(kinds::STATIC_BLOB, found, number, last)
}

// A BLOB whose bytes must be the UUID's.
fn uuid_blob(found: Found, number: u64, last: Option<Order>, uuid: &[u8], stream: &[u8]) -> Seen
    requires { InStream stream.now found }
    ensures { result ≡ seen found (uuid_seen number stream.now uuid.now last) }
{
    match found {
        Found::Refused { place, why } => Seen::Stops(Stop { why, place }),
        Found::At { place, bits, value } => {
            let at = places::bytes_before(place);
            if same(stream, at.0, value as usize, uuid) {
                return plain(kinds::STATIC_BLOB, found, number, last);
            }
            Seen::OtherUuid(Entry {
                kind: u64::from(kinds::STATIC_BLOB),
                place,
                bits,
                value,
                number,
            })
        }
    }
}

// Whether so many bytes from a byte on are all of a UUID.
fn same(stream: &[u8], at: usize, count: usize, uuid: &[u8]) -> bool
    requires { at + count ≤ length stream.now }
    ensures { result ≡ same_bytes (take count (drop at stream.now)) uuid.now }
{
    &stream[at..at + count] == uuid
}
