// Kinds 21 and 22, which leave the packet's last order as it was: "L the field's bits (7 times its bytes for LEB128)" (Reading)
ghost use Rattle.std.specs.Prelude.{◌≡◌};
ghost use Rattle.rules.specs.declared.Content.TheVariants.{Unsigned, Signed};
ghost use Rattle.leaf_after.specs.Seeing.{seen, leb_seen};

use leaf_after::{Due, Seen};
use leaf_find_number::Found;
use numbers::entries;
use numbers::roles::NO_ROLE;
use rules::{Content, Entry, Order, Stop};

// Kind 21.
pub fn unsigned_leb(found: Found, number: u64, last: Option<Order>, slot: u8, role: u8) -> Seen
    ensures { result ≡ seen found (leb_seen number 21 Unsigned last slot role) }
{
    match found {
        Found::Refused { place, why } => Seen::Stops(Stop { why, place }),
        Found::At { place, bits, value } => {
            let entry = Entry {
                kind: entries::LEB128_UNSIGNED,
                place,
                bits,
                value,
                number,
            };
            Seen::Field(Due {
                entry,
                order: last,
                slot,
                content: Content::Unsigned(value),
                role,
                width: places::stamp_bits(bits),
            })
        }
    }
}

// Kind 22.
pub fn signed_leb(found: Found, number: u64, last: Option<Order>, slot: u8) -> Seen
    ensures { result ≡ seen found (leb_seen number 22 Signed last slot 0) }
{
    match found {
        Found::Refused { place, why } => Seen::Stops(Stop { why, place }),
        Found::At { place, bits, value } => {
            let entry = Entry {
                kind: entries::LEB128_SIGNED,
                place,
                bits,
                value,
                number,
            };
            Seen::Field(Due {
                entry,
                order: last,
                slot,
                content: Content::Signed(value),
                role: NO_ROLE,
                width: places::stamp_bits(bits),
            })
        }
    }
}
