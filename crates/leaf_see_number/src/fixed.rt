// Kinds 16 to 20, which leave their order as the packet's last.
ghost use Rattle.std.specs.Prelude.{◌≡◌};
ghost use Rattle.rules.specs.Limits.{no_slot};
ghost use Rattle.rules.specs.Class.{bit_array, boolean, unsigned_int, signed_int, float};
ghost use Rattle.rules.specs.Field.{truth, one_or_none};
ghost use Rattle.leaf_after.specs.Seeing.{seen, fixed_seen, bits_seen};
ghost use Rattle.leaf_see_number.specs.Extends.{Extends};

use leaf_after::{Due, Seen};
use leaf_find_number::Found;
use numbers::entries;
use numbers::limits::NO_SLOT;
use numbers::roles::NO_ROLE;
use rules::{Content, Entry, Order, Stop};

// Kind 16.
pub fn bit_array(found: Found, number: u64, order: Order) -> Seen
    ensures { result ≡ seen found (fixed_seen number bit_array order no_slot 0) }
{
    see_bits(entries::BIT_ARRAY, found, number, order)
}

// Kind 20.
pub fn float(found: Found, number: u64, order: Order) -> Seen
    ensures { result ≡ seen found (fixed_seen number float order no_slot 0) }
{
    see_bits(entries::FLOAT, found, number, order)
}

// "floats and bit arrays their bits as unsigned" (The list)
fn see_bits(kind: u64, found: Found, number: u64, order: Order) -> Seen
    ensures { result ≡ seen found (bits_seen number kind order) }
{
    match found {
        Found::Refused { place, why } => Seen::Stops(Stop { why, place }),
        Found::At { place, bits, value } => {
            let entry = Entry {
                kind,
                place,
                bits,
                value,
                number,
            };
            Seen::Field(Due {
                entry,
                order: Some(order),
                slot: NO_SLOT,
                content: Content::Unset,
                role: NO_ROLE,
                width: bits,
            })
        }
    }
}

// Kind 17: "0 or, with any bit set, 1" (The list)
pub fn boolean(found: Found, number: u64, order: Order, slot: u8) -> Seen
    ensures { result ≡ seen found (fixed_seen number boolean order slot 0) }
{
    match found {
        Found::Refused { place, why } => Seen::Stops(Stop { why, place }),
        Found::At { place, bits, value } => {
            let entry = Entry {
                kind: entries::BOOLEAN,
                place,
                bits,
                value: one_or_none(value),
                number,
            };
            Seen::Field(Due {
                entry,
                order: Some(order),
                slot,
                content: Content::Flag(any_bit(value)),
                role: NO_ROLE,
                width: bits,
            })
        }
    }
}

fn any_bit(value: u64) -> bool
    ensures { result ≡ truth value }
{
    value != 0
}

fn one_or_none(value: u64) -> u64
    ensures { result ≡ one_or_none (truth value) }
{
    if value == 0 { 0 } else { 1 }
}

// Kind 18.
pub fn unsigned(found: Found, number: u64, order: Order, slot: u8, role: u8) -> Seen
    ensures { result ≡ seen found (fixed_seen number unsigned_int order slot role) }
{
    match found {
        Found::Refused { place, why } => Seen::Stops(Stop { why, place }),
        Found::At { place, bits, value } => {
            let entry = Entry {
                kind: entries::UNSIGNED,
                place,
                bits,
                value,
                number,
            };
            Seen::Field(Due {
                entry,
                order: Some(order),
                slot,
                content: Content::Unsigned(value),
                role,
                width: bits,
            })
        }
    }
}

// Kind 19: "two's complement in 64 bits" (The list)
pub fn signed(found: Found, number: u64, order: Order, slot: u8) -> Seen
    requires { Extends found }
    ensures { result ≡ seen found (fixed_seen number signed_int order slot 0) }
{
    match found {
        Found::Refused { place, why } => Seen::Stops(Stop { why, place }),
        Found::At {
            place,
            bits,
            value: read,
        } => {
            let value = bits::sign_extend(read, bits);
            let entry = Entry {
                kind: entries::SIGNED,
                place,
                bits,
                value,
                number,
            };
            Seen::Field(Due {
                entry,
                order: Some(order),
                slot,
                content: Content::Signed(value),
                role: NO_ROLE,
                width: bits,
            })
        }
    }
}
