// Leaves, fields that hold no other: kinds 16 to 27. Here: what is seen of a leaf and what is due of it, entry, slot and role; and the law
// that seeing it and doing that is the rules' reading. What is seen of each kind is in the crates above: leaf_see_number, kinds 16 to 22;
// leaf_see_bytes, 23 to 27; and leaf_read does it, of leaves one after another.
#![tactic(auto)]

use rules::{BitPlace, Content, Entry, Order, Refusal, Stop};

// What is due of a leaf: its entry; the order that is the packet's last behind it; which slot becomes what, 255 is none; and the role of
// its value, which has `width` bits as a timestamp.
#[derive(Clone, Copy)]
pub struct Due {
    pub entry: Entry,
    pub order: Option<Order>,
    pub slot: u8,
    pub content: Content,
    pub role: u8,
    pub width: u64,
}

// What is seen of a leaf before anything of it is listed: what is due; a BLOB with other bytes than the UUID that it must be; or why it is
// refused, and at which place. Three ends: a BLOB that is not the UUID is listed and then refused, so that it is neither of the others.
#[derive(Clone, Copy)]
pub enum Seen {
    Field(Due),
    OtherUuid(Entry),
    Stops(Stop),
}

// What some leaves did: whether it went on, or why not; the class of the last one that was begun, and how many are left behind it, or with
// it where it stopped; the place and the order behind the last one, or the place at which it is refused and the order before it; the words
// that they listed; and what is still due of the last one, its slot and its role. No enum is joined here that holds a stop: numbers alone
// are cheap to hand back.
#[derive(Clone, Copy)]
pub struct Leaves {
    pub on: bool,
    pub why: Refusal,
    pub at: usize,
    pub todo: usize,
    pub place: BitPlace,
    pub order: Option<Order>,
    pub used: usize,
    pub slot: u8,
    pub role: u8,
    pub width: u64,
    pub value: u64,
}
