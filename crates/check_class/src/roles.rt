// Roles: which number stands for which, and where each may stand ("The class table").
ghost use Rattle.std.specs.Prelude.{◌≡◌};
ghost use Rattle.table_offsets.specs.Check.{magic_ok, blob_ok, clock_ok, end_ok, role_ok};

use numbers::{kinds, limits, roles, roots};
use table_offsets::{Says, Under};
use table_records::bodies;

const MAGIC_BITS: u8 = 32;

// Whether the role of the class at `at` may stand there.
pub(crate) fn role_ok(says: Says, under: Under, at: usize) -> bool
    ensures { result ≡ role_ok says under at }
{
    if says.kind == kinds::STATIC_BLOB {
        return blob_ok(says.role, under.root, says.count, under.uuid);
    }
    let r = says.role;
    match r {
        roles::NO_ROLE => true,
        roles::MAGIC => magic_ok(under.root, says.kind, says.length, under.start, at),
        roles::STREAM_CLASS_ID => under.root == roots::PACKET_HEADER,
        roles::STREAM_ID => under.root == roots::PACKET_HEADER,
        roles::TOTAL_LENGTH => under.root == roots::PACKET_CONTEXT,
        roles::CONTENT_LENGTH => under.root == roots::PACKET_CONTEXT,
        roles::CLOCK => clock_ok(under.root, under.timed),
        roles::END_CLOCK => end_ok(under.root, under.timed),
        roles::DISCARDED_COUNT => under.root == roots::PACKET_CONTEXT,
        roles::SEQUENCE_NUMBER => under.root == roots::PACKET_CONTEXT,
        roles::EVENT_CLASS_ID => under.root == roots::EVENT_HEADER,
        _ => false,
    }
}

// "Magic is a kind 18 of 32 bits, first member of the header": right behind the record of the root structure.
fn magic_ok(root: u8, kind: u8, length: u8, start: usize, at: usize) -> bool
    ensures { result ≡ magic_ok root kind length start at }
{
    if root != roots::PACKET_HEADER {
        return false;
    }
    if kind != kinds::UNSIGNED {
        return false;
    }
    if length != MAGIC_BITS {
        return false;
    }
    if at < start {
        return false;
    }
    at - start == bodies::STRUCTURE_SIZE
}

// "UUID is on a 16-byte kind 25, in a trace class that has one; no other role stands on kind 25."
fn blob_ok(role: u8, root: u8, count: usize, uuid: bool) -> bool
    ensures { result ≡ blob_ok role root count uuid }
{
    if role == roles::NO_ROLE {
        return true;
    }
    if role != roles::UUID {
        return false;
    }
    if root != roots::PACKET_HEADER {
        return false;
    }
    if count != limits::UUID_BYTES {
        return false;
    }
    uuid
}

// "7 and 8 need the stream class to have a clock."
fn clock_ok(root: u8, timed: bool) -> bool
    ensures { result ≡ clock_ok root timed }
{
    match root {
        roots::PACKET_CONTEXT => timed,
        roots::EVENT_HEADER => timed,
        _ => false,
    }
}

fn end_ok(root: u8, timed: bool) -> bool
    ensures { result ≡ end_ok root timed }
{
    if root == roots::PACKET_CONTEXT {
        timed
    } else {
        false
    }
}
