// Numbers of a table's bytes, little-endian, and of the sizes that are noted beside it.
//
// byte, wide_byte, two, number, noted_size   a byte past the end reads as 0, so that no reading wants a proof that its bytes are there:
//                                            a checker asks once, of a record's head, whether it is whole
// count_at, u16_at, u64_at, size_at          for those who know that what they read is there
// wide, wide32, wide64, within               small numbers as larger ones, with their bounds, which `From` does not say; and whether one
//                                            lies between two
#![tactic(auto)]

ghost use Rattle.std.specs.Prelude.{◌≡◌, ◌+◌, ◌≤◌, ◌<◌, ◌^◌, length, get_or};
ghost use Rattle.rules.specs.Record.{u8, u16 as wholeU16, u64};
ghost use Rattle.table_offsets.specs.Check.{number_at, u16, inside};

pub fn byte(table: &[u8], i: usize) -> u8
    ensures { result ≡ get_or table.now i 0 }
{
    table.get(i).copied().unwrap_or(0)
}

// The same as a count.
pub fn wide_byte(table: &[u8], i: usize) -> usize
    ensures { (result ≡ get_or table.now i 0) × (result < 256) }
{
    usize::from(byte(table, i))
}

// The number of n bytes, "little-endian".
pub fn number(table: &[u8], at: usize, n: usize) -> u64
    requires { (n ≤ 8) × (at < 2 ^ 63) }
    ensures { (result ≡ number_at table.now at n) × (result < 256 ^ n) }
{
    let mut v: u64 = 0;
    for i in (0..n).rev() {
        v = v * 256 + u64::from(byte(table, at + i));
    }
    v
}

// The number of two bytes.
pub fn two(table: &[u8], at: usize) -> usize
    requires { at < 2 ^ 63 }
    ensures { (result ≡ u16 table.now at) × (result < 2 ^ 16) }
{
    usize::from(u16::from_le_bytes([byte(table, at), byte(table, at + 1)]))
}

// A byte that is there, as a count.
pub fn count_at(table: &[u8], i: usize) -> usize
    requires { i < length table.now }
    ensures { (result ≡ u8 table.now i) × (result < 2 ^ 8) }
{
    usize::from(table[i])
}

// The number of two bytes that are there: one load.
pub fn u16_at(table: &[u8], at: usize) -> usize
    requires { at + 2 ≤ length table.now }
    ensures { (result ≡ wholeU16 table.now at) × (result < 2 ^ 16) }
{
    usize::from(u16::from_le_bytes([table[at], table[at + 1]]))
}

// The number of eight bytes that are there: one load.
pub fn u64_at(table: &[u8], at: usize) -> u64
    requires { at + 8 ≤ length table.now }
    ensures { result ≡ u64 table.now at }
{
    u64::from_le_bytes([
        table[at],
        table[at + 1],
        table[at + 2],
        table[at + 3],
        table[at + 4],
        table[at + 5],
        table[at + 6],
        table[at + 7],
    ])
}

// The noted size of what stands at a byte.
pub fn size_at(sizes: &[u16], at: usize) -> usize
    requires { at < length sizes.now }
    ensures { (result ≡ get_or sizes.now at 0) × (result < 65536) }
{
    usize::from(sizes[at])
}

// The same; 0 past the end.
pub fn noted_size(sizes: &[u16], at: usize) -> usize
    ensures { (result ≡ get_or sizes.now at 0) × (result < 65536) }
{
    usize::from(sizes.get(at).copied().unwrap_or(0))
}

pub fn within(x: u8, low: u8, high: u8) -> bool
    ensures { result ≡ inside x low high }
{
    (low..=high).contains(&x)
}

pub fn wide(x: u8) -> usize
    ensures { (result ≡ x) × (result < 2 ^ 8) }
{
    usize::from(x)
}

// A place in a table, as the arrays of places hold it.
pub fn wide32(place: u32) -> usize
    ensures { (result ≡ place) × (result < 2 ^ 32) }
{
    place as usize
}

pub fn wide64(x: u8) -> u64
    ensures { (result ≡ x) × (result < 2 ^ 8) }
{
    u64::from(x)
}
