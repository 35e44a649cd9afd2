// Bits of a stream as numbers, by the widest step that the place allows:
//
// two, four, eight   whole bytes on a byte boundary, each one load
// part               other bits that lie in eight bytes which are there: that load, and two shifts
// walk               all the rest, both orders and every width: each byte gives a piece of at most eight bits, which is joined to the
//                    number so far
#![tactic(auto)]

ghost use Rattle.std.specs.Prelude.{◌≡◌, ◌+◌, ◌*◌, ◌%◌, ◌^◌, ◌<◌, ◌≤◌, length};
ghost use Rattle.rules.specs.Bits.{bits, signed, word};
ghost use Rattle.bits.specs.Joined.{joined, part as part_of};

use rules::{BitPlace, Order};

// The number of `width` bits from a place on.
pub fn take(stream: &[u8], from: BitPlace, width: u64, order: Order) -> u64
    requires { (width ≤ 64) × (from.0 + width ≤ 8 * length stream.now) × (from.0 + width < 2 ^ 64) }
    ensures { result ≡ bits order stream.now from.0 width }
{
    number(stream, from.0, width, order)
}

// `take`, from a place that is a plain number. On a byte boundary 8, 16, 32 and 64 bits are their own bytes, also the last of the stream;
// where 64 bits are there the eight bytes are, so that they need no arm of their own.
fn number(stream: &[u8], from: u64, width: u64, order: Order) -> u64
    requires { (width ≤ 64) × (from + width ≤ 8 * length stream.now) × (from + width < 2 ^ 64) }
    ensures { result ≡ bits order stream.now from width }
{
    let at = (from / 8) as usize;
    let passed = from % 8;
    if passed == 0 {
        match width {
            8 => {
                return u64::from(stream[at]);
            }
            16 => {
                return two(stream, at, order);
            }
            32 => {
                return four(stream, at, order);
            }
            _ => {}
        }
    }
    if passed + width <= 64 {
        if 8 <= stream.len() - at {
            return part(eight(stream, at, order), passed, width, order);
        }
    }
    walk(stream, from, width, order)
}

// The number of the two bytes from a byte on; then of four and of eight. The order is asked before a byte is read, and what counts least is
// read first: so LLVM makes one load of each.
fn two(stream: &[u8], at: usize, order: Order) -> u64
    requires { at + 2 ≤ length stream.now }
    ensures { (result ≡ bits order stream.now (8 * at) 16) × (result < 2 ^ 16) }
{
    match order {
        Order::Little => u64::from(stream[at]) + u64::from(stream[at + 1]) * 0x100,
        Order::Big => u64::from(stream[at + 1]) + u64::from(stream[at]) * 0x100,
    }
}

fn four(stream: &[u8], at: usize, order: Order) -> u64
    requires { at + 4 ≤ length stream.now }
    ensures { (result ≡ bits order stream.now (8 * at) 32) × (result < 2 ^ 32) }
{
    match order {
        Order::Little => two(stream, at, order) + two(stream, at + 2, order) * 0x1_0000,
        Order::Big => two(stream, at + 2, order) + two(stream, at, order) * 0x1_0000,
    }
}

// Eight are for other crates too.
pub fn eight(stream: &[u8], at: usize, order: Order) -> u64
    requires { at + 8 ≤ length stream.now }
    ensures { result ≡ bits order stream.now (8 * at) 64 }
{
    match order {
        Order::Little => four(stream, at, order) + four(stream, at + 4, order) * 0x1_0000_0000,
        Order::Big => four(stream, at + 4, order) + four(stream, at, order) * 0x1_0000_0000,
    }
}

// Of the number of 64 bits, that of the `width` bits behind the first `passed`: what stands above them is shifted out, and then what
// stands below them.
fn part(number: u64, passed: u64, width: u64, order: Order) -> u64
    requires { passed + width ≤ 64 }
    ensures { result ≡ part_of order number 64 passed width }
{
    if width == 0 {
        return 0;
    }
    match order {
        Order::Little => (number << (64 - passed - width)) >> (64 - width),
        Order::Big => (number << passed) >> (64 - width),
    }
}

// A number of `width` bits read as two's complement, in 64 bits.
pub fn sign_extend(value: u64, width: u64) -> u64
    requires { (0 < width) × (width ≤ 64) × (value < 2 ^ width) }
    ensures { result ≡ word (signed value width) }
{
    let half = 1 << (width - 1);
    if value < half {
        value
    } else {
        (value - half) + (u64::MAX - (half - 1))
    }
}

// `take`, from a place that is a plain number.
fn walk(stream: &[u8], from: u64, width: u64, order: Order) -> u64
    requires { (width ≤ 64) × (from + width ≤ 8 * length stream.now) × (from + width < 2 ^ 64) }
    ensures { result ≡ bits order stream.now from width }
{
    let mut value: u64 = 0;
    let mut done: u64 = 0;
    // By hand: a turn's step is what is left of a byte, which no range counts.
    while done < width {
        let at = from + done;
        let more = (8 - at % 8).min(width - done);
        value = join(order, value, done, piece(stream, at, more, order), more);
        done += more;
    }
    value
}

// The number of `width` bits that stand in one byte.
fn piece(stream: &[u8], from: u64, width: u64, order: Order) -> u64
    requires { (0 < width) × (from % 8 + width ≤ 8) × (from < 8 * length stream.now) }
    ensures { result ≡ bits order stream.now from width }
{
    let at = (from / 8) as usize;
    let byte = u64::from(stream[at]);
    match order {
        Order::Little => (byte >> (from % 8)) % (1 << width),
        Order::Big => (byte >> (8 - from % 8 - width)) % (1 << width),
    }
}

// The number of `done` bits, and then of `more` bits behind them.
fn join(order: Order, value: u64, done: u64, next: u64, more: u64) -> u64
    requires { (done < 64) × (more ≤ 8) × (done + more ≤ 64) × (value < 2 ^ done) × (next < 2 ^ more) }
    ensures { result ≡ joined order value done next more }
{
    match order {
        Order::Little => value + (next << done),
        Order::Big => (value << more) + next,
    }
}
