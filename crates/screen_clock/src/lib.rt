// How often the clock of a stream class turns in a second, from the class table.
#![tactic(auto)]

ghost use Rattle.std.specs.Prelude.{◌≡◌, ◌+◌, ◌<◌, length};
ghost use Rattle.table_offsets.specs.Check.{number_at};
ghost use Rattle.screen_clock.specs.Frequency.{behind as Frequency·behind, is_stream, is_clock, clock_from, frequency_from, frequency_of};

use numbers::kinds;
use numbers::limits::NO_CLOCK;
use table_bytes::{byte, number};
use table_records::bodies::body_of;

// The frequency of the clock that the stream class of an id names; 0 where there is none.
pub fn frequency_of(table: &[u8], id: u64) -> u64
    ensures { result ≡ frequency_of table.now id }
{
    let clock = clock_of(table, id);
    frequency(table, clock)
}

// The walk stops at the table's end; that it makes no more turns than there are bytes is what ends it in any bytes. Where there is none
// it answers the table's own byte for none, as `clock_from` has it.
fn clock_of(table: &[u8], id: u64) -> u8
    ensures { result ≡ clock_from (length table.now) table.now 0 id }
{
    let mut at = 0;
    for _turn in 0..table.len() {
        if table.len() <= at {
            return NO_CLOCK;
        }
        if is_stream(table, at, id) {
            return byte(table, at + 9);
        }
        at = behind(table, at);
    }
    NO_CLOCK
}

fn frequency(table: &[u8], clock: u8) -> u64
    ensures { result ≡ frequency_from (length table.now) table.now 0 clock }
{
    let mut at = 0;
    for _turn in 0..table.len() {
        if table.len() <= at {
            return 0;
        }
        if is_clock(table, at, clock) {
            return frequency_at(table, at);
        }
        at = behind(table, at);
    }
    0
}

fn is_stream(table: &[u8], at: usize, id: u64) -> bool
    requires { at < length table.now }
    ensures { result ≡ is_stream table.now at id }
{
    if byte(table, at) == kinds::STREAM_CLASS {
        return number(table, at + 1, 8) == id;
    }
    false
}

fn is_clock(table: &[u8], at: usize, clock: u8) -> bool
    requires { at < length table.now }
    ensures { result ≡ is_clock table.now at clock }
{
    if byte(table, at) == kinds::CLOCK_CLASS {
        return byte(table, at + 1) == clock;
    }
    false
}

// The frequency of the clock class at a byte.
fn frequency_at(table: &[u8], at: usize) -> u64
    requires { at < length table.now }
    ensures { result ≡ number_at table.now (at + 2) 8 }
{
    if table.len() <= at + 1 {
        return 0;
    }
    number(table, at + 2, 8)
}

// The byte behind a record; behind a byte that is no kind's, the next one.
fn behind(table: &[u8], at: usize) -> usize
    requires { at < length table.now }
    ensures { result ≡ Frequency·behind table.now at }
{
    match body_of(table[at]) {
        Some(n) => at + 1 + n,
        None => at + 1,
    }
}
