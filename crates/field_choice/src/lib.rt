// What an optional or a variant selects: 26 and 27 come from taking the slot's content apart, 29 from a search that finds nothing.
#![tactic(auto)]

ghost use Rattle.std.specs.Prelude.{◌≡◌, ◌+◌, ◌*◌, ◌<◌, ◌≤◌, length};
ghost use Rattle.rules.specs.Record.{u8};
ghost use Rattle.rules.specs.Class.{key, holds, any_holds};
ghost use Rattle.rules.specs.Faults.{sign_of};
ghost use Rattle.class_layout.specs.Trees.{ranges_at, WholeOptions};
ghost use Rattle.class_layout.specs.Notes.{end_noted};
ghost use Rattle.field_choice.specs.Choice.{range_at, present_at, by_flag, optional_at, option_from, variant_at};
ghost use Rattle.field_choice.specs.Choice.{InTable, WholeOptional, WholeVariant};

use numbers::signs;
use rules::{Content, Refusal};
use slots::number_of;
use table_bytes::{count_at, size_at, u64_at};
use table_records::bodies::{OPTION_SIZE, OPTIONAL_SIZE, RANGE_SIZE, VARIANT_SIZE};

// What is selected: the class at a byte, as the ith option; nothing; or why it cannot be told. Three ends, of which an optional refuses one
// and a variant two: an Option in a Result would be taken apart twice.
#[derive(Clone, Copy)]
pub enum Choice {
    Class { at: usize, option: u64 },
    Nothing,
    Refused(Refusal),
}

const SIGN_BIT: u64 = 0x8000_0000_0000_0000;

// Words in the order of the numbers that they stand for.
fn key(sign: u8, word: u64) -> u64
    ensures { result ≡ key (sign_of sign) word }
{
    if sign == signs::UNSIGNED {
        return word;
    }
    word.wrapping_add(SIGN_BIT)
}

// Whether the range at a byte holds a number, both ends among it.
fn holds(table: &[u8], at: usize, sign: u8, number: u64) -> bool
    requires { (at + 18 ≤ length table.now) × (length table.now ≤ 65536) }
    ensures { result ≡ holds (sign_of sign) number (range_at table.now at) }
{
    let selector = key(sign, number);
    if selector < key(sign, u64_at(table, at + 2)) {
        return false;
    }
    selector <= key(sign, u64_at(table, at + 10))
}

// Whether one of the ranges from a byte on does.
fn any_holds(table: &[u8], at: usize, count: usize, sign: u8, number: u64) -> bool
    requires { (at + 18 * count ≤ length table.now) × (length table.now ≤ 65536) }
    ensures { result ≡ any_holds (sign_of sign) number (ranges_at table.now at count) }
{
    for i in 0..count {
        if holds(table, at + RANGE_SIZE * i, sign, number) {
            return true;
        }
    }
    false
}

// Whether the optional at a byte is there: by a flag, or by its ranges.
pub fn choose_optional(table: &[u8], at: usize, content: Content) -> Choice
    requires { WholeOptional table.now at }
    ensures { result ≡ optional_at table.now at content }
{
    let count = count_at(table, at + 2);
    let class = at + OPTIONAL_SIZE + RANGE_SIZE * count;
    if count == 0 {
        return by_flag(content, class);
    }
    let sign = table[at + 4];
    match number_of(content, sign) {
        Err(why) => Choice::Refused(why),
        Ok(n) => present(any_holds(table, at + OPTIONAL_SIZE, count, sign, n), class),
    }
}

// "An optional with 0 ranges needs a flag" (Reading)
fn by_flag(content: Content, class: usize) -> Choice
    ensures { result ≡ by_flag content class }
{
    match content {
        Content::Unset => Choice::Refused(Refusal::SlotUnset),
        Content::Unsigned(_) => Choice::Refused(Refusal::SlotOfWrongSort),
        Content::Signed(_) => Choice::Refused(Refusal::SlotOfWrongSort),
        Content::Flag(flag) => present(flag, class),
    }
}

fn present(there: bool, class: usize) -> Choice
    ensures { result ≡ present_at there class }
{
    if there {
        return Choice::Class {
            at: class,
            option: 0,
        };
    }
    Choice::Nothing
}

// The option that the variant at a byte selects.
pub fn choose_option(table: &[u8], sizes: &[u16], at: usize, content: Content) -> Choice
    requires { WholeVariant table.now sizes.now at }
    ensures { result ≡ variant_at table.now sizes.now at content }
{
    let sign = table[at + 6];
    match number_of(content, sign) {
        Err(why) => Choice::Refused(why),
        Ok(n) => first_option(
            table,
            sizes,
            at + VARIANT_SIZE,
            count_at(table, at + 2),
            sign,
            n,
        ),
    }
}

// The first option from a byte on that holds a number: both loops are left at the first range that does.
fn first_option(
    table: &[u8],
    sizes: &[u16],
    at: usize,
    count: usize,
    sign: u8,
    number: u64,
) -> Choice
    requires whole_options { WholeOptions (InTable table.now) (end_noted sizes.now) table.now at count }
    requires table_len_bound { (length table.now ≤ 65536) × (length table.now ≤ length sizes.now) }
    ensures { result ≡ option_from (end_noted sizes.now) table.now (sign_of sign) number 0 at count }
{
    let mut next = at;
    let mut found = Choice::Nothing;
    'search: for option in 0..count {
        let ranges = count_at(table, next + 1);
        let class = next + OPTION_SIZE + RANGE_SIZE * ranges;
        for i in 0..ranges {
            if holds(table, next + OPTION_SIZE + RANGE_SIZE * i, sign, number) {
                found = Choice::Class {
                    at: class,
                    option: option as u64,
                };
                break 'search;
            }
        }
        next = class + size_at(sizes, class);
    }
    found
}
