// The verdict's line and the exit status, of a reading and of a table's check. A line goes into room that the caller lends, from its start
// on: every one has less than 256 bytes, and in less room than that nothing is written.
//
// In faults and reasons: the papers' numbers in words.
#![tactic(auto)]

ghost use Rattle.std.specs.Prelude.{◌≡◌, ◌+◌, ◌≤◌, length};
ghost use Rattle.std.proofs.lemmas.List.Edits.{sets};
ghost use Rattle.screen_verdict.specs.Verdict.{verdict, checked_line, cut_refused, laid_line, laid_length};
ghost use Rattle.screen_verdict.specs.Verdict.{accepted_line, refused_line, refused_at, listed, accepted_table, refused_table};
ghost use Rattle.screen_verdict.specs.Verdict.{unit, status as Verdict·status, checked_status};

use faults::fault;
use numbers::faults::TABLE_REFUSED;
use reasons::put_reason;
use rules::{ByteLength, Report, TableFault};
use screen_number::{put_bytes, put_decimal};

mod faults;
mod reasons;

// The exit status.
const ACCEPTED: u8 = 0;

const REFUSED: u8 = 1;

// The room that every line fits in.
const LINE_ROOM: usize = 256;

// How a reading ended. Answers how many bytes were written.
pub fn put_verdict(out: &mut [u8], r: Report) -> usize
    ensures value { result ≡ laid_length out.old (verdict r) }
    ensures out_after { out.new ≡ laid_line out.old (verdict r) }
{
    if out.len() < LINE_ROOM {
        return 0;
    }
    if r.number == 0 {
        return put_accepted(out, r.entries, r.place);
    }
    put_refused(out, r)
}

// How the check of a table ended.
pub fn put_checked(out: &mut [u8], checked: Result<ByteLength, TableFault>) -> usize
    ensures value { result ≡ laid_length out.old (checked_line checked) }
    ensures out_after { out.new ≡ laid_line out.old (checked_line checked) }
{
    if out.len() < LINE_ROOM {
        return 0;
    }
    match checked {
        Ok(bytes) => put_accepted_table(out, bytes),
        Err(fault) => put_refused_table(out, fault.number, fault.byte),
    }
}

// Why `ctf cut` refuses a table: as a reading does, without a list.
pub fn put_cut_refused(out: &mut [u8], number: u8, byte: ByteLength) -> usize
    ensures value { result ≡ laid_length out.old (cut_refused number byte.0) }
    ensures out_after { out.new ≡ laid_line out.old (cut_refused number byte.0) }
{
    if out.len() < LINE_ROOM {
        return 0;
    }
    put_cut_line(out, number as u64, byte.0 as u64)
}

// The exit status: 0 accepted, 1 refused.
pub fn status(r: Report) -> u8
    ensures { result ≡ Verdict·status r }
{
    let number = r.number;
    if number == 0 {
        return ACCEPTED;
    }
    REFUSED
}

pub fn checked_status(checked: Result<ByteLength, TableFault>) -> u8
    ensures { result ≡ checked_status checked }
{
    match checked {
        Ok(_) => ACCEPTED,
        Err(_) => REFUSED,
    }
}

fn put_accepted(out: &mut [u8], entries: usize, place: u64) -> usize
    requires { 256 ≤ length out.old }
    ensures value { result ≡ 0 + length (accepted_line entries place) }
    ensures out_after { out.new ≡ sets out.old 0 (accepted_line entries place) }
{
    let a = put_bytes(out, 0, b"accepted: ");
    let b = put_decimal(out, a, entries as u64);
    let c = put_bytes(out, b, b" entries, ");
    let d = put_decimal(out, c, place);
    put_bytes(out, d, b" bits\n")
}

fn put_refused(out: &mut [u8], r: Report) -> usize
    requires { 256 ≤ length out.old }
    ensures value { result ≡ 0 + length (refused_line r.number r.entries r.place r.first r.second) }
    ensures out_after { out.new ≡ sets out.old 0 (refused_line r.number r.entries r.place r.first r.second) }
{
    let a = put_refused_at(out, r.number, r.place);
    let b = put_reason(out, a, r);
    put_listed(out, b, r.entries)
}

fn put_refused_at(out: &mut [u8], number: u8, place: u64) -> usize
    requires { 256 ≤ length out.old }
    ensures value { result ≡ 0 + length (refused_at number (unit number) place) }
    ensures out_after { out.new ≡ sets out.old 0 (refused_at number (unit number) place) }
{
    let a = put_bytes(out, 0, b"refused ");
    let b = put_decimal(out, a, number as u64);
    let c = put_unit(out, b, number);
    let d = put_decimal(out, c, place);
    put_bytes(out, d, b": ")
}

// A table's refusal has a byte for its place.
fn put_unit(out: &mut [u8], at: usize, number: u8) -> usize
    requires { at + 9 ≤ length out.old }
    ensures value { result ≡ at + length (unit number) }
    ensures out_after { out.new ≡ sets out.old at (unit number) }
{
    if number == TABLE_REFUSED {
        return put_bytes(out, at, b" at byte ");
    }
    put_bytes(out, at, b" at bit ")
}

fn put_listed(out: &mut [u8], at: usize, entries: usize) -> usize
    requires { at + 31 ≤ length out.old }
    ensures value { result ≡ at + length (listed entries) }
    ensures out_after { out.new ≡ sets out.old at (listed entries) }
{
    let a = put_bytes(out, at, b"; ");
    let b = put_decimal(out, a, entries as u64);
    put_bytes(out, b, b" entries\n")
}

fn put_cut_line(out: &mut [u8], number: u64, byte: u64) -> usize
    requires { 256 ≤ length out.old }
    ensures value { result ≡ 0 + length (cut_refused number byte) }
    ensures out_after { out.new ≡ sets out.old 0 (cut_refused number byte) }
{
    let a = put_refused_at(out, TABLE_REFUSED, byte);
    let r = Report {
        number: TABLE_REFUSED,
        entries: 0,
        place: byte,
        first: number,
        second: 0,
    };
    let b = put_reason(out, a, r);
    put_bytes(out, b, b"\n")
}

fn put_accepted_table(out: &mut [u8], bytes: ByteLength) -> usize
    requires { 256 ≤ length out.old }
    ensures value { result ≡ 0 + length (accepted_table bytes.0) }
    ensures out_after { out.new ≡ sets out.old 0 (accepted_table bytes.0) }
{
    let a = put_bytes(out, 0, b"accepted: ");
    let b = put_decimal(out, a, bytes.0 as u64);
    put_bytes(out, b, b" bytes\n")
}

fn put_refused_table(out: &mut [u8], number: u8, byte: ByteLength) -> usize
    requires { 256 ≤ length out.old }
    ensures value { result ≡ 0 + length (refused_table number byte.0) }
    ensures out_after { out.new ≡ sets out.old 0 (refused_table number byte.0) }
{
    let a = put_bytes(out, 0, b"refused ");
    let b = put_decimal(out, a, number as u64);
    let c = put_bytes(out, b, b" at byte ");
    let d = put_decimal(out, c, byte.0 as u64);
    let e = put_bytes(out, d, b": ");
    let f = put_bytes(out, e, fault(number as u64));
    put_bytes(out, f, b"\n")
}
