// Floats of 32 and 64 bits, by integer arithmetic alone.
ghost use Rattle.std.specs.Prelude.{◌≡◌, ◌⊎◌, ◌+◌, ◌-◌, ◌*◌, ◌/◌, ◌%◌, ◌^◌, ◌<◌, ◌≤◌, length};
ghost use Rattle.std.proofs.lemmas.List.Edits.{sets};
ghost use Rattle.screen_meaning.specs.Float.{shown_float, binary32, binary64, finite, format, special, exact, exponent, power_signed};
ghost use Rattle.screen_meaning.specs.Float.{sign, lead, power_of, significand as Float·significand};
ghost use Rattle.screen_meaning.specs.Float.{decimals, marked, mark, six_decimals};

use crate::millionths::{below_down, below_up, is_exact, millionths, whole};
use screen_number::{put_bytes, put_decimal, put_hex, put_zeros};

// A format (IEEE 754): digits of the fraction in base 16, what an exponent is less by, the one before the fraction, and the exponent of the
// fraction's last bit.
#[derive(Clone, Copy)]
struct Format {
    digits: usize,
    bias: u64,
    unit: u64,
    low: u64,
}

const BINARY32: Format = Format {
    digits: 6,
    bias: 127,
    unit: 0x80_0000,
    low: 150,
};

const BINARY64: Format = Format {
    digits: 13,
    bias: 1023,
    unit: 0x10_0000_0000_0000,
    low: 1075,
};

// A number's sign, its exponent as it is written, and its fraction.
#[derive(Clone, Copy)]
struct Parts {
    negative: u64,
    raised: u64,
    fraction: u64,
}

// A float by its bits: exact in base 16, then in decimals.
pub fn put_float(out: &mut [u8], at: usize, bits: u64, value: u64) -> usize
    requires { at + 96 ≤ length out.old }
    ensures value { result ≡ at + length (shown_float bits value) }
    ensures out_after { out.new ≡ sets out.old at (shown_float bits value) }
{
    if bits == 32 {
        let parts = Parts {
            negative: value / 0x8000_0000 % 2,
            raised: value / 0x80_0000 % 256,
            fraction: value % 0x80_0000,
        };
        return put_binary32(out, at, parts);
    }
    let parts = Parts {
        negative: value / 0x8000_0000_0000_0000 % 2,
        raised: value / 0x10_0000_0000_0000 % 2048,
        fraction: value % 0x10_0000_0000_0000,
    };
    put_binary64(out, at, parts)
}

const TOP_32: u64 = 255;

const TOP_64: u64 = 2047;

fn put_binary32(out: &mut [u8], at: usize, p: Parts) -> usize
    requires at_in_bounds { at + 96 ≤ length out.old }
    requires raised_bound { (p.raised < 256) × (p.fraction < 2 ^ 23) }
    ensures value { result ≡ at + length (binary32 p.negative p.raised p.fraction) }
    ensures out_after { out.new ≡ sets out.old at (binary32 p.negative p.raised p.fraction) }
{
    if p.raised == TOP_32 {
        return put_special(out, at, p.negative, p.fraction);
    }
    put_finite(out, at, BINARY32, p, p.fraction * 2)
}

fn put_binary64(out: &mut [u8], at: usize, p: Parts) -> usize
    requires at_in_bounds { at + 96 ≤ length out.old }
    requires raised_bound { (p.raised < 2048) × (p.fraction < 2 ^ 52) }
    ensures value { result ≡ at + length (binary64 p.negative p.raised p.fraction) }
    ensures out_after { out.new ≡ sets out.old at (binary64 p.negative p.raised p.fraction) }
{
    if p.raised == TOP_64 {
        return put_special(out, at, p.negative, p.fraction);
    }
    put_finite(out, at, BINARY64, p, p.fraction)
}

fn put_special(out: &mut [u8], at: usize, negative: u64, fraction: u64) -> usize
    requires { at + 4 ≤ length out.old }
    ensures value { result ≡ at + length (special negative fraction) }
    ensures out_after { out.new ≡ sets out.old at (special negative fraction) }
{
    if fraction == 0 {
        let end = put_sign(out, at, negative);
        return put_bytes(out, end, b"inf");
    }
    put_bytes(out, at, b"nan")
}

// A number of a format by its parts, and the fraction filled to whole digits.
fn put_finite(out: &mut [u8], at: usize, f: Format, p: Parts, full: u64) -> usize
    requires at_in_bounds { at + 96 ≤ length out.old }
    requires digits_bound { (f.digits ≤ 13) × ((f.unit + p.fraction < 2 ^ 53) × (p.raised < 2048)) }
    ensures value { result ≡ at + length (finite (format f.digits f.bias f.unit f.low) p.negative p.raised p.fraction full) }
    ensures out_after { out.new ≡ sets out.old at (finite (format f.digits f.bias f.unit f.low) p.negative p.raised p.fraction full) }
{
    let a = put_sign(out, at, p.negative);
    let b = put_exact(out, a, f.digits, full, f.bias, p.raised, p.fraction);
    let power = power_of(p.raised);
    let m = significand(f.unit, p.raised, p.fraction);
    let up = power.saturating_sub(f.low);
    let down = f.low.saturating_sub(power);
    put_decimals(out, b, p.negative, m, up, down)
}

fn put_sign(out: &mut [u8], at: usize, negative: u64) -> usize
    requires { at + 1 ≤ length out.old }
    ensures value { result ≡ at + length (sign negative) }
    ensures out_after { out.new ≡ sets out.old at (sign negative) }
{
    if negative == 0 {
        return at;
    }
    put_bytes(out, at, b"-")
}

fn put_exact(
    out: &mut [u8],
    at: usize,
    digits: usize,
    filled: u64,
    bias: u64,
    raised: u64,
    fraction: u64,
) -> usize
    requires at_in_bounds { at + 40 ≤ length out.old }
    requires digits_bound { (digits ≤ 13) × (raised + fraction < 2 ^ 64) }
    ensures value { result ≡ at + length (exact digits filled bias raised fraction) }
    ensures out_after { out.new ≡ sets out.old at (exact digits filled bias raised fraction) }
{
    let a = put_bytes(out, at, b"0x");
    let b = put_lead(out, a, raised);
    let c = put_bytes(out, b, b".");
    let d = put_hex(out, c, digits, filled);
    let e = put_bytes(out, d, b"p");
    put_exponent(out, e, bias, raised, fraction)
}

fn put_lead(out: &mut [u8], at: usize, raised: u64) -> usize
    requires { at + 1 ≤ length out.old }
    ensures value { result ≡ at + length (lead raised) }
    ensures out_after { out.new ≡ sets out.old at (lead raised) }
{
    if raised == 0 {
        return put_bytes(out, at, b"0");
    }
    put_bytes(out, at, b"1")
}

fn put_exponent(out: &mut [u8], at: usize, bias: u64, raised: u64, fraction: u64) -> usize
    requires at_in_bounds { at + 21 ≤ length out.old }
    requires fraction_bound { raised + fraction < 2 ^ 64 }
    ensures value { result ≡ at + length (exponent bias raised fraction) }
    ensures out_after { out.new ≡ sets out.old at (exponent bias raised fraction) }
{
    if raised + fraction == 0 {
        return put_bytes(out, at, b"+0");
    }
    put_power(out, at, power_of(raised), bias)
}

fn put_power(out: &mut [u8], at: usize, up: u64, down: u64) -> usize
    requires { at + 21 ≤ length out.old }
    ensures value { result ≡ at + length (power_signed up down) }
    ensures out_after { out.new ≡ sets out.old at (power_signed up down) }
{
    if up < down {
        let a = put_bytes(out, at, b"-");
        return put_decimal(out, a, down - up);
    }
    let b = put_bytes(out, at, b"+");
    put_decimal(out, b, up - down)
}

fn power_of(raised: u64) -> u64
    ensures { result ≡ power_of raised }
{
    if raised == 0 {
        return 1;
    }
    raised
}

fn significand(unit: u64, raised: u64, fraction: u64) -> u64
    requires { unit + fraction < 2 ^ 53 }
    ensures { result ≡ Float·significand unit raised fraction }
{
    if raised == 0 {
        return fraction;
    }
    unit + fraction
}

// Six decimals, behind a mark that says whether they are exact; nothing from 10 to the 12 on.
fn put_decimals(out: &mut [u8], at: usize, negative: u64, m: u64, up: u64, down: u64) -> usize
    requires at_in_bounds { at + 44 ≤ length out.old }
    requires m_bound { (m < 2 ^ 53) × ((up ≡ 0) ⊎ (down ≡ 0)) }
    ensures value { result ≡ at + length (decimals negative m up down) }
    ensures out_after { out.new ≡ sets out.old at (decimals negative m up down) }
{
    if down == 0 {
        return put_whole(out, at, negative, m, up);
    }
    put_fraction(out, at, negative, m, down)
}

fn put_whole(out: &mut [u8], at: usize, negative: u64, m: u64, up: u64) -> usize
    requires { at + 44 ≤ length out.old }
    ensures value { result ≡ at + length (decimals negative m up 0) }
    ensures out_after { out.new ≡ sets out.old at (decimals negative m up 0) }
{
    if below_up(m, up) {
        return put_marked(out, at, true, negative, whole(m, up));
    }
    at
}

fn put_fraction(out: &mut [u8], at: usize, negative: u64, m: u64, down: u64) -> usize
    requires at_in_bounds { at + 44 ≤ length out.old }
    requires m_bound { (m < 2 ^ 53) × (0 < down) }
    ensures value { result ≡ at + length (decimals negative m 0 down) }
    ensures out_after { out.new ≡ sets out.old at (decimals negative m 0 down) }
{
    if below_down(m, down) {
        let exactly = is_exact(m, down);
        return put_marked(out, at, exactly, negative, millionths(m, down));
    }
    at
}

fn put_marked(out: &mut [u8], at: usize, exactly: bool, negative: u64, q: u64) -> usize
    requires { at + 44 ≤ length out.old }
    ensures value { result ≡ at + length (marked exactly negative q) }
    ensures out_after { out.new ≡ sets out.old at (marked exactly negative q) }
{
    let a = put_mark(out, at, exactly);
    let b = put_sign(out, a, negative);
    put_six(out, b, q)
}

fn put_mark(out: &mut [u8], at: usize, exactly: bool) -> usize
    requires { at + 2 ≤ length out.old }
    ensures value { result ≡ at + length (mark exactly) }
    ensures out_after { out.new ≡ sets out.old at (mark exactly) }
{
    if exactly {
        return put_bytes(out, at, b" =");
    }
    put_bytes(out, at, b" ~")
}

fn put_six(out: &mut [u8], at: usize, q: u64) -> usize
    requires { at + 41 ≤ length out.old }
    ensures value { result ≡ at + length (six_decimals q) }
    ensures out_after { out.new ≡ sets out.old at (six_decimals q) }
{
    let a = put_decimal(out, at, q / 1_000_000);
    let b = put_bytes(out, a, b".");
    put_zeros(out, b, 6, q % 1_000_000)
}
