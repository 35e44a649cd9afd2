// Document 01's figures ("Figures to check against"): what is read, and what comes out. In readings: those that are whole readings.
#![tactic(auto)]

use clock::Clock;
use readings::say_readings;
use rules::{BitPlace, ByteLength, Leb, Order};
use std::fmt::Display;

mod readings;

fn main(rt: HostRuntime) {
    say_numbers(&rt);
    say_clocks(&rt);
    say_places(&rt);
    say_readings(&rt);
}

fn say_numbers(rt: &impl Print) {
    say_bits(rt, "12 bits twice, little", Order::Little);
    say_bits(rt, "12 bits twice, big", Order::Big);
    let three = leb128::unsigned(b"\xE5\x8E\x26", ByteLength(0), ByteLength(3));
    say_leb(rt, "E5 8E 26 unsigned", three, |word| word);
    let below_zero = leb128::signed(b"\xC0\xBB\x78", ByteLength(0), ByteLength(3));
    say_leb(rt, "C0 BB 78 signed", below_zero, |word| word.cast_signed());
    let zero = leb128::unsigned(b"\x80\x00", ByteLength(0), ByteLength(2));
    say_leb(rt, "80 00 unsigned", zero, |word| word);
}

fn say_clocks(rt: &impl Print) {
    say_clock(
        rt,
        "clock 250, L 8, stamp 5",
        Clock { value: 250 }.after(5, 8),
    );
    say_clock(
        rt,
        "clock 261, L 8, stamp 5",
        Clock { value: 261 }.after(5, 8),
    );
    say_clock(
        rt,
        "clock 5, L 64, stamp 4",
        Clock { value: 5 }.after(4, 64),
    );
    say_clock(
        rt,
        "clock 5, L 70, stamp 4",
        Clock { value: 5 }.after(4, 70),
    );
}

fn say_places(rt: &impl Print) {
    let near = places::align(BitPlace(1), BitPlace(0), 3);
    let _ = println!(rt; "offset 1 aligned to 8: {}", near.0);
    let there = places::align(BitPlace(8), BitPlace(0), 3);
    let _ = println!(rt; "offset 8 aligned to 8: {}", there.0);
    let signed = bits::sign_extend(8, 4).cast_signed();
    let _ = println!(rt; "four bits 1000 signed: {signed}");
}

// The figure's bytes, AB CD EF, as two numbers of 12 bits.
fn say_bits(rt: &impl Print, words: &str, order: Order) {
    let bytes = b"\xAB\xCD\xEF";
    let first = bits::take(bytes, BitPlace(0), 12, order);
    let second = bits::take(bytes, BitPlace(12), 12, order);
    let _ = println!(rt; "{words}: {first} {second}");
}

// The number that the word stands for, and L, 7 bits a byte: no LEB128 number has more than ten bytes. Or else what refuses it.
fn say_leb<N: Display + Drop, F: FnOnce(u64) -> N>(
    rt: &impl Print,
    words: &str,
    answer: Leb,
    number: F,
)
    requires { F.IsAlwaysCallable number }
{
    let _ = match answer {
        Leb::Value { value, bytes } => println!(rt;
            "{words}: {} with L {}",
            number(value),
            bytes.0 % 11 * 7
        ),
        Leb::Past => println!(rt; "{words}: 22"),
        Leb::Large => println!(rt; "{words}: 24"),
    };
}

fn say_clock(rt: &impl Print, words: &str, answer: Option<Clock>) {
    let _ = match answer {
        Some(clock) => println!(rt; "{words}: {}", clock.value),
        None => println!(rt; "{words}: 36"),
    };
}
