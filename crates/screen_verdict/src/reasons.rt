// Why a reading was refused, by its number ("Refusing a stream").
ghost use Rattle.std.specs.Prelude.{◌≡◌, ◌+◌, ◌<◌, ◌≤◌, length};
ghost use Rattle.std.proofs.lemmas.List.Edits.{sets};
ghost use Rattle.screen_verdict.specs.Sentences.{plain_reason as Sentences·plain_reason, reason};
ghost use Rattle.screen_verdict.specs.Sentences.{table_refused, bound_crossed, no_stream_class, no_event_class};

use crate::faults::fault;
use rules::Report;
use screen_number::{put_bytes, put_decimal};

// With the place and the ids that the sentence names. Of 22 the place is the bound, not the field's.
pub(crate) fn put_reason(out: &mut [u8], at: usize, r: Report) -> usize
    requires { at + 142 ≤ length out.old }
    ensures value { result ≡ at + length (reason r.number r.place r.first r.second) }
    ensures out_after { out.new ≡ sets out.old at (reason r.number r.place r.first r.second) }
{
    match r.number {
        20 => put_table_refused(out, at, r.first),
        22 => put_bound_crossed(out, at, r.place),
        33 => put_no_stream_class(out, at, r.first),
        37 => put_no_event_class(out, at, r.first, r.second),
        _ => put_bytes(out, at, plain_reason(r.number)),
    }
}

fn put_table_refused(out: &mut [u8], at: usize, number: u64) -> usize
    requires { at + 142 ≤ length out.old }
    ensures value { result ≡ at + length (table_refused number) }
    ensures out_after { out.new ≡ sets out.old at (table_refused number) }
{
    let a = put_bytes(out, at, b"the table is refused by ");
    let b = put_decimal(out, a, number);
    let c = put_bytes(out, b, b": ");
    put_bytes(out, c, fault(number))
}

fn put_bound_crossed(out: &mut [u8], at: usize, bound: u64) -> usize
    requires { at + 142 ≤ length out.old }
    ensures value { result ≡ at + length (bound_crossed bound) }
    ensures out_after { out.new ≡ sets out.old at (bound_crossed bound) }
{
    let a = put_bytes(
        out,
        at,
        b"the field behind the last entry crosses the bound at bit ",
    );
    put_decimal(out, a, bound)
}

fn put_no_stream_class(out: &mut [u8], at: usize, id: u64) -> usize
    requires { at + 142 ≤ length out.old }
    ensures value { result ≡ at + length (no_stream_class id) }
    ensures out_after { out.new ≡ sets out.old at (no_stream_class id) }
{
    let a = put_bytes(out, at, b"the table has no stream class ");
    put_decimal(out, a, id)
}

fn put_no_event_class(out: &mut [u8], at: usize, stream: u64, event: u64) -> usize
    requires { at + 142 ≤ length out.old }
    ensures value { result ≡ at + length (no_event_class stream event) }
    ensures out_after { out.new ≡ sets out.old at (no_event_class stream event) }
{
    let a = put_bytes(out, at, b"the table has no event class ");
    let b = put_decimal(out, a, event);
    let c = put_bytes(out, b, b" in stream class ");
    put_decimal(out, c, stream)
}

#[tactic(auto, unfolding(crate::specs::Sentences::sentences))]
fn plain_reason(number: u8) -> &'static [u8]
    ensures { result.now ≡ Sentences·plain_reason number }
{
    match number {
        21 => b"the stream is empty, or has more than 536,870,911 bytes",
        23 => b"the byte order changes off a byte boundary",
        24 => b"a LEB128 number is too long or too large at its tenth byte",
        25 => b"there is no zero byte before the bound",
        26 => b"a slot is read that no field has set, or only one in an array element that is over",
        27 => b"a slot is read that is of the wrong sort",
        28 => b"a length is above 65,535",
        29 => b"the selector is in no option",
        30 => b"the magic number is wrong",
        31 => b"the UUID is wrong",
        32 => b"the stream class is not the first packet's",
        34 => b"the packet's lengths contradict each other, the stream or the context",
        35 => b"the packet's start clock is above its end clock",
        36 => b"the clock needs more than 64 bits",
        38 => b"the event took no bits",
        39 => b"the clock is below the previous event's",
        40 => b"the list is full",
        41 => b"the string behind the last entry is not UTF-8 text",
        _ => b"no number of the paper",
    }
}
