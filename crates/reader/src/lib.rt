// Reading a stream by a table: the table's check (20), the stream's size (21), the table's notes and the index of its event classes, and
// the packets.
#![tactic(auto)]

ghost use Rattle.std.specs.Prelude.{◌≡◌, ◌≤◌, length};
ghost use Rattle.rules.specs.declared.Refusal.TheVariants.{StreamSize};
ghost use Rattle.rules.specs.Limits.{stream_limit};
ghost use Rattle.rules.specs.Place.{byte_length, bit_place};
ghost use Rattle.rules.specs.Verdict.{stop_at};
ghost use Rattle.rules.specs.Parse.{checked};
ghost use Rattle.rules.specs.Read.{read_all, read_stream, result_of, list_after};
ghost use Rattle.class_layout.specs.Notes.{notes};
ghost use Rattle.class_layout.specs.Fragments.{asked_at};
ghost use Rattle.class_lookup.specs.Index.{Hints};
ghost use Rattle.event_turns.specs.Ready.{Ready};
ghost use Rattle.packet_read.specs.Pieces.{Lent};
ghost use Rattle.reader_result.specs.Answer.{refused_with};
ghost use Rattle.reader.specs.Answers.{Answers};

use check_table::check;
use class_lookup::{PLACES, find_trace_class, make_index};
use class_notes::prepare;
use class_roots::{root_place, uuid_place};
use numbers::{faults, limits};
use packet_read::read_packets;
use reader_result::{answer, refused};
use rules::{BitPlace, Refusal, Report, Stop};

// Reads a stream by a table: lists its entries, and answers how it went. For every table, stream and list the rules' own answer.
pub fn read(table: &[u8], stream: &[u8], list: &mut [u64]) -> Report
    ensures { (result ≡ result_of (read_all table.now stream.now (length list.old)))
        × (list.new ≡ list_after (read_all table.now stream.now (length list.old)) list.old) }
{
    match check(table) {
        Err(fault) => Report {
            number: faults::TABLE_REFUSED,
            entries: 0,
            place: fault.byte.0 as u64,
            first: fault.number as u64,
            second: 0,
        },
        Ok(_) => read_stream(table, stream, list),
    }
}

// By an accepted table: 21, and then the packets.
fn read_stream(table: &[u8], stream: &[u8], list: &mut [u64]) -> Report
    requires { checked table.now ≡ Ok (byte_length (length table.now)) }
    ensures { Answers (read_stream (asked_at table.now) stream.now (length list.old)) result list.old list.new }
{
    if stream.len() == 0 {
        return bad_size();
    }
    let too_long = limits::STREAM_LIMIT < stream.len();
    if too_long {
        return bad_size();
    }
    let mut sizes = [0; limits::TABLE_LIMIT];
    let mut aligns = [0; limits::TABLE_LIMIT];
    prepare(table, &mut sizes, &mut aligns);
    let mut index = [0; PLACES];
    make_index(table, &sizes, &mut index);
    read_prepared(table, &sizes, &aligns, &index, stream, list)
}

// The table's notes and the index are made: the trace class's UUID and header are looked up, and the packets read.
fn read_prepared(
    table: &[u8],
    sizes: &[u16],
    aligns: &[u32],
    index: &[u32],
    stream: &[u8],
    list: &mut [u64],
) -> Report
    requires ready { Ready table.now (notes sizes.now aligns.now) }
    requires in_bounds { (1 ≤ length stream.now) × (length stream.now ≤ stream_limit) }
    requires hints { Hints table.now index.now }
    ensures { Answers (read_stream (asked_at table.now) stream.now (length list.old)) result list.old list.new }
{
    match find_trace_class(table, sizes) {
        None => read_by(
            table,
            sizes,
            aligns,
            index,
            &table[0..0],
            None,
            stream,
            list,
        ),
        Some(trace) => {
            let header = root_place(table, sizes, trace, 0);
            match uuid_place(table, trace) {
                None => {
                    read_by(
                        table,
                        sizes,
                        aligns,
                        index,
                        &table[0..0],
                        header,
                        stream,
                        list,
                    )
                }
                Some(at) => read_by(
                    table,
                    sizes,
                    aligns,
                    index,
                    &table[at..at + limits::UUID_BYTES],
                    header,
                    stream,
                    list,
                ),
            }
        }
    }
}

// By the trace class's UUID and header: the packets, and the result's numbers.
fn read_by(
    table: &[u8],
    sizes: &[u16],
    aligns: &[u32],
    index: &[u32],
    uuid: &[u8],
    header: Option<usize>,
    stream: &[u8],
    list: &mut [u64],
) -> Report
    requires lent { Lent table.now (notes sizes.now aligns.now) uuid.now header stream.now }
    requires in_bounds { 1 ≤ length stream.now }
    requires hints { Hints table.now index.now }
    ensures { Answers (read_stream (asked_at table.now) stream.now (length list.old)) result list.old list.new }
{
    answer(read_packets(table, sizes, aligns, index, uuid, header, stream, list))
}

fn bad_size() -> Report
    ensures { result ≡ refused_with (stop_at StreamSize (bit_place 0)) 0 }
{
    let place = BitPlace(0);
    refused(
        Stop {
            why: Refusal::StreamSize,
            place,
        },
        0,
    )
}
