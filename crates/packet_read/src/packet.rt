// One packet, step by step as the paper lists them: "entry 1; header if any; stream class id must equal the first packet's (32); entry 2
// and the lookup (33)"; then what its stream class says.
ghost use Rattle.std.specs.Prelude.{◌≡◌, length};
ghost use Rattle.rules.specs.Slots.{no_slots, packet_slots};
ghost use Rattle.rules.specs.Packet.{read_packet, nothing_said};
ghost use Rattle.frame.specs.Framed.{Framed};
ghost use Rattle.listing.specs.Did.{full};
ghost use Rattle.class_layout.specs.Notes.{notes};
ghost use Rattle.class_layout.specs.Fragments.{asked_at};
ghost use Rattle.outcome.specs.Ran.{RanDid};
ghost use Rattle.packet_content.specs.Pieces.{whole_frame, Readable};
ghost use Rattle.class_lookup.specs.Index.{Hints};
ghost use Rattle.packet_read.specs.Pieces.{behind_header, fresh_state, Lent, Starts, PacketDid};

use class_lookup::find_stream_class;
use clock::Clock;
use contradictions::differs;
use listing::Progress;
use listing::entry::{is_full, write};
use numbers::entries;
use numbers::limits::WORDS_PER_ENTRY;
use outcome::{Ran, refused, stopped, with_last};
use packet_content::{read_of_stream, whole_frame};
use packet_root::read_root;
use rules::{BitPlace, Content, Entry, Refusal, Said, Slot};

// The packet that begins at a state, the numberth; the first one's stream class id if it is not the first.
pub fn read_packet(
    table: &[u8],
    sizes: &[u16],
    aligns: &[u32],
    index: &[u32],
    uuid: &[u8],
    header: Option<usize>,
    stream: &[u8],
    number: u64,
    first: Option<u64>,
    begun: Progress,
    list: &mut [u64],
) -> Ran
    requires lent { Lent table.now (notes sizes.now aligns.now) uuid.now header stream.now }
    requires starts { Starts stream.now begun.place }
    requires hints { Hints table.now index.now }
    ensures { PacketDid (read_packet (asked_at table.now) stream.now number first) begun result list.old list.new }
{
    let place = begun.place;
    if is_full(list.len()) {
        return refused(Refusal::ListFull, place, 0, begun);
    }
    write(
        list,
        Entry {
            kind: entries::PACKET_STARTS,
            place,
            bits: 0,
            value: number,
            number: 0,
        },
    );
    let frame = whole_frame(stream, place);
    let h = read_root(
        table,
        sizes,
        aligns,
        uuid,
        stream,
        frame,
        header,
        fresh(begun),
        no_slots(),
        &mut list[WORDS_PER_ENTRY..],
    );
    let used = WORDS_PER_ENTRY + h.used;
    if let Err(stop) = h.went {
        return stopped(stop, used, begun);
    }
    let r = read_behind_header(
        table,
        sizes,
        aligns,
        index,
        uuid,
        stream,
        place,
        first,
        h.state,
        h.slots,
        &mut list[used..],
    );
    with_last(used, r, begun)
}

// Behind the header: 32, the lookup (33), entry 2, and what the stream class says.
fn read_behind_header(
    table: &[u8],
    sizes: &[u16],
    aligns: &[u32],
    index: &[u32],
    uuid: &[u8],
    stream: &[u8],
    start: BitPlace,
    first: Option<u64>,
    st: Progress,
    slots: [Slot; 64],
    list: &mut [u64],
) -> Ran
    requires readable { Readable table.now (notes sizes.now aligns.now) uuid.now stream.now }
    requires framed { Framed stream.now (whole_frame stream.now start) st.place }
    requires hints { Hints table.now index.now }
    requires slots_value { packet_slots slots ≡ slots }
    ensures { RanDid (behind_header (asked_at table.now) stream.now start first (full st slots (length list.old)))
        st result list.old list.new }
{
    let place = st.place;
    let id = st.said.stream;
    if differs(id, first) {
        return refused(Refusal::StreamClassChanged, place, 0, st);
    }
    if is_full(list.len()) {
        return refused(Refusal::ListFull, place, 0, st);
    }
    match find_stream_class(table, sizes, id) {
        None => refused(Refusal::StreamClassUnknown(id), place, 0, st),
        Some(class) => {
            write(
                list,
                Entry {
                    kind: entries::STREAM_CLASS_FOUND,
                    place,
                    bits: 0,
                    value: id,
                    number: 0,
                },
            );
            let r = read_of_stream(
                table,
                sizes,
                aligns,
                index,
                uuid,
                stream,
                start,
                class,
                id,
                st,
                slots,
                &mut list[WORDS_PER_ENTRY..],
            );
            with_last(WORDS_PER_ENTRY, r, st)
        }
    }
}

// "Clock, from 0 at each packet"; no role has said anything, and no field has an order yet.
fn fresh(st: Progress) -> Progress
    ensures { result ≡ fresh_state st }
{
    Progress {
        order: None,
        clock: Clock::start(),
        said: nothing_said(),
        ..st
    }
}

pub fn nothing_said() -> Said
    ensures { result ≡ nothing_said }
{
    Said {
        stream: 0,
        total: None,
        content: None,
        ending: None,
        event: 0,
    }
}

// "All slots are unset when a packet starts"
fn no_slots() -> [Slot; 64]
    ensures { result ≡ no_slots }
{
    let none = Slot {
        content: Content::Unset,
    };
    [none; 64]
}
