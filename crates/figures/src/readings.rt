// The figures that are whole readings: what is read by, what is read, and the result's words.
ghost use Rattle.std.specs.Prelude.{◌≡◌, length};

pub(crate) fn say_readings(rt: &impl Print) {
    let mut list = list_room();
    say_first(rt, &mut list);
    say_elements(rt, &mut list);
    say_depths(rt, &mut list);
}

// The table of 40 bytes, with room and without; and without its event class.
fn say_first(rt: &impl Print, list: &mut [u64]) {
    let table =
        b"\x01\x02\x04\x00\x00\x00\x00\x00\x00\x00\x00\xFF\x05\x00\x00\x00\x00\x00\x00\x00\x00\x00\x00\x00\x00\x00\x00\x00\x00\x06\x05\x1C\x01\x00\x12\x08\x00\x00\xFF\x00";
    say_reading(rt, "2A in 40 words", table, b"\x2A", list, 40);
    say_reading(rt, "2A in 39 words", table, b"\x2A", list, 39);
    say_reading(
        rt,
        "2A, the event class left out",
        b"\x01\x02\x04\x00\x00\x00\x00\x00\x00\x00\x00\xFF",
        b"\x2A",
        list,
        40,
    );
}

// A number of 32 bits, and as many structures of nothing.
fn say_elements(rt: &impl Print, list: &mut [u64]) {
    let table =
        b"\x01\x02\x04\x00\x00\x00\x00\x00\x00\x00\x00\xFF\x05\x00\x00\x00\x00\x00\x00\x00\x00\x00\x00\x00\x00\x00\x00\x00\x00\x06\x05\x1C\x02\x00\x12\x20\x00\x00\x10\x00\x1E\x10\x00\x1C\x00\x00";
    let all = list.len();
    say_reading(rt, "65,535 elements", table, b"\xFF\xFF\x00\x00", list, all);
    say_reading(rt, "65,536 elements", table, b"\x00\x00\x01\x00", list, all);
}

// Structures of one member, one in another, the root's first; within the last a byte.
fn say_depths(rt: &impl Print, list: &mut [u64]) {
    say_reading(
        rt,
        "depth 8",
        b"\x01\x02\x04\x00\x00\x00\x00\x00\x00\x00\x00\xFF\x05\x00\x00\x00\x00\x00\x00\x00\x00\x00\x00\x00\x00\x00\x00\x00\x00\x06\x05\x1C\x01\x00\x1C\x01\x00\x1C\x01\x00\x1C\x01\x00\x1C\x01\x00\x1C\x01\x00\x1C\x01\x00\x12\x08\x00\x00\xFF\x00",
        b"\x2A",
        list,
        80,
    );
    say_reading(
        rt,
        "depth 9",
        b"\x01\x02\x04\x00\x00\x00\x00\x00\x00\x00\x00\xFF\x05\x00\x00\x00\x00\x00\x00\x00\x00\x00\x00\x00\x00\x00\x00\x00\x00\x06\x05\x1C\x01\x00\x1C\x01\x00\x1C\x01\x00\x1C\x01\x00\x1C\x01\x00\x1C\x01\x00\x1C\x01\x00\x1C\x01\x00\x12\x08\x00\x00\xFF\x00",
        b"\x2A",
        list,
        80,
    );
}

// Number, entries, place and both ids of a reading with so many words of the list: the list comes whole, since the proof of a caller that
// lends one part of it behind another doesn't close.
fn say_reading(
    rt: &impl Print,
    words: &str,
    table: &[u8],
    stream: &[u8],
    list: &mut [u64],
    room: usize,
) {
    let Some(list) = list.get_mut(..room) else {
        let _ = println!(rt; "{words}: no room");
        return;
    };
    let r = reader::read(table, stream, list);
    let _ = println!(rt;
        "{words}: {} with {} entries at {}, ids {} {}",
        r.number, r.entries, r.place, r.first, r.second
    );
}

// Room for 65,544 entries, 65,535 elements and nine more: so many cells, told by a law, where a caller that made them would walk over each.
fn list_room() -> [u64; 327720]
    ensures { 327720 ≡ length result }
{
    [0; 327720]
}
