// The numbers and bytes of a case, from standard input. `End` and `fill` are those of `vectors`: a crate for both would have functions
// that read and print, and no contract can say what they do.
use std::io::Read;

// Why no further case is answered.
#[derive(Clone, Copy)]
pub(crate) enum End {
    OfInput,
    CutShort,
    TooLong,
}

// The numbers that a case begins with.
#[derive(Clone, Copy)]
pub(crate) struct Head {
    pub(crate) table: usize,
    pub(crate) streams: usize,
    pub(crate) buffer: usize,
    pub(crate) whole: Option<Whole>,
}

// What is said only of a whole case.
#[derive(Clone, Copy)]
pub(crate) struct Whole {
    pub(crate) lists: usize,
    pub(crate) bytes: usize,
    pub(crate) words: usize,
}

pub(crate) fn read_head(rt: &HostRuntime, whole: bool) -> Result<Head, End> {
    let table = next_number(rt).ok_or(End::OfInput)?;
    let streams = number(rt);
    let buffer = number(rt);
    let whole = if whole { Some(read_whole(rt)) } else { None };
    Ok(Head {
        table,
        streams,
        buffer,
        whole,
    })
}

fn read_whole(rt: &HostRuntime) -> Whole {
    let lists = number(rt);
    let bytes = number(rt);
    let words = number(rt);
    Whole {
        lists,
        bytes,
        words,
    }
}

// Four bytes, "little-endian", if the input has them.
fn next_number(rt: &HostRuntime) -> Option<usize> {
    let mut bytes = [0u8; 4];
    rt.stdin().read_exact(&mut bytes).ok()?;
    Some(u32::from_le_bytes(bytes) as usize)
}

// Within a case. One that is not there is 0: what the case lends behind it is not there then, and that is said.
fn number(rt: &HostRuntime) -> usize {
    next_number(rt).unwrap_or(0)
}

// A length and a room, so many times, or until there is no place for more.
pub(crate) fn read_parts(rt: &HostRuntime, count: usize, lengths: &mut [u64], rooms: &mut [u64]) {
    for i in 0..count {
        let length = number(rt) as u64;
        let room = number(rt) as u64;
        // what has no place is read too: the input goes on behind it
        let (Some(at), Some(beside)) = (lengths.get_mut(i), rooms.get_mut(i)) else {
            return;
        };
        *at = length;
        *beside = room;
    }
}

// So many bytes of the input, in a room that may be too small for them.
pub(crate) fn fill<'a>(
    rt: &HostRuntime,
    room: &'a mut [u8],
    length: usize,
) -> Result<&'a [u8], End> {
    let part = room.get_mut(..length).ok_or(End::TooLong)?;
    rt.stdin().read_exact(part).map_err(|_| End::CutShort)?;
    Ok(part)
}
