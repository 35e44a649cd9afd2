// The types that the decoding rules and the code share. The rules themselves are the definitions in specs/, in the order that
// specs/Lib.antt lists them; no function stands here, and no proof. Each enum that is an answer has a definition in specs/ that
// gives document 01's number and values for each case.
#![tactic(auto)]

// A place in a stream, in bits from its start. Never a count of bytes.
#[derive(Clone, Copy)]
pub struct BitPlace(pub u64);

// A count of bytes. Never a place in bits.
#[derive(Clone, Copy)]
pub struct ByteLength(pub usize);

// The order of a field's bits: each byte's low bit first, or its high bit first.
#[derive(Clone, Copy)]
pub enum Order {
    Little,
    Big,
}

// What a slot holds. A signed number is its 64-bit word.
#[derive(Clone, Copy)]
pub enum Content {
    Unset,
    Flag(bool),
    Unsigned(u64),
    Signed(u64),
}

// One of the sixty-four slots.
#[derive(Clone, Copy)]
pub struct Slot {
    pub content: Content,
}

// What the roles of a packet's or an event's fields said.
#[derive(Clone, Copy)]
pub struct Said {
    pub stream: u64,
    pub total: Option<u64>,
    pub content: Option<u64>,
    pub ending: Option<u64>,
    pub event: u64,
}

// An entry of the list.
#[derive(Clone, Copy)]
pub struct Entry {
    pub kind: u64,
    pub place: BitPlace,
    pub bits: u64,
    pub value: u64,
    pub number: u64,
}

// What reading a LEB128 number finds: the number in 64 bits and its bytes; that its bytes run past the bound; that it is too long
// or too large. Three ends, which whoever reads one tells apart: a Result would put two of them into one.
#[derive(Clone, Copy)]
pub enum Leb {
    Value { value: u64, bytes: ByteLength },
    Past,
    Large,
}

// Why a stream is refused.
#[derive(Clone, Copy)]
pub enum Refusal {
    StreamSize,
    PastBound,
    OrderChanged,
    LebTooLarge,
    NoZeroByte,
    SlotUnset,
    SlotOfWrongSort,
    LengthTooLarge,
    SelectorInNoOption,
    WrongMagic,
    WrongUuid,
    StreamClassChanged,
    StreamClassUnknown(u64),
    LengthsContradict,
    ClocksContradict,
    ClockTooLarge,
    EventClassUnknown(u64, u64),
    EventTookNoBits,
    ClockWentBack,
    ListFull,
    NotText,
}

// Why a stream is refused, and where.
#[derive(Clone, Copy)]
pub struct Stop {
    pub why: Refusal,
    pub place: BitPlace,
}

// How a reading ends. A refused table has a number and a byte; all else has a place in bits. Three ends of the rules' own, which the
// promises name (`OneCall`): no code builds one.
#[derive(Clone, Copy)]
pub enum Verdict {
    Accepted(BitPlace),
    TableRefused(u8, ByteLength),
    Refused(Stop),
}

// What a reading answers beside the list. The place counts bits from the stream's start; of a refused table (20) it is a byte.
#[derive(Clone, Copy)]
pub struct Report {
    pub number: u8,
    pub entries: usize,
    pub place: u64,
    pub first: u64,
    pub second: u64,
}

// Why a table is refused: a number of "Refusing a table", and the byte of the record at fault. A check that finds no fault answers the
// table's length.
#[derive(Clone, Copy)]
pub struct TableFault {
    pub number: u8,
    pub byte: ByteLength,
}

// Why no bundle is written: the table that it is cut from is refused; over sixteen streams; how many bytes are needed. One that is written
// has a length.
#[derive(Clone, Copy)]
pub enum NoBundle {
    Table(TableFault),
    TooManyStreams,
    ShortBuffer(ByteLength),
}
