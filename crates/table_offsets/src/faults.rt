// The fifteen reasons to refuse a table ("Refusing a table"), in the order of their numbers.
ghost use Rattle.std.specs.Prelude.{◌≡◌};
ghost use Rattle.table_offsets.specs.Faults.{number as numberOf};

use numbers::faults;

#[derive(Clone, Copy, PartialEq, Eq)]
pub enum Fault {
    BadSize = faults::BAD_SIZE as isize,
    UnknownKind = faults::UNKNOWN_KIND as isize,
    CutShort = faults::CUT_SHORT as isize,
    PreambleMisplaced = faults::PREAMBLE_MISPLACED as isize,
    WrongVersion = faults::WRONG_VERSION as isize,
    TraceClassMisplaced = faults::TRACE_CLASS_MISPLACED as isize,
    IdUsed = faults::ID_USED as isize,
    IdUnknown = faults::ID_UNKNOWN as isize,
    KindNotAllowed = faults::KIND_NOT_ALLOWED as isize,
    NumberOutOfRange = faults::NUMBER_OUT_OF_RANGE as isize,
    SlotNotAllowed = faults::SLOT_NOT_ALLOWED as isize,
    RoleNotAllowed = faults::ROLE_NOT_ALLOWED as isize,
    RangesContradict = faults::RANGES_CONTRADICT as isize,
    TooDeep = faults::TOO_DEEP as isize,
    TooManyFragments = faults::TOO_MANY_FRAGMENTS as isize,
}

// The first record with a fault: which fault, and the record's first byte.
#[derive(Clone, Copy)]
pub struct FaultAt {
    pub fault: Fault,
    pub byte: usize,
}

impl Fault {
    // Its number, 1 to 15.
    pub fn number(self) -> u8
        ensures { result ≡ numberOf self }
    {
        self as u8
    }
}
