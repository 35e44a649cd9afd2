// Where the roots of a fragment stand, and where it ends. Places stay below 300,000: behind a place in the table there are at most three
// roots, each of a 16-bit size.
ghost use Rattle.std.specs.Prelude.{◌≡◌, ◌+◌, ◌≤◌, length};
ghost use Rattle.class_layout.specs.Fragments.{root_here, behind_fragment, Fragment};
ghost use Rattle.class_layout.specs.Sizes.{SizedRoots, SizedRoot, behind_root, OpeningOf};

use numbers::kinds;
use table_bytes::size_at;
use table_records::bodies;

// The byte behind a fragment and its roots.
pub fn behind_fragment(table: &[u8], sizes: &[u16], fragment: usize) -> usize
    requires { (Fragment table.now fragment) × (SizedRoots table.now sizes.now fragment) × (length table.now ≤ 65536) × (length table.now ≤ length sizes.now) }
    ensures { result ≡ behind_fragment table.now fragment }
{
    let opens = opening_of(table[fragment]);
    let mut at = fragment + opens.size;
    for number in opens.first..opens.first + opens.count {
        at = behind_root(table, sizes, at, number);
    }
    at
}

// How a fragment opens: the bytes of its first record, its kind among them, and the numbers of the roots that it may have.
#[derive(Clone, Copy)]
pub struct Opening {
    pub size: usize,
    pub first: u8,
    pub count: u8,
}

pub fn opening_of(kind: u8) -> Opening
    requires { (2 ≤ kind) × (kind ≤ 5) }
    ensures { OpeningOf kind result }
{
    match kind {
        kinds::TRACE_CLASS => Opening {
            size: bodies::TRACE_CLASS_SIZE,
            first: 0,
            count: 1,
        },
        kinds::CLOCK_CLASS => Opening {
            size: bodies::CLOCK_CLASS_SIZE,
            first: 0,
            count: 0,
        },
        kinds::STREAM_CLASS => Opening {
            size: bodies::STREAM_CLASS_SIZE,
            first: 1,
            count: 3,
        },
        _ => Opening {
            size: bodies::EVENT_CLASS_SIZE,
            first: 4,
            count: 2,
        },
    }
}

// Whether a root stands at a byte.
pub fn root_here(table: &[u8], at: usize, number: u8) -> bool
    requires { at ≤ 300000 }
    ensures { result ≡ root_here table.now at number }
{
    if table.len() <= at + 1 {
        return false;
    }
    if table[at] == kinds::ROOT {
        return number == table[at + 1];
    }
    false
}

// The byte behind a root, if it stands at a byte; else that byte.
pub fn behind_root(table: &[u8], sizes: &[u16], at: usize, number: u8) -> usize
    requires { (SizedRoot table.now sizes.now at number) × (length table.now ≤ length sizes.now) × (at ≤ 300000) }
    ensures { (result ≡ behind_root table.now at number) × (result ≤ at + 65538) }
{
    if root_here(table, at, number) {
        return at + bodies::ROOT_SIZE + size_at(sizes, at + bodies::ROOT_SIZE);
    }
    at
}
