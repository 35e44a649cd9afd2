// Where a fragment's roots and its UUID stand.
#![tactic(auto)]

ghost use Rattle.std.specs.Prelude.{◌≡◌, ◌+◌, ◌≤◌, length};
ghost use Rattle.class_layout.specs.Fragments.{root_place};
ghost use Rattle.class_layout.specs.Sizes.{SizedFragment, uuid_place};

use class_layout::openings::{behind_root, opening_of, root_here};
use table_records::bodies::ROOT_SIZE;

// Where the class of a fragment's root stands, by the root's turn: 0 for the first that such a fragment may have.
pub fn root_place(table: &[u8], sizes: &[u16], fragment: usize, turn: usize) -> Option<usize>
    requires { (SizedFragment table.now sizes.now fragment) × (length table.now ≤ 65536) × (length table.now ≤ length sizes.now) }
    ensures { result ≡ root_place table.now fragment turn }
{
    let opens = opening_of(table[fragment]);
    if opens.count as usize <= turn {
        return None;
    }
    let number = opens.first + turn as u8;
    let mut at = fragment + opens.size;
    for earlier in opens.first..number {
        at = behind_root(table, sizes, at, earlier);
    }
    if root_here(table, at, number) {
        return Some(at + ROOT_SIZE);
    }
    None
}

// Where the UUID stands of the trace class at a byte.
pub fn uuid_place(table: &[u8], fragment: usize) -> Option<usize>
    requires { fragment + 2 ≤ length table.now }
    ensures { result ≡ uuid_place table.now fragment }
{
    let has_none = table[fragment + 1] == 0;
    if has_none {
        return None;
    }
    Some(fragment + 2)
}
