// What an accepted class table gives a reading: where each class stands whole (specs/Trees), where the fragments and their roots do
// (specs/Fragments), what is noted of them once (specs/Notes), and that these are the rules' own (proofs). Here are the types that code
// shares with these definitions, and the bytes of a class record. In openings: where a fragment's roots stand. In walk: a walk over
// fragments. In words: the word that is noted of a class.
#![tactic(auto)]

ghost use Rattle.std.specs.Prelude.{◌≡◌, ◌≤◌};
ghost use Rattle.class_layout.specs.Trees.{shape_of, record_size};

use table_records::bodies::body_of;

pub mod openings;
pub mod walk;
pub mod words;

// Where a class ends, its alignment's exponent, and what it sets (words).
#[derive(Clone, Copy)]
pub struct Reach {
    pub next: usize,
    pub align: u64,
    pub sets: usize,
}

// The bytes of a class record, its kind among them.
pub fn record_size(kind: u8) -> usize
    requires { (16 ≤ kind) × (kind ≤ 32) }
    ensures { (result ≡ record_size (shape_of kind)) × (result ≤ 256) }
{
    match body_of(kind) {
        Some(n) => n + 1,
        None => 0,
    }
}
