// What a step of a reading lists, and the state that it hands on. In order: entry, the one place where room is asked for and the list is
// written; role, what a role does with a number; the state, which may move to a place.
#![tactic(auto)]

ghost use Rattle.std.specs.Prelude.{◌≡◌};
ghost use Rattle.listing.specs.Did.{at_place};

use clock::Clock;
use rules::{BitPlace, Order, Said, Stop};

pub mod entry;
pub mod role;

// What a reading of fields hands on from step to step, beside the slots and the list.
#[derive(Clone, Copy)]
pub struct Progress {
    pub place: BitPlace,
    pub order: Option<Order>,
    pub clock: Clock,
    pub last: u64,
    pub said: Said,
}

// The same state at a place.
pub fn at_place(place: BitPlace, st: Progress) -> Progress
    ensures { result ≡ at_place place st }
{
    Progress { place, ..st }
}
