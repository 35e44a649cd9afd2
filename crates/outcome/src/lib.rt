// Parts of a reading that hand no slots on: what each did.
#![tactic(auto)]

ghost use Rattle.std.specs.Prelude.{◌≡◌, ◌+◌, ◌^◌, ◌<◌};
ghost use Rattle.rules.specs.Verdict.{stop_at};
ghost use Rattle.outcome.specs.Ran.{stopped_ran, last_ran};

use listing::Progress;
use rules::{BitPlace, Refusal, Stop};

// What a part of a reading did that hands no slots on: how it went, the words that it listed, and the state behind it.
#[derive(Clone, Copy)]
pub struct Ran {
    pub went: Result<(), Stop>,
    pub used: usize,
    pub state: Progress,
}

// What stopped hands back the state as it came.
pub fn stopped(stop: Stop, used: usize, st: Progress) -> Ran
    ensures { result ≡ stopped_ran stop used st }
{
    Ran {
        went: Err(stop),
        used,
        state: st,
    }
}

// What stopped at a place.
pub fn refused(why: Refusal, place: BitPlace, used: usize, st: Progress) -> Ran
    ensures { result ≡ stopped_ran (stop_at why place) used st }
{
    stopped(Stop { why, place }, used, st)
}

// What a whole did that began in a state and listed some words before its last part.
pub fn with_last(used: usize, last: Ran, st: Progress) -> Ran
    requires { used + last.used < 2 ^ 64 }
    ensures { result ≡ last_ran used last st }
{
    match last.went {
        Err(stop) => stopped(stop, used + last.used, st),
        Ok(()) => Ran {
            used: used + last.used,
            ..last
        },
    }
}
