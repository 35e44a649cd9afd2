// What a role does with the number of its field, once that is listed. The place is behind the field.
ghost use Rattle.std.specs.Prelude.{◌≡◌, ◌<◌, ◌^◌, length};
ghost use Rattle.rules.specs.Faults.{role_of};
ghost use Rattle.rules.specs.Class.{clock};
ghost use Rattle.rules.specs.Field.{role as roleStep};
ghost use Rattle.listing.specs.Did.{RoleDid};
ghost use Rattle.listing.specs.Roled.{Stamp, on_done, said_done, stopped_done, magic_done, held_at, advanced_by, list_advanced};

use crate::{Progress, entry};
use clock::Clock;
use numbers::{entries, limits, roles};
use rules::{BitPlace, Entry, Refusal, Said, Stop};

// What a role did: how it went, the words that it listed, and the state behind it.
#[derive(Clone, Copy)]
pub struct Roled {
    pub went: Result<(), Stop>,
    pub used: usize,
    pub state: Progress,
}

// A clock that a stamp advances: whether it does, if not why not, and the clock behind it.
#[derive(Clone, Copy)]
pub struct Advanced {
    pub on: bool,
    pub why: Refusal,
    pub clock: Clock,
}

// The role of a number, which has `width` bits as a timestamp.
pub fn apply(role: u8, width: u64, value: u64, st: Progress, list: &mut [u64]) -> Roled
    requires { Stamp role width value }
    ensures { RoleDid (roleStep (role_of role) width value) st result list.old list.new }
{
    match role {
        roles::MAGIC => check_magic(value, st),
        roles::STREAM_CLASS_ID => say(
            st,
            Said {
                stream: value,
                ..st.said
            },
        ),
        roles::TOTAL_LENGTH => say(
            st,
            Said {
                total: Some(value),
                ..st.said
            },
        ),
        roles::CONTENT_LENGTH => say(
            st,
            Said {
                content: Some(value),
                ..st.said
            },
        ),
        roles::CLOCK => tick(width, value, st, list),
        roles::END_CLOCK => say(
            st,
            Said {
                ending: Some(value),
                ..st.said
            },
        ),
        roles::EVENT_CLASS_ID => say(
            st,
            Said {
                event: value,
                ..st.said
            },
        ),
        _ => on(st),
    }
}

// "validate that V is 0xc1fc1fc1" (000 6.1)
fn check_magic(value: u64, st: Progress) -> Roled
    ensures { result ≡ magic_done value st }
{
    if value == limits::MAGIC_NUMBER {
        return on(st);
    }
    stopped(Refusal::WrongMagic, st)
}

// The clock's role by numbers: "entry 6 shows it": "place after the field, L, clock" (The list)
pub fn advance(place: BitPlace, width: u64, value: u64, clock: Clock, list: &mut [u64]) -> Advanced
    requires { value < 2 ^ width }
    ensures { (result ≡ advanced_by width value clock (length list.old)) × (list.new ≡ list_advanced place width result list.old) }
{
    if entry::is_full(list.len()) {
        return held(Refusal::ListFull, clock);
    }
    match clock.after(value, width) {
        None => held(Refusal::ClockTooLarge, clock),
        Some(next) => {
            entry::write(
                list,
                Entry {
                    kind: entries::CLOCK_ADVANCED,
                    place,
                    bits: width,
                    value: next.value,
                    number: 0,
                },
            );
            Advanced {
                on: true,
                why: Refusal::ClockTooLarge,
                clock: next,
            }
        }
    }
}

// The clock stays as it was.
fn held(why: Refusal, clock: Clock) -> Advanced
    ensures { result ≡ held_at why clock }
{
    Advanced {
        on: false,
        why,
        clock,
    }
}

// The clock's role, with a state.
fn tick(width: u64, value: u64, st: Progress, list: &mut [u64]) -> Roled
    requires { value < 2 ^ width }
    ensures { RoleDid (roleStep clock width value) st result list.old list.new }
{
    let a = advance(st.place, width, value, st.clock, list);
    if !a.on {
        return stopped(a.why, st);
    }
    Roled {
        went: Ok(()),
        used: limits::WORDS_PER_ENTRY,
        state: Progress {
            clock: a.clock,
            ..st
        },
    }
}

fn say(st: Progress, said: Said) -> Roled
    ensures { result ≡ said_done st said }
{
    on(Progress { said, ..st })
}

fn on(st: Progress) -> Roled
    ensures { result ≡ on_done st }
{
    Roled {
        went: Ok(()),
        used: 0,
        state: st,
    }
}

fn stopped(why: Refusal, st: Progress) -> Roled
    ensures { result ≡ stopped_done why st }
{
    Roled {
        went: Err(Stop {
            why,
            place: st.place,
        }),
        used: 0,
        state: st,
    }
}
