// Fields that hold fields, kinds 28 to 32. `read_field` lists a field's own entry and hands what is inside to a walk, one depth less; a walk
// reads leaves itself, opens in its run what it can, and hands only what is left back to `read_field`. The slots go by value through these
// calls alone: a leaf says which slot it sets and the walk sets it, since to copy all sixty-four costs more than most leaves.
//
// What stopped hands back state and slots as they came, whatever was read inside it; only the list keeps what was listed.
ghost use Rattle.std.specs.Prelude.{◌≡◌, ◌+◌, ◌^◌, ◌≤◌, ◌<◌, length};
ghost use Rattle.rules.specs.Limits.{words_per_entry};
ghost use Rattle.rules.specs.Record.{u8};
ghost use Rattle.rules.specs.Class.{sets};
ghost use Rattle.rules.specs.Verdict.{stop_at};
ghost use Rattle.rules.specs.Field.{read, read_members, times};
ghost use Rattle.frame.specs.Framed.{Framed, env_of};
ghost use Rattle.class_layout.specs.Numbers.{number_at};
ghost use Rattle.class_layout.specs.Trees.{IsWhole, WholeMembers, stood_at, class_at, members_at};
ghost use Rattle.class_layout.specs.Notes.{notes, Prepared};
ghost use Rattle.field_inside.specs.Inside.{element_of};
ghost use Rattle.field_runs.specs.Ahead.{ahead, WholeRun, Forgets};
ghost use Rattle.field_read.specs.Reads.{FieldReads, stopped_field, entered};

use crate::{Field, at};
use class_slots::{ONE_SLOT, forgotten};
use field_inside::look::slot_read;
use field_inside::opening::{enter_structure, open_field};
use field_runs::{
    Run, behind, count, elements, first, forward, into, is_border, is_element, is_open, is_over,
    members, opened, taken,
};
use frame::Frame;
use leaf_read::{content_of, leaf_slot, read_leaves};
use listing::entry::is_full;
use listing::{Progress, at_place, role};
use numbers::kinds;
use numbers::limits::WORDS_PER_ENTRY;
use rules::{BitPlace, Content, Refusal, Slot, Stop};
use table_bytes::wide;
use table_records::bodies::STRUCTURE_SIZE;

// The field of the class at a byte, which holds fields, where there is room for its entry. `left` depths are left, its own among them.
#[cycle(read_field_walk_walk_elements_walk_members)]
pub fn read_field(
    table: &[u8],
    sizes: &[u16],
    aligns: &[u32],
    uuid: &[u8],
    stream: &[u8],
    frame: Frame,
    at: usize,
    left: usize,
    st: Progress,
    slots: [Slot; 64],
    list: &mut [u64],
) -> Field
    requires whole { IsWhole left table.now at }
    requires bound { (28 ≤ u8 table.now at) × (words_per_entry ≤ length list.old) }
    requires prepared { Prepared table.now (notes sizes.now aligns.now) }
    requires framed { Framed stream.now frame st.place }
    ensures { FieldReads
        (read (env_of stream.now uuid.now frame) (number_at table.now at) (class_at left table.now at))
        st slots result
        list.old list.new }
{
    let mut content = Content::Unset;
    let i = slot_read(table, at);
    if i < 64 {
        content = slots[i].content;
    }
    let o = open_field(table, sizes, aligns, frame, at, st.place, content, list);
    if !o.on {
        return refused(o.why, o.place, 0, st, slots);
    }
    let next = at_place(o.place, st);
    let r = if o.elements {
        walk_elements(
            table,
            sizes,
            aligns,
            uuid,
            stream,
            frame,
            o.from,
            o.count,
            o.forgets,
            left - 1, // for elements
            next,
            slots,
            &mut list[WORDS_PER_ENTRY..],
        )
    } else {
        walk_members(
            table,
            sizes,
            aligns,
            uuid,
            stream,
            frame,
            o.from,
            o.count,
            left - 1, // for members
            next,
            slots,
            &mut list[WORDS_PER_ENTRY..],
        )
    };
    behind_entry(r, st, slots)
}

// A field's own entry stands before what is inside it. What stopped hands back what came to the field, not what its entry left.
fn behind_entry(inside: Field, st: Progress, slots: [Slot; 64]) -> Field
    requires { words_per_entry + inside.used < 2 ^ 64 }
    ensures { result ≡ entered inside st slots }
{
    match inside.went {
        Err(stop) => stopped(stop, WORDS_PER_ENTRY + inside.used, st, slots),
        Ok(()) => Field {
            used: WORDS_PER_ENTRY + inside.used,
            ..inside
        },
    }
}

// The fields of `count` classes that stand one behind the other, from a byte of the table on.
#[cycle(read_field_walk_walk_elements_walk_members)]
pub fn walk_members(
    table: &[u8],
    sizes: &[u16],
    aligns: &[u32],
    uuid: &[u8],
    stream: &[u8],
    frame: Frame,
    at: usize,
    count: usize,
    left: usize,
    st: Progress,
    given: [Slot; 64],
    list: &mut [u64],
) -> Field
    requires whole_members { WholeMembers (IsWhole left table.now) (stood_at left table.now) at count }
    requires prepared { Prepared table.now (notes sizes.now aligns.now) }
    requires framed { Framed stream.now frame st.place }
    ensures { FieldReads
        (read_members (env_of stream.now uuid.now frame) (number_at table.now at)
        (members_at (stood_at left table.now) at count))
        st given result list.old list.new }
{
    walk(
        table,
        sizes,
        aligns,
        uuid,
        stream,
        frame,
        members(at, count),
        left,
        st,
        given,
        list,
    )
}

// `count` fields of the one class at a byte of the table.
#[cycle(read_field_walk_walk_elements_walk_members)]
fn walk_elements(
    table: &[u8],
    sizes: &[u16],
    aligns: &[u32],
    uuid: &[u8],
    stream: &[u8],
    frame: Frame,
    at: usize,
    count: usize,
    forgets: usize,
    left: usize,
    st: Progress,
    given: [Slot; 64],
    list: &mut [u64],
) -> Field
    requires whole { IsWhole left table.now at }
    requires forgets { Forgets count forgets (sets (class_at left table.now at)) }
    requires prepared { Prepared table.now (notes sizes.now aligns.now) }
    requires framed { Framed stream.now frame st.place }
    ensures { FieldReads (times count (element_of (env_of stream.now uuid.now frame) (number_at table.now at)
        (class_at left table.now at)))
        st given result list.old list.new }
{
    walk(
        table,
        sizes,
        aligns,
        uuid,
        stream,
        frame,
        elements(at, count, forgets),
        left,
        st,
        given,
        list,
    )
}

// Both walks: a run of fields, none of which needs more than `left` depths. A structure or an optional is opened in its run, and an array or a
// variant where nothing is put off; for any other the run is left to `read_field`, and gone on with behind it. What was put off comes
// forward, and an array is closed, before anything is asked of the next field; no room (40) comes before all else of one, and is not tested
// where none is left.
#[cycle(read_field_walk_walk_elements_walk_members)]
fn walk(
    table: &[u8],
    sizes: &[u16],
    aligns: &[u32],
    uuid: &[u8],
    stream: &[u8],
    frame: Frame,
    begun: Run,
    left: usize,
    st: Progress,
    given: [Slot; 64],
    list: &mut [u64],
) -> Field
    requires whole_run { WholeRun left table.now begun }
    requires prepared { Prepared table.now (notes sizes.now aligns.now) }
    requires framed { Framed stream.now frame st.place }
    ensures { FieldReads (ahead left table.now (env_of stream.now uuid.now frame) begun) st given result
        list.old list.new }
{
    let mut state = st;
    let mut place = st.place;
    let mut order = st.order;
    let mut slots = given;
    let mut used: usize = 0;
    let mut run = begun;
    loop {
        if is_border(run) {
            if run.forgets <= ONE_SLOT {
                let only = run.forgets - 1;
                slots[only] = Slot {
                    content: Content::Unset,
                };
            } else {
                slots = forgotten(table, sizes, run.again, slots);
            }
        }
        run = forward(run);
        if is_over(run) {
            return Field {
                went: Ok(()),
                used,
                state: at(place, order, state),
                slots,
            };
        }
        if is_full(list.len() - used) {
            return refused(Refusal::ListFull, place, used, st, given); // 40
        }
        let next = first(run);
        let kind = table[next];
        if kind < kinds::FIRST_THAT_HOLDS {
            let mut content = Content::Unset;
            let i = leaf_slot(table, next);
            if i < 64 {
                content = slots[i].content;
            }
            let r = read_leaves(
                table,
                sizes,
                aligns,
                uuid,
                stream,
                frame,
                next,
                count(run),
                is_element(run),
                place,
                order,
                content,
                &mut list[used..],
            );
            used = used + r.used;
            place = r.place;
            order = r.order;
            if !r.on {
                return refused(r.why, place, used, st, given);
            }
            let last = r.at;
            run = behind(run, sizes, last, r.todo);
            let to = r.slot as usize;
            if to < 64 {
                let content = content_of(table[last], r.value);
                slots[to] = Slot { content };
            }
            let role = r.role;
            if role != 0 {
                let said = role::apply(
                    role,
                    r.width,
                    r.value,
                    at(place, order, state),
                    &mut list[used..],
                );
                used = used + said.used;
                if let Err(stop) = said.went {
                    return stopped(stop, used, st, given);
                }
                state = said.state;
            }
            continue;
        }
        run = taken(run);
        if kind == kinds::STRUCTURE {
            let o = enter_structure(table, aligns, frame, next, place, &mut list[used..]);
            place = o.place;
            if !o.on {
                return refused(Refusal::PastBound, place, used, st, given);
            }
            run = opened(run, next + STRUCTURE_SIZE, wide(table[next + 1]));
            used = used + WORDS_PER_ENTRY;
            continue;
        }
        let mut content = Content::Unset;
        let i = slot_read(table, next);
        if i < 64 {
            content = slots[i].content;
        }
        if is_open(kind, run) {
            let o = open_field(
                table,
                sizes,
                aligns,
                frame,
                next,
                place,
                content,
                &mut list[used..],
            );
            place = o.place;
            if !o.on {
                return refused(o.why, place, used, st, given);
            }
            run = into(kind, run, sizes, o.from, o.count, o.elements, o.forgets);
            used = used + WORDS_PER_ENTRY;
            continue;
        }
        let r = read_field(
            table,
            sizes,
            aligns,
            uuid,
            stream,
            frame,
            next,
            left,
            at(place, order, state),
            slots,
            &mut list[used..],
        );
        used = used + r.used;
        if let Err(stop) = r.went {
            return stopped(stop, used, st, given); // not `state`
        }
        state = r.state;
        place = state.place;
        order = state.order;
        slots = r.slots;
        run = behind(run, sizes, next, run.todo - 1);
    }
}

// What stopped at a place.
fn refused(why: Refusal, place: BitPlace, used: usize, st: Progress, slots: [Slot; 64]) -> Field
    ensures { result ≡ stopped_field (stop_at why place) used st slots }
{
    stopped(Stop { why, place }, used, st, slots)
}

// What stopped: state and slots are those that came.
fn stopped(stop: Stop, used: usize, st: Progress, slots: [Slot; 64]) -> Field
    ensures { result ≡ stopped_field stop used st slots }
{
    Field {
        went: Err(stop),
        used,
        state: st,
        slots,
    }
}
