// Which stream and event classes a list names: a mark by the byte of the table where each fragment opens. Entry 2 names a stream class.
// Entry 5 names an event class of the stream class in front, that of the latest entry 2, and the stream class with it, so that no law
// about lists is needed to say that an event class never stays without its stream class.
#![tactic(auto)]

ghost use Rattle.std.specs.Prelude.{◌≡◌, ◌*◌, ◌≤◌, length};
ghost use Rattle.rules.specs.Limits.{table_limit, words_per_entry};
ghost use Rattle.class_layout.specs.Sizes.{Sized};
ghost use Rattle.class_lookup.specs.Index.{Hints};
ghost use Rattle.bundle_marks.specs.Marked.{entries_of, stream_place, front_of, Below, mark_at, next_front, mark_one, mark_list};

use class_lookup::{find_event_class, find_stream_class};
use numbers::entries;
use numbers::limits::WORDS_PER_ENTRY;

// The stream class in front: its id, and where it stands.
#[derive(Clone, Copy)]
struct Front {
    id: u64,
    place: Option<usize>,
}

// The word of an entry that is its value.
const VALUE: usize = 3;

// Marks the classes that the first entries of a list name. In front of its first entry 2 the stream class is 0.
pub fn mark(
    table: &[u8],
    sizes: &[u16],
    index: &[u32],
    list: &[u64],
    entries: usize,
    marks: &mut [u8],
)
    requires sized { (Sized table.now sizes.now) × (Hints table.now index.now) }
    requires entries_in_bounds { (words_per_entry * entries ≤ length list.now) × (table_limit ≤ length marks.old) }
    ensures { marks.new ≡ mark_list table.now 0 (entries_of entries list.now) marks.old }
{
    let mut front = in_front(table, sizes, 0);
    for i in 0..entries {
        let at = WORDS_PER_ENTRY * i;
        front = mark_entry(
            table,
            sizes,
            index,
            list[at],
            list[at + VALUE],
            front,
            marks,
        );
    }
}

// By one entry; gives the stream class in front behind it.
fn mark_entry(
    table: &[u8],
    sizes: &[u16],
    index: &[u32],
    kind: u64,
    value: u64,
    front: Front,
    marks: &mut [u8],
) -> Front
    requires sized { (Sized table.now sizes.now) × (Hints table.now index.now) }
    requires place_value { (front.place ≡ stream_place table.now front.id) × (table_limit ≤ length marks.old) }
    ensures { (result ≡ front_of table.now (next_front front.id kind value))
        × (marks.new ≡ mark_one table.now front.id kind value marks.old) }
{
    if kind == entries::STREAM_CLASS_FOUND {
        let found = in_front(table, sizes, value);
        let place = found.place;
        mark_place(marks, place);
        return found;
    }
    let names_event = kind == entries::EVENT_CLASS_FOUND;
    if names_event {
        mark_place(
            marks,
            find_event_class(table, sizes, index, front.id, value),
        );
        let place = front.place;
        mark_place(marks, place);
        return front;
    }
    front
}

// The stream class that has an id.
fn in_front(table: &[u8], sizes: &[u16], id: u64) -> Front
    requires { Sized table.now sizes.now }
    ensures { result ≡ front_of table.now id }
{
    let place = find_stream_class(table, sizes, id);
    Front { id, place }
}

fn mark_place(marks: &mut [u8], place: Option<usize>)
    requires { Below (length marks.old) place }
    ensures { marks.new ≡ mark_at place marks.old }
{
    match place {
        Some(at) => marks[at] = 1,
        None => {}
    }
}
