// What is left of a run of fields, in numbers alone. A structure or an optional is opened in place: its parts stand where its record ends,
// and end where it ends, so that they take its turn among the classes. The class of a variant's option, and an array's elements, stand in
// front of what was left, which is put off. Where something is put off already, or an element is open, a run cannot take such a field: it
// stands in a run of its own, or is read by itself.
#![tactic(auto)]

ghost use Rattle.std.specs.Prelude.{◌≡◌, false, ◌+◌, ◌<◌, ◌^◌, length};
ghost use Rattle.field_runs.specs.Run.{members_run, elements_run, alone_run, free, over, element, first_at, count_of};
ghost use Rattle.field_runs.specs.Run.{border, can_open, forward_run, behind_run, taken_run, opened_run, put_off_run, into_run};

use numbers::kinds;
use table_bytes::size_at;

// `todo` classes one behind the other from the byte `next` on; then the class at `again`, `more` times; then `rest` classes from `later`
// on. `forgets`, where it is not 0: each time that class is an element of an array, what comes before it is too, and the slots that it can
// set are forgotten at the element's start and end (02, 3); the number says which, as it is noted (class_layout, words).
#[derive(Clone, Copy)]
pub struct Run {
    pub next: usize,
    pub todo: usize,
    pub again: usize,
    pub more: usize,
    pub later: usize,
    pub rest: usize,
    pub forgets: usize,
}

// `count` classes one behind the other.
pub fn members(at: usize, count: usize) -> Run
    ensures { result ≡ members_run at count }
{
    Run {
        next: at,
        todo: count,
        again: at,
        more: 0,
        later: at,
        rest: 0,
        forgets: 0,
    }
}

// One class, `count` times.
pub fn elements(at: usize, count: usize, forgets: usize) -> Run
    ensures { result ≡ elements_run at count forgets }
{
    Run {
        next: at,
        todo: 0,
        again: at,
        more: count,
        later: at,
        rest: 0,
        forgets,
    }
}

// What a field holds, in a run of its own: elements of one class, or members.
pub fn alone(at: usize, count: usize, many: bool, forgets: usize) -> Run
    ensures { result ≡ alone_run at count many forgets }
{
    if many {
        return elements(at, count, forgets);
    }
    members(at, count)
}

// Whether nothing is left, and no element is open: `forward` closes one behind which nothing is left.
pub fn is_over(run: Run) -> bool
    ensures { result ≡ over run }
{
    if run.todo != 0 {
        return false;
    }
    if run.more != 0 {
        return false;
    }
    if run.forgets != 0 {
        return false;
    }
    run.rest == 0
}

// Whether nothing comes behind the classes that stand one behind the other, and no element ends with them, so that they can be put off.
pub fn is_free(run: Run) -> bool
    ensures { result ≡ free run }
{
    if 0 < run.more {
        return false;
    }
    if 0 < run.rest {
        return false;
    }
    run.forgets == 0
}

// Whether what the first member of a kind holds can be read in its run: an optional's class always, in its place.
pub fn is_open(kind: u8, run: Run) -> bool
    ensures { result ≡ can_open kind run }
{
    if kind == kinds::OPTIONAL {
        return true;
    }
    is_free(run)
}

// Whether an element begins or ends here whose slots are forgotten.
pub fn is_border(run: Run) -> bool
    ensures { result ≡ border run }
{
    if is_element(run) {
        return run.forgets != 0;
    }
    false
}

// Behind the border: the next element as a member, where slots are forgotten; what was put off, where nothing else is left.
pub fn forward(run: Run) -> Run
    ensures { result ≡ forward_run run }
{
    if 0 < run.todo {
        return run;
    }
    if 0 < run.more {
        if run.forgets != 0 {
            return taken(run);
        }
        return run;
    }
    members(run.later, run.rest)
}

// Whether the first field is an element.
pub fn is_element(run: Run) -> bool
    ensures { result ≡ element run }
{
    run.todo == 0
}

// Where the class of the first field stands.
pub fn first(run: Run) -> usize
    ensures { result ≡ first_at run }
{
    if run.todo == 0 {
        return run.again;
    }
    run.next
}

// How many fields there are of the first one's sort, members or elements.
pub fn count(run: Run) -> usize
    ensures { result ≡ count_of run }
{
    if run.todo == 0 {
        return run.more;
    }
    run.todo
}

// Behind some fields: the last one's class, and how many are left of their sort.
pub fn behind(run: Run, sizes: &[u16], last: usize, left: usize) -> Run
    requires { (last < length sizes.now) × (last < 2 ^ 63) }
    ensures { result ≡ behind_run run sizes.now last left }
{
    if run.todo == 0 {
        return Run { more: left, ..run };
    }
    Run {
        next: last + size_at(sizes, last),
        todo: left,
        ..run
    }
}

// The first field is an element no more, but a member in front of the other elements.
pub fn taken(run: Run) -> Run
    requires { 0 < count_of run }
    ensures { result ≡ taken_run run }
{
    if 0 < run.todo {
        return run;
    }
    Run {
        next: run.again,
        todo: 1,
        more: run.more - 1,
        ..run
    }
}

// The parts of the first member stand for it; they end where it ends.
pub fn opened(run: Run, from: usize, parts: usize) -> Run
    requires { (0 < run.todo) × (run.todo + parts < 2 ^ 63) }
    ensures { result ≡ opened_run run from parts }
{
    Run {
        next: from,
        todo: run.todo - 1 + parts,
        ..run
    }
}

// A class so many times, as elements of an array or of none, and what is behind the first member later.
pub fn put_off(run: Run, sizes: &[u16], at: usize, times: usize, forgets: usize) -> Run
    requires { (0 < run.todo) × (run.next < length sizes.now) × (run.next < 2 ^ 63) }
    ensures { result ≡ put_off_run run sizes.now at times forgets }
{
    Run {
        next: at,
        todo: 0,
        again: at,
        more: times,
        later: run.next + size_at(sizes, run.next),
        rest: run.todo - 1,
        forgets,
    }
}

// Into the first member: its parts; a variant's class; or its elements, and what is forgotten around each.
pub fn into(
    kind: u8,
    run: Run,
    sizes: &[u16],
    from: usize,
    parts: usize,
    elements: bool,
    forgets: usize,
) -> Run
    requires { (0 < run.todo) × (elements ≡ false → run.todo + parts < 2 ^ 63) × (run.next < length sizes.now) × (run.next < 2 ^ 63) }
    ensures { result ≡ into_run kind run sizes.now from parts elements forgets }
{
    if elements {
        return put_off(run, sizes, from, parts, forgets);
    }
    if kind == kinds::VARIANT {
        return put_off(run, sizes, from, 1, 0);
    }
    opened(run, from, parts)
}
