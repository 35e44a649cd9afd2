// The list: "Lent 64-bit words, four an entry, each entry written into what remains of the list: kind, place, bits, value."; "Each entry
// grows to five words; the fifth is the number of the class record within its own fragment" (02, 7).
ghost use Rattle.std.specs.Prelude.{◌≡◌, [], ◌∷◌, ◌++◌, ◌≤◌, ltb, length, drop};
ghost use Rattle.rules.specs.Limits.{words_per_entry};
ghost use Rattle.rules.specs.Entry.{words};

use numbers::limits;
use rules::Entry;

// The one place where room for an entry is asked for: "under four words left" (40), five with the fifth (02, 7). `left` words remain of the
// list.
pub fn is_full(left: usize) -> bool
    ensures { result ≡ ltb left words_per_entry }
{
    left < limits::WORDS_PER_ENTRY
}

// The one place where an entry is written.
pub fn write(list: &mut [u64], entry: Entry)
    requires { words_per_entry ≤ length list.old }
    ensures { list.new ≡ words (entry ∷ []) ++ drop words_per_entry list.old }
{
    list[0] = entry.kind;
    list[1] = entry.place.0;
    list[2] = entry.bits;
    list[3] = entry.value;
    list[4] = entry.number;
}
