// A walk over a table's fragments, from the front, by the sizes that are noted of them.
ghost use Rattle.std.specs.Prelude.{◌≡◌};
ghost use Rattle.std.specs.Iterator.{YieldsFirst, item_count};
ghost use Rattle.class_layout.specs.Fragments.{fragments_of};
ghost use Rattle.class_layout.specs.Sizes.{Sized};

use std::marker::Model;
use table_bytes::size_at;
use table_records::bodies::PREAMBLE_SIZE;

// The places of the fragments from a byte on, seen as the list of those that are left.
#[derive(Drop)]
pub struct Walk<'a> {
    table: &'a [u8],
    sizes: &'a [u16],
    at: usize,
}

impl<'a> Model for Walk<'a> {
    ghost use Rattle.std.specs.Prelude.{ℕ, List};
    ghost use Rattle.class_layout.specs.Sizes.{SizedFrom, places_from};

    ghost Value = { List ℕ };

    ghost view = { λ w. places_from w.table.now w.at };

    ghost invariant = { λ w. SizedFrom w.table.now w.sizes.now w.at };
}

impl<'a> Iterator for Walk<'a> {
    type Item = usize;

    ghost next_gives = { YieldsFirst (λ rest. rest) };

    ghost remaining = { item_count (λ rest. rest) };

    fn next(&mut self) -> Option<usize> {
        let at = self.at;
        if self.table.len() <= at {
            return None;
        }
        self.at = at + size_at(self.sizes, at);
        Some(at)
    }
}

// The fragments behind the preamble.
pub fn fragments<'a>(table: &'a [u8], sizes: &'a [u16]) -> Walk<'a>
    requires { Sized table.now sizes.now }
    ensures { result ≡ fragments_of table.now }
{
    Walk {
        table,
        sizes,
        at: PREAMBLE_SIZE,
    }
}
