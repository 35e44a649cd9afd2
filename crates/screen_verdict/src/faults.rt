// What is wrong with a table, by the number that refuses it ("Refusing a table").
ghost use Rattle.std.specs.Prelude.{◌≡◌};
ghost use Rattle.screen_verdict.specs.Sentences.{fault as Sentences·fault};

#[tactic(auto, unfolding(crate::specs::Sentences::sentences))]
pub(crate) fn fault(number: u64) -> &'static [u8]
    ensures { result.now ≡ Sentences·fault number }
{
    match number {
        1 => b"the table is empty, or has more than 65,536 bytes",
        2 => b"this kind of record is unknown",
        3 => b"the table ends inside this record, or before one that was announced",
        4 => b"the first record is no preamble, or this is a second one",
        5 => b"the version is not 2",
        6 => b"this trace class stands after a stream class, or is a second one",
        7 => b"this clock id, stream class id or pair of event ids was used before",
        8 => b"the clock or stream class that is named here does not stand earlier",
        9 => b"this kind is not allowed here, or this root is foreign, repeated or out of turn",
        10 => b"a number is outside its range",
        11 =>
            b"a slot is named that is not allowed here, or is set both inside an array element and outside it",
        12 => b"a role is given that is not allowed here",
        13 => b"a range has low above high, signs are mixed, or the ranges of two options meet",
        14 => b"this class stands at depth 9",
        15 => b"there are more than 512 clock, stream and event classes",
        _ => b"no number of the paper",
    }
}
