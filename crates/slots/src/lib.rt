// What a slot's content is taken as, a length or a number of a sign: 26, 27 and 28 come from taking it apart.
#![tactic(auto)]

ghost use Rattle.std.specs.Prelude.{◌≡◌};
ghost use Rattle.rules.specs.Faults.{sign_of};
ghost use Rattle.slots.specs.Taken.{length_of, number_of};

use numbers::{limits, signs};
use rules::{Content, Refusal};

// "A length needs an unsigned number", of 65,535 at most.
pub fn length_of(content: Content) -> Result<usize, Refusal>
    ensures { result ≡ length_of content }
{
    let n = number_of(content, signs::UNSIGNED)?;
    if limits::LENGTH_LIMIT < n {
        return Err(Refusal::LengthTooLarge);
    }
    Ok(n as usize)
}

// "with ranges, a number of their sign, as a variant does" (Reading)
pub fn number_of(content: Content, sign: u8) -> Result<u64, Refusal>
    ensures { result ≡ number_of (sign_of sign) content }
{
    match content {
        Content::Unset => Err(Refusal::SlotUnset),
        Content::Flag(_) => Err(Refusal::SlotOfWrongSort),
        Content::Unsigned(n) => {
            if sign == signs::UNSIGNED {
                return Ok(n);
            }
            Err(Refusal::SlotOfWrongSort)
        }
        Content::Signed(n) => {
            if sign == signs::UNSIGNED {
                return Err(Refusal::SlotOfWrongSort);
            }
            Ok(n)
        }
    }
}
