// The packet's clock: a value with one method, that takes a stamp and its bits and hands back the new clock. (000 6.2.1)
#![tactic(auto)]

ghost use Rattle.std.specs.Prelude.{◌≡◌, ◌%◌, ◌^◌, ◌<◌};
ghost use Rattle.rules.specs.Clock.{clock_after};
ghost use Rattle.clock.specs.Ticked.{ticked_of};

// "Clock, from 0 at each packet" (Reading)
#[derive(Clone, Copy)]
pub struct Clock {
    pub value: u64,
}

impl Clock {
    pub fn start() -> Self
        ensures { result.value ≡ 0 }
    {
        Clock { value: 0 }
    }

    // The clock after a stamp of so many bits: 1 to 64, or 7 for each byte of a LEB128 number.
    pub fn after(self, stamp: u64, width: u64) -> Option<Clock>
        requires { stamp < 2 ^ width }
        ensures { result ≡ ticked_of (clock_after self.value width stamp) }
    {
        let old = self.value;
        let advance = cut(stamp.wrapping_sub(old), width);
        if advance <= u64::MAX - old {
            Some(Clock {
                value: old + advance,
            })
        } else {
            None
        }
    }
}

// A number cut to so many bits. From 64 on that is all of it.
fn cut(number: u64, width: u64) -> u64
    ensures { result ≡ number % 2 ^ width }
{
    let is_short = width < 64;
    if is_short {
        number % (1 << width)
    } else {
        number
    }
}
