// Six decimals of a float below 10 to the 12, in words of 64 bits. A float is m * 2 ^ up, or m / 2 ^ down; m millionths are
// high * 2 ^ 32 + low.
ghost use Rattle.std.specs.Prelude.{◌≡◌, true, ◌+◌, ◌*◌, ◌/◌, ◌%◌, ◌^◌, ◌<◌, ◌≤◌};
ghost use Rattle.screen_meaning.specs.Float.{over, below, is_exact, millionths as Float·millionths};

// 10 to the 12.
const LIMIT: u64 = 1_000_000_000_000;

const MILLION: u64 = 1_000_000;

// 2 to the 32.
const WORD: u64 = 0x1_0000_0000;

// Whether m * 2 ^ up is below 10 to the 12.
pub(crate) fn below_up(m: u64, up: u64) -> bool
    ensures { result ≡ below m up 0 }
{
    if 40 <= up {
        return m == 0;
    }
    m <= (LIMIT - 1) / power(up)
}

// Its millionths.
pub(crate) fn whole(m: u64, up: u64) -> u64
    requires { below m up 0 ≡ true }
    ensures { result ≡ Float·millionths m up 0 }
{
    if 40 <= up {
        return 0;
    }
    m * power(up) * MILLION
}

// Whether m / 2 ^ down is below 10 to the 12.
pub(crate) fn below_down(m: u64, down: u64) -> bool
    requires { m < 2 ^ 53 }
    ensures { result ≡ below m 0 down }
{
    if 14 <= down {
        return true;
    }
    m < LIMIT * power(down)
}

// Whether six decimals are all of it.
pub(crate) fn is_exact(m: u64, down: u64) -> bool
    requires { m < 2 ^ 53 }
    ensures { result ≡ is_exact m 0 down }
{
    if down <= 32 {
        return low(m) % power(down) == 0;
    }
    if 94 < down {
        return m == 0;
    }
    if low(m) == 0 {
        return high(m) % power(down - 32) == 0;
    }
    false
}

// Its millionths, to the nearest one, half up.
pub(crate) fn millionths(m: u64, down: u64) -> u64
    requires m_bound { (m < 2 ^ 53) × (0 < down) }
    requires down_value { below m 0 down ≡ true }
    ensures { result ≡ Float·millionths m 0 down }
{
    if down <= 32 {
        let half = power(down - 1);
        return high(m) * power(32 - down) + (low(m) + half) / power(down);
    }
    if 94 < down {
        return 0;
    }
    let half = power(down - 33);
    (high(m) + half) / power(down - 32)
}

// Of m millionths what is below 2 ^ 32, and how often that goes into them.
fn low(m: u64) -> u64
    ensures { result ≡ over m 0 % 2 ^ 32 }
{
    m % WORD * MILLION % WORD
}

fn high(m: u64) -> u64
    requires { m < 2 ^ 53 }
    ensures { result ≡ over m 0 / 2 ^ 32 }
{
    m / WORD * MILLION + m % WORD * MILLION / WORD
}

fn power(n: u64) -> u64
    requires { n < 64 }
    ensures { result ≡ 2 ^ n }
{
    1u64 << n
}
