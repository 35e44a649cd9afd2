// Which bytes of a text are not shown as they are.
ghost use Rattle.std.specs.Prelude.{◌≡◌};
ghost use Rattle.screen_text.specs.Escape.{hidden as Escape·hidden, control as Escape·control, control2 as Escape·control2};
ghost use Rattle.screen_text.specs.Escape.{formless as Escape·formless, formless_e2, formless_ef, within as Escape·within};

// Of a character that is hidden: by the two bytes before it, itself, and the two behind it.
pub(crate) fn hidden(a: u8, b: u8, c: u8, d: u8, e: u8) -> bool
    ensures { result ≡ Escape·hidden a b c d e }
{
    if control(c) {
        return true;
    }
    if control2(c, d) {
        return true;
    }
    if control2(b, c) {
        return true;
    }
    if formless(c, d, e) {
        return true;
    }
    if formless(b, c, d) {
        return true;
    }
    formless(a, b, c)
}

// U+0000 to U+001F, U+007F.
fn control(b: u8) -> bool
    ensures { result ≡ Escape·control b }
{
    if b < 32 {
        return true;
    }
    b == 127
}

// U+0080 to U+009F.
fn control2(b: u8, c: u8) -> bool
    ensures { result ≡ Escape·control2 b c }
{
    if b == 0xC2 {
        return within(0x80, 0x9F, c);
    }
    false
}

// U+200B to U+200F, U+2028 to U+202E, U+2060 to U+206F, U+FEFF.
fn formless(b: u8, c: u8, d: u8) -> bool
    ensures { result ≡ Escape·formless b c d }
{
    if b == 0xE2 {
        return formless_e2(c, d);
    }
    if b == 0xEF {
        return formless_ef(c, d);
    }
    false
}

fn formless_e2(c: u8, d: u8) -> bool
    ensures { result ≡ formless_e2 c d }
{
    if c == 0x80 {
        if within(0x8B, 0x8F, d) {
            return true;
        }
        return within(0xA8, 0xAE, d);
    }
    if c == 0x81 {
        return within(0xA0, 0xAF, d);
    }
    false
}

fn formless_ef(c: u8, d: u8) -> bool
    ensures { result ≡ formless_ef c d }
{
    if c == 0xBB {
        return d == 0xBF;
    }
    false
}

fn within(low: u8, high: u8, b: u8) -> bool
    ensures { result ≡ Escape·within low high b }
{
    if low <= b {
        return b <= high;
    }
    false
}
