// The lines of standard input.
ghost use Rattle.std.specs.Prelude.{◌<◌};

// How many bytes a line has, its end included.
pub(crate) const LENGTH: usize = 20;

// A letter, and two numbers or, in their place, a name.
#[derive(Clone, Copy)]
pub(crate) struct Line<'a> {
    pub letter: u8,
    pub a: u32,
    pub b: u32,
    pub name: &'a [u8],
}

impl<'a> Line<'a> {
    pub fn new(text: &'a [u8; LENGTH]) -> Line<'a> {
        Line {
            letter: text[0],
            a: number(&text[2..10]),
            b: number(&text[11..19]),
            name: &text[2..19],
        }
    }
}

// The number that hexadecimal digits write, or the lowest 32 bits of it.
fn number(digits: &[u8]) -> u32 {
    digits.iter().fold(0, |x, &b| x << 4 | digit(b))
}

// The value of a digit; 0 for any other byte, capital letters too.
fn digit(b: u8) -> u32
    ensures { result < 16 }
{
    match b {
        b'0'..=b'9' => u32::from(b - b'0'),
        b'a'..=b'f' => u32::from(b - b'a' + 10),
        _ => 0,
    }
}

// Two words as one number.
pub(crate) fn join(high: u32, low: u32) -> u64 {
    u64::from(high) << 32 | u64::from(low)
}
