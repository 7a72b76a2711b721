// Texts of numbers: decimal, with white space between. Of a model V and the vertex numbers, of
// positions signed numbers.
ghost use Rattle.std.specs.Prelude.{◌≡◌};
ghost use Rattle.text.specs.Reads.{Holds};
ghost use Rattle.text.specs.declared.numbers.TextError.TheVariants.{Unread};

use crate::streams::read_full;
use crate::words::{clamped, is_space, more};
use rules::CORNERS;
use std::{fmt, io};

// A text is read in parts of so many bytes, and fewer than so many whole ones.
pub const PART: usize = 65536;

const PARTS: usize = 256;

// A model's numbers: V, the most numbers of a list, and one more to tell a longer list.
pub const NUMBERS: usize = CORNERS + 2;

// Whether the numbers of a text may have a sign.
#[derive(Clone, Copy, Debug, PartialEq, Eq)]
pub enum Sign {
    Unsigned,
    Signed,
}

// What a text of numbers is to be, and what is said of one that is not.
#[derive(Clone, Copy, Debug)]
pub struct Form {
    pub sign: Sign,
    pub expected: &'static str,
}

// A model: V, then the vertex numbers.
pub const MODEL: Form = Form {
    sign: Sign::Unsigned,
    expected: "no model: V and the vertex numbers are expected, decimal, with white space between",
};

// Why a text gave no numbers: it is not one of such numbers as were expected, or it was not read
// whole.
#[derive(Clone, Copy, Debug)]
pub enum TextError {
    NoNumbers(&'static str),
    Unread(io::Error),
    TooLong,
}

impl fmt::Display for TextError {
    fn fmt<W: fmt::Write>(&self, f: &mut fmt::Formatter<W>) -> fmt::Result {
        match self {
            TextError::NoNumbers(expected) => f.write_str(expected),
            TextError::Unread(why) => why.fmt(f),
            TextError::TooLong => {
                f.write_str("the text is too long: it has 16,777,216 bytes or more")
            }
        }
    }
}

impl From<io::Error> for TextError {
    ghost from_gives = { λ why e. e ≡ Unread why };

    fn from(why: io::Error) -> TextError {
        TextError::Unread(why)
    }
}

// Where a text is read: between two numbers, after a sign, or in the digits of a number.
#[derive(Clone, Copy, Debug, PartialEq, Eq)]
enum Place {
    Between,
    AfterSign,
    Digits { is_negative: bool, value: u32 },
}

// How far a text is read: how many numbers have ended, and where it is.
#[derive(Clone, Copy, Debug, PartialEq, Eq)]
struct Text {
    count: usize,
    place: Place,
}

// A signed number as 16 bits: a negative number n is 65,536 + n. One whose size is over 32,767 is
// kept as if it had this size.
fn signed_word(n: u16, is_negative: bool) -> u16 {
    let size = n.min(32767);
    if is_negative {
        size.wrapping_neg()
    } else {
        size
    }
}

// A number that has ended, as 16 bits. V need not have so few, for 65,535 is too large for every
// model, nor need a position, for 32,767 is out of range; any other must.
fn word_of(sign: Sign, is_first: bool, is_negative: bool, value: u32) -> Option<u16> {
    match sign {
        Sign::Signed => Some(signed_word(clamped(value), is_negative)),
        Sign::Unsigned if is_first => Some(clamped(value)),
        Sign::Unsigned => u16::try_from(value).ok(),
    }
}

impl Text {
    // The number that was read has ended, if there is one. Those past the buffer are passed over.
    fn end_number(self, sign: Sign, numbers: &mut [u16]) -> Option<Text> {
        let Place::Digits { is_negative, value } = self.place else {
            return if self.place == Place::Between {
                Some(self)
            } else {
                None
            };
        };
        let mut count = self.count;
        let word = word_of(sign, count == 0, is_negative, value)?;
        if count < numbers.len() {
            numbers[count] = word;
            count += 1;
        }
        Some(Text {
            count,
            place: Place::Between,
        })
    }

    // One digit more.
    fn digit(self, d: u8) -> Text {
        let (is_negative, value) = match self.place {
            Place::Between => (false, 0),
            Place::AfterSign => (true, 0),
            Place::Digits { is_negative, value } => (is_negative, value),
        };
        let place = Place::Digits {
            is_negative,
            value: more(value, d),
        };
        Text { place, ..self }
    }

    // One byte more, if the text is one of numbers then. Only digits follow a sign.
    fn feed(self, sign: Sign, b: u8, numbers: &mut [u16]) -> Option<Text> {
        match b {
            b if is_space(b) => self.end_number(sign, numbers),
            b'-' if sign == Sign::Signed && self.place == Place::Between => {
                Some(Text {
                    place: Place::AfterSign,
                    ..self
                })
            }
            b'0'..=b'9' => Some(self.digit(b - b'0')),
            _ => None,
        }
    }

    // The bytes of a part.
    fn feed_all(self, sign: Sign, part: &[u8], numbers: &mut [u16]) -> Option<Text> {
        let mut text = self;
        for b in part {
            text = text.feed(sign, *b, numbers)?;
        }
        Some(text)
    }
}

// How many numbers a text has that has ended. No more have than there is room for.
fn judged(text: Option<Text>, form: Form, numbers: &[u16]) -> Result<usize, TextError>
    ensures { Holds result numbers.now }
{
    match text {
        Some(text) if text.count <= numbers.len() => Ok(text.count),
        _ => Err(TextError::NoNumbers(form.expected)),
    }
}

// Reads a text: its numbers, as many as fit. One that is none of numbers is read whole as well, for
// it may be too long, or a read may fail.
pub fn read_numbers<R: io::Read>(
    source: &mut R,
    form: Form,
    part: &mut [u8],
    numbers: &mut [u16],
) -> Result<usize, TextError>
    ensures { Holds result numbers.new }
{
    let mut text = Some(Text {
        count: 0,
        place: Place::Between,
    });
    for _ in 0..PARTS {
        let n = read_full(source, part)?;
        text = text.and_then(|t| t.feed_all(form.sign, &part[..n], numbers));
        if n < part.len() {
            text = text.and_then(|t| t.end_number(form.sign, numbers));
            return judged(text, form, numbers);
        }
    }
    Err(TextError::TooLong)
}
