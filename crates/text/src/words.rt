// Words and numbers in a text.
ghost use Rattle.std.specs.Prelude.{length};
ghost use Rattle.std.specs.Iterator.{at_most};

// Whether a byte parts words.
pub fn is_space(b: u8) -> bool {
    matches!(b, b' ' | 9..=13)
}

// The words of a line.
#[derive(Clone, Copy)]
pub struct Words<'a>(pub &'a [u8]);

impl<'a> Iterator for Words<'a> {
    type Item = &'a [u8];

    ghost remaining = { λ s. at_most (length s.0.now) };

    fn next(&mut self) -> Option<&'a [u8]> {
        let line = self.0;
        let start = line.iter().position(|b| !is_space(*b))?;
        let end = match line[start + 1..].iter().position(|b| is_space(*b)) {
            Some(n) => start + 1 + n,
            None => line.len(),
        };
        self.0 = &line[end..];
        Some(&line[start..end])
    }
}

// A number with one more digit; each that is over 65,535 becomes 65,536.
pub fn more(n: u32, digit: u8) -> u32 {
    n.saturating_mul(10)
        .saturating_add(u32::from(digit))
        .min(65536)
}

// A number as 16 bits, the largest for each that is larger.
pub fn clamped(n: u32) -> u16 {
    u16::try_from(n).unwrap_or(u16::MAX)
}

// The number that a text is, decimal, or 65,535 for each that is larger.
pub fn number_of(text: &[u8]) -> Option<u16> {
    if text.is_empty() {
        return None;
    }
    let mut value = 0;
    for b in text {
        if !b.is_ascii_digit() {
            return None;
        }
        value = more(value, *b - b'0');
    }
    Some(clamped(value))
}
