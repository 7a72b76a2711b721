// The words of a line, and what is wrong with one that is no call.
use rules::Operation;
use std::fmt;
use text::words::{Words, number_of};

// Why a line is no call.
#[derive(Clone, Copy, Debug, PartialEq, Eq)]
pub(crate) enum LineError {
    NoCall,
    NoOperation,
    NotANumber,
}

impl fmt::Display for LineError {
    fn fmt<W: fmt::Write>(&self, f: &mut fmt::Formatter<W>) -> fmt::Result {
        f.write_str(match self {
            LineError::NoCall => "no such call",
            LineError::NoOperation => "no such operation",
            LineError::NotANumber => "not a number",
        })
    }
}

// The last N words of a line, which are numbers. Where there are more or fewer words, the line is
// wrong for another reason, whatever they are.
pub(crate) fn numbers<const N: usize>(
    mut words: Words<'_>,
    wrong_count: LineError,
) -> Result<[u16; N], LineError> {
    let mut values = [0u16; N];
    let mut outcome = Ok(());
    for value in values.iter_mut() {
        let Some(word) = words.next() else {
            return Err(wrong_count);
        };
        match number_of(word) {
            Some(n) => *value = n,
            None => outcome = Err(LineError::NotANumber),
        }
    }
    if words.next().is_some() {
        return Err(wrong_count);
    }
    outcome?;
    Ok(values)
}

// The operation that the last words of a line name.
pub(crate) fn operation(mut words: Words<'_>) -> Result<Operation, LineError> {
    match words.next() {
        Some(b"split") => {
            let [i] = numbers::<1>(words, LineError::NoOperation)?;
            Ok(Operation::Split(i))
        }
        Some(b"union") => {
            let [p, j] = numbers::<2>(words, LineError::NoOperation)?;
            Ok(Operation::Union(p, j))
        }
        Some(name) => {
            let [] = numbers::<0>(words, LineError::NoOperation)?;
            plain(name)
        }
        None => Err(LineError::NoOperation),
    }
}

// An operation with no number.
fn plain(name: &[u8]) -> Result<Operation, LineError> {
    match name {
        b"new" => Ok(Operation::New),
        b"forward" => Ok(Operation::Forward),
        b"backward" => Ok(Operation::Backward),
        b"border" => Ok(Operation::Border),
        b"close" => Ok(Operation::Close),
        b"start" => Ok(Operation::Start),
        _ => Err(LineError::NoOperation),
    }
}
