//! What a call returns, as it is printed.

use crate::failure::Failure;
use std::alloc::Global;
use std::fmt;
use subsetter_base::Error;

/// What a call returns.
#[derive(Drop)]
pub enum Answer {
    /// Lists of numbers.
    Lists(Vec<Vec<i64>>),
    /// Bytes.
    Bytes(Vec<u8>),
    /// Nothing is there.
    Nothing,
    /// It is refused.
    Refused(Error),
}

/// Writes the numbers of a list with commas between them, `-` where there are none.
fn write_list<W: fmt::Write>(f: &mut fmt::Formatter<W>, list: &[i64]) -> fmt::Result {
    let [first, following @ ..] = list else {
        return f.write_str("-");
    };
    write!(f, "{first}")?;
    for number in following {
        write!(f, ",{number}")?;
    }
    Ok(())
}

/// Writes lists of numbers, each after a blank.
fn write_lists<W: fmt::Write>(f: &mut fmt::Formatter<W>, lists: &[Vec<i64>]) -> fmt::Result {
    for list in lists {
        f.write_str(" ")?;
        write_list(f, list)?;
    }
    Ok(())
}

/// Writes bytes as hexadecimal digits after a blank, `-` where there are none.
fn write_bytes<W: fmt::Write>(f: &mut fmt::Formatter<W>, bytes: &[u8]) -> fmt::Result {
    f.write_str(if bytes.is_empty() { " -" } else { " " })?;
    for byte in bytes {
        write!(f, "{byte:02x}")?;
    }
    Ok(())
}

impl fmt::Display for Answer {
    fn fmt<W: fmt::Write>(&self, f: &mut fmt::Formatter<W>) -> fmt::Result {
        match self {
            Answer::Lists(lists) => write_lists(f, lists),
            Answer::Bytes(bytes) => write_bytes(f, bytes),
            Answer::Nothing => f.write_str(" none"),
            Answer::Refused(error) => write!(f, " error {error}"),
        }
    }
}

/// The answer that is one number.
pub fn one(alloc: Global, number: i64) -> Result<Answer, Failure> {
    let list = Vec::from_array(alloc, [number])?;
    Ok(Answer::Lists(Vec::from_array(alloc, [list])?))
}

/// The numbers in 64 bits.
pub fn list<T: Copy>(alloc: Global, numbers: &[T]) -> Result<Vec<i64>, Failure>
where
    i64: From<T>,
{
    let mut list = Vec::new(alloc);
    for number in numbers {
        list.push(i64::from(*number))?;
    }
    Ok(list)
}
