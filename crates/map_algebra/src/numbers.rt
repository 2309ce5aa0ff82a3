//! Lists of block numbers, one a line.
ghost use Rattle.std.specs.Prelude.{◌≡◌, ◌⊎◌, ℕ, ◌*◌, ◌+◌, ◌<◌, ◌^◌, All, Some, None, Ok, Err, length, IsOk, IfOk, IfErr, IfSome};
ghost use Rattle.mapfile_reader.specs.Cursor.{line_of};
ghost use Rattle.map_algebra.specs.Blocks.{IsShape};
ghost use Rattle.map_algebra.specs.Numbers.{IsInRange, checked, in_range, number_in, numbers_in};
ghost use Rattle.map_algebra.specs.declared.numbers.NumberError.TheVariants.{BadNumber, NoMemory as OutOfMemory};

use crate::shape::Shape;
use mapfile_reader::lines::{FilledLine, FilledLines};
use size_suffixes::number::parse_number;
use std::alloc::Global;
use thiserror::Error;

/// Why a text is no list of block numbers. Lines are counted from 1.
#[derive(Clone, Copy, Debug, PartialEq, Eq, Error)]
pub enum NumberError {
    /// The first line that isn't blank and isn't one number of a block that ends in time.
    #[error("BadNumber")]
    BadNumber { line: usize },
    /// There wasn't enough memory.
    #[error("NoMemory")]
    NoMemory,
}

/// A number, if its block ends in time.
fn in_range(number: u64, shape: Shape) -> Option<u64>
    requires { IsShape shape }
    ensures number { result ≡ in_range shape number }
    ensures limit { IfSome result (IsInRange shape) }
{
    let after = number
        .checked_mul(shape.size)?
        .checked_add(shape.size)?
        .checked_add(shape.ipos)?;
    if after < 1 << 63 { Some(number) } else { None }
}

/// The number of a line.
fn number_of(line: &mut FilledLine<'_>, shape: Shape) -> Result<u64, NumberError>
    requires { IsShape shape }
    ensures number { IfOk result (λ number. number_in shape (line_of line.old).fields ≡ Some number) }
    ensures limit { IfOk result (IsInRange shape) }
    ensures fault { IfErr result (λ e. (e ≡ BadNumber line.old.number)
        × (number_in shape (line_of line.old).fields ≡ None)) }
    ensures kept { line.new ≡ record line.old { more = line.new.more } }
{
    let fault = NumberError::BadNumber {
        line: line.number(),
    };
    if line.take_field().is_some() {
        return Err(fault);
    }
    let number = parse_number(line.first()).map_err(|_| fault)?;
    in_range(number, shape).ok_or(fault)
}

/// Checks a list of block numbers, one a line, without memory, in one pass over it. Answers how many numbers it has.
pub fn check_numbers(text: &[u8], shape: Shape) -> Result<usize, NumberError>
    requires shape { IsShape shape }
    requires short { length text.now < 2 ^ 63 }
    ensures { result ≡ checked (numbers_in shape text.now) }
{
    let mut lines = FilledLines::new(text);
    let mut count = 0;
    while let Some(mut line) = lines.first() {
        number_of(&mut line, shape)?;
        count += 1;
        lines = line.lines_after();
    }
    Ok(count)
}

/// Reads a list of block numbers, one a line, in their order. Memory is asked for only once the text was found to be
/// such a list.
pub fn read_numbers(alloc: Global, text: &[u8], shape: Shape) -> Result<Vec<u64>, NumberError>
    requires shape { IsShape shape }
    requires short { length text.now < 2 ^ 63 }
    ensures numbers { IfOk result (λ numbers. numbers_in shape text.now ≡ Ok numbers.items) }
    ensures limits { IfOk result (λ numbers. All (IsInRange shape) numbers.items) }
    ensures fault { IfErr result (λ e. ((e ≡ OutOfMemory) × IsOk (numbers_in shape text.now))
        ⊎ ((line : ℕ) × (e ≡ BadNumber line) × (numbers_in shape text.now ≡ Err line))) }
{
    let count = check_numbers(text, shape)?;
    let mut numbers = Vec::with_capacity(alloc, count).map_err(|_| NumberError::NoMemory)?;
    let mut lines = FilledLines::new(text);
    while let Some(mut line) = lines.first() {
        let number = number_of(&mut line, shape)?;
        numbers.push(number).map_err(|_| NumberError::NoMemory)?;
        lines = line.lines_after();
    }
    Ok(numbers)
}
