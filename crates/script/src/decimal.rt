// Decimal numbers, and lists of them.
ghost use Rattle.std.specs.Prelude.{◌≤◌, IfOk, vec_len};

use crate::command::MOST_NUMBERS;
use crate::fault::Fault;
use std::alloc::Global;
use std::num::ParseIntError;
use std::str::FromStr;

// The number types of a script, each with the numbers that it holds.
pub trait Decimal: FromStr<Err = ParseIntError> + Copy {
    const RANGE: &'static str;
}

impl Decimal for u8 {
    const RANGE: &'static str = "0 to 255";
}

impl Decimal for u16 {
    const RANGE: &'static str = "0 to 65535";
}

impl Decimal for u32 {
    const RANGE: &'static str = "0 to 4294967295";
}

impl Decimal for usize {
    const RANGE: &'static str = "0 to 18446744073709551615";
}

impl Decimal for i16 {
    const RANGE: &'static str = "-32768 to 32767";
}

// The number that a word is in decimal; `name` is what a fault calls it. Not `parse` alone: it takes `+5` and does not name
// what is wrong.
pub fn number<T: Decimal>(word: &str, name: &'static str) -> Result<T, Fault> {
    match word.parse::<T>() {
        Ok(value) if !word.starts_with('+') => Ok(value),
        _ => Err(Fault::NotNumber(name, T::RANGE)),
    }
}

// A list of numbers, in which V*N stands for N times V.
pub fn numbers<T: Decimal>(heap: Global, words: &[&str]) -> Result<Vec<T>, Fault>
    ensures { IfOk result (λ numbers. vec_len numbers ≤ 4096) }
{
    let mut numbers = Vec::new(heap);
    // No chain: its closure would have to carry the list, the limit and two ways to fail.
    for word in words {
        let (value, times) = repeated(word)?;
        let count = numbers.len().saturating_add(times);
        if count > MOST_NUMBERS {
            return Err(Fault::TooManyNumbers);
        }
        numbers.resize(count, value)?;
    }
    Ok(numbers)
}

fn repeated<T: Decimal>(word: &str) -> Result<(T, usize), Fault> {
    match word.split_once('*') {
        Some((value, times)) => Ok((number(value, "a value")?, number(times, "N")?)),
        None => Ok((number(word, "a value")?, 1)),
    }
}
