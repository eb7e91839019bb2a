//! Prints a staircase as text (docs/REFERENCE.md, 'Staircase'): its arguments are the start, the threshold, the step,
//! the number of trials and the lapse trials, as decimal numbers.
#![tactic(auto)]

mod printing;

use std::alloc::Global;
use std::{env, io};

// A decimal number; one that is too large is the largest, which is refused, or is no trial. None where a byte is no
// digit, or there is none.
fn number(word: &str) -> Option<usize> {
    let mut number = None;
    for digit in word.bytes() {
        if !digit.is_ascii_digit() {
            return None;
        }
        let before = number.unwrap_or(0usize);
        number = Some(
            before
                .saturating_mul(10)
                .saturating_add(usize::from(digit - b'0')),
        );
    }
    number
}

// What is printed of the arguments. Where they are no numbers, or fewer than four, it is `X 0`.
fn told(alloc: Global, words: env::Args) -> io::Result<String> {
    let mut numbers = Vec::new(alloc);
    for word in words.skip(1) {
        match number(word.as_str()) {
            Some(number) => numbers.push(number)?,
            None => return Ok(printing::refusal_line(alloc, 0)?),
        }
    }
    match numbers.as_slice() {
        [start, threshold, step, trials, lapses @ ..] => {
            let (start, threshold, step) = (*start as u64, *threshold as u64, *step as u64);
            Ok(printing::staircase_text(alloc, start, threshold, step, *trials, lapses)?)
        }
        _ => Ok(printing::refusal_line(alloc, 0)?),
    }
}

fn main(rt: HostRuntime) -> io::Result<()> {
    let text = told(rt.alloc(), env::args(&rt)?)?;
    print!(rt; "{text}")
}
