//! Marks as documents have them.

use refutation_tree::Mark;
use std::alloc::{AllocError, Global};

/// A mark as a document has it.
pub fn text_of(alloc: Global, mark: Mark) -> Result<String, AllocError> {
    match mark {
        Mark::Split { line, stamp } => format!(in alloc; "s {line} {stamp}"),
        Mark::Unmet { t, steps } => format!(in alloc; "f {t} {steps}"),
        Mark::Loops { t, from, to } => format!(in alloc; "l {t} {from} {to}"),
        Mark::Twin => format!(in alloc; "t"),
        Mark::Waiting => format!(in alloc; "o"),
        Mark::Solved => format!(in alloc; "g"),
        Mark::AtLimit { t } => format!(in alloc; "r {t}"),
    }
}

/// The mark that has this text, of those that have two numbers or three.
pub fn read_mark(text: &str) -> Option<Mark> {
    let (letter, numbers) = text.split_once(' ')?;
    let (first, rest) = numbers.split_once(' ')?;
    let first = first.parse::<u8>().ok()?;
    let (second, third) = rest.split_once(' ').unwrap_or((rest, "0"));
    let second = second.parse::<u64>().ok()?;
    let third = third.parse::<u64>().ok()?;
    match letter {
        "s" => Some(Mark::Split {
            line: first,
            stamp: u32::try_from(second).ok()?,
        }),
        "f" => Some(Mark::Unmet {
            t: first,
            steps: second,
        }),
        "l" => Some(Mark::Loops {
            t: first,
            from: second,
            to: third,
        }),
        _ => None,
    }
}
