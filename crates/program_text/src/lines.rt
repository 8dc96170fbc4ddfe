ghost use Rattle.std.specs.Prelude.{◌≡◌, ◌+◌, ◌≤◌, ◌++◌, ◌∷◌, [], length, not, ◌==◌, take_while, OnOk, IfOk};
ghost use Rattle.program_text.specs.Lines.{instruction_lines, numbered_from, line_text, has_words, is_blank};
ghost use Rattle.program_text.specs.Inner.Words.{with_word};

use flag_rules::{List, MAX_FILE_BYTES, OutOfMemory, Text};
use std::alloc::Global;

/// A line with words: its number among all lines of its text, from 1, and its words, joined by one space.
#[derive(Debug, Drop)]
pub(crate) struct InstructionLine {
    pub(crate) number: u32,
    pub(crate) text: Text,
}

/// How many instruction lines a text has.
pub(crate) fn count_lines(bytes: &[u8]) -> usize
    ensures count { result ≡ length (instruction_lines bytes.now) }
    ensures few { result ≤ length bytes.now + 1 }
{
    bytes
        .split(|b| *b == b'\n')
        .filter(|line| has_words(line))
        .count()
}

/// The instruction lines of a text.
pub(crate) fn instruction_lines(
    alloc: Global,
    bytes: &[u8],
) -> Result<List<InstructionLine>, OutOfMemory>
    requires { length bytes.now ≤ MAX_FILE_BYTES }
    ensures { IfOk result (λ lines. lines ≡ instruction_lines bytes.now) }
{
    let mut lines = List::new(alloc);
    let mut number = 0;
    for line in bytes.split(|b| *b == b'\n') {
        number += 1;
        add_line(alloc, &mut lines, number, line)?;
    }
    Ok(lines)
}

// Adds a line with its number, if it has words.
fn add_line(
    alloc: Global,
    lines: &mut List<InstructionLine>,
    number: u32,
    line: &[u8],
) -> Result<(), OutOfMemory>
    ensures { OnOk result (lines.new ≡ lines.old ++ numbered_from number (line.now ∷ [])) }
{
    if !has_words(line) {
        return Ok(());
    }
    let text = line_text(alloc, line)?;
    lines.push(InstructionLine { number, text })
}

// What stands before the comment of a line.
fn before_comment(line: &[u8]) -> &[u8]
    ensures { result.now ≡ take_while (λ b. not (b == 59)) line.now }
{
    let end = line.iter().take_while(|b| **b != b';').count();
    &line[..end]
}

// Whether a line has words.
fn has_words(line: &[u8]) -> bool
    ensures { result ≡ has_words line.now }
{
    before_comment(line).iter().any(|b| !is_blank(*b))
}

// The words of a line, in lower case and joined by one space.
fn line_text(alloc: Global, line: &[u8]) -> Result<Text, OutOfMemory>
    ensures { IfOk result (λ text. text ≡ line_text line.now) }
{
    let said = before_comment(line).to_ascii_lowercase(alloc)?;
    let mut text = Text::new(alloc);
    for word in said.split(|b| is_blank(*b)) {
        add_word(&mut text, word)?;
    }
    Ok(text)
}

// Adds what stands between two blanks, after a space if there is a word before it.
fn add_word(text: &mut Text, word: &[u8]) -> Result<(), OutOfMemory>
    ensures { OnOk result (text.new ≡ with_word text.old word.now) }
{
    if word.is_empty() {
        return Ok(());
    }
    if !text.is_empty() {
        text.push(b' ')?;
    }
    text.append(word)
}

// Whether a byte separates words.
fn is_blank(b: u8) -> bool
    ensures { result ≡ is_blank b }
{
    matches!(b, b'\t' | b'\r' | b' ')
}
