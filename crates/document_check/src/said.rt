ghost use Rattle.std.specs.Prelude.{◌≡◌, ◌↔◌, ◌++◌, IsTrue};
ghost use Rattle.flag_rules.specs.Line.{then_number};
ghost use Rattle.refutation_tree.specs.Grammar.{IsFromOneTo};

use answer_lines::number_after;

/// Whether a line says this.
pub(crate) fn says(line: &[u8], text: &[u8]) -> bool
    ensures { IsTrue result ↔ (line.now ≡ text.now) }
{
    line == text
}

/// Whether a line says this number after some words, and the number is from 1 to another.
pub(crate) fn says_number(line: &[u8], words: &[u8], most: u8, number: u8) -> bool
    ensures { IsTrue result ↔ (IsFromOneTo most number × (line.now ≡ words.now ++ then_number number)) }
{
    number_after(line, words, most) == Some(number)
}
