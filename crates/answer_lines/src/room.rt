ghost use Rattle.std.specs.Prelude.{ℕ, ◌<◌, ◌≤◌, ◌^◌, List, length, All};
ghost use Rattle.answer_lines.specs.Lines.{IsLine};

use program_text::Names;

/// An upper bound on the bytes of a line of a document that is not the text of an operation: a word and three numbers of 64 bits,
/// each after a space. Lines of documents are shorter still.
pub const MAX_PLAIN_LINE: usize = 64;

/// How many bytes a line of a document may have, where operations have these names.
pub fn line_room(names: &Names) -> usize
    ensures room { (text : List ℕ) → IsLine names.now text → length text ≤ result }
    ensures least { (room : ℕ) → MAX_PLAIN_LINE ≤ room → All (λ text. length text ≤ room) names.now → result ≤ room }
    ensures top { result < 2 ^ 63 }
{
    let mut room = MAX_PLAIN_LINE;
    for op in 0..names.count() {
        room = room.max(names.text(op).len());
    }
    room
}
