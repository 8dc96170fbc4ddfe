//! The names of two operations, over which the tests write and read.

ghost use Rattle.std.specs.Prelude.{◌≡◌, [], ◌∷◌, codes, IfOk};

use flag_rules::{List, OutOfMemory, Text};
use program_text::Names;
use std::alloc::Global;

/// The names, and which they are.
pub fn two_names(alloc: Global) -> Result<Names, OutOfMemory>
    ensures { IfOk result (λ names. names ≡ codes "act light p0" ∷ codes "inc p0" ∷ []) }
{
    let texts = two_texts(alloc, b"act light p0", b"inc p0")?;
    Names::build(alloc, texts)
}

/// The same names, for a test that need not know which they are: what is known of them is paid for at each call.
pub fn plain_names(alloc: Global) -> Result<Names, OutOfMemory> {
    two_names(alloc)
}

fn two_texts(alloc: Global, first: &[u8], second: &[u8]) -> Result<List<Text>, OutOfMemory>
    ensures { IfOk result (λ texts. texts ≡ first.now ∷ second.now ∷ []) }
{
    let mut texts = List::new(alloc);
    texts.push(Text::of(alloc, first)?)?;
    texts.push(Text::of(alloc, second)?)?;
    Ok(texts)
}
