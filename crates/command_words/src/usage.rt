ghost use Rattle.std.specs.Prelude.{◌≡◌, IfOk};
ghost use Rattle.command_words.specs.Words.{usage_text};

use flag_rules::{OutOfMemory, Text};
use std::alloc::Global;

/// How the planner is called.
const USAGE: &[u8] =
    b"usage: bfgp synth --pointers K --lines N [--budget B] [--run R] [--order E] DOMAIN INSTANCE..
       bfgp check --pointers K --lines N --answer FILE DOMAIN INSTANCE..
       bfgp run --pointers K --program FILE [--run R] DOMAIN INSTANCE..
       bfgp gen FAMILY NUMBER
";

/// The text that is written where the words are no job.
pub fn usage_text(alloc: Global) -> Result<Text, OutOfMemory>
    ensures { IfOk result (λ text. text ≡ usage_text) }
{
    Text::of(alloc, USAGE)
}
