use flag_rules::OutOfMemory;
use thiserror::Error;

/// Why the words are not taken.
#[derive(Debug, Drop, Error)]
pub enum JobRefusal {
    #[error("the words are no job")]
    Usage,
    #[error("out of memory")]
    OutOfMemory,
}

impl From<OutOfMemory> for JobRefusal {
    ghost use Rattle.std.specs.Prelude.{◌≡◌};
    ghost use Rattle.command_words.specs.declared.refusal.JobRefusal.TheVariants.{OutOfMemory as Memory};

    ghost from_gives = { λ _ refusal. refusal ≡ Memory };

    fn from(_: OutOfMemory) -> Self {
        JobRefusal::OutOfMemory
    }
}
