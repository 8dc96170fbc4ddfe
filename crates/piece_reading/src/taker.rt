ghost use Rattle.std.specs.Prelude.{◌≡◌, ℕ, List};
ghost use Rattle.piece_reading.specs.Taker.{Took};

/// What takes bytes piece by piece.
pub trait Taker {
    /// What was asked of it before the first piece.
    type Asked;

    /// What was asked of it, which no piece changes.
    ghost asked: { Self → Self.Asked };

    /// It stands for the bytes that it took so far, one piece after another. A relation, since a taker does not keep the bytes.
    ghost stands_for: { Self → List ℕ → Type 0 };

    /// Takes the next piece.
    fn take(&mut self, piece: &[u8])
        ensures asked { asked self.new ≡ asked self.old }
        ensures took { Took stands_for self.old self.new piece.now };
}
