//! Truth values in words, 64 of them in each.

ghost use Rattle.std.specs.Prelude.{◌≡◌, ◌<◌, ◌^◌, false, true};
ghost use Rattle.ground_state.specs.Inner.Packing.{is_set, missing_in_word, missing_in_words, IsChangedAt};

/// Whether the value at a place is true.
pub(crate) fn is_set(word: u64, place: u32) -> bool
    requires { place < 64 }
    ensures { result ≡ is_set word place }
{
    (word >> place) & 1 == 1
}

/// The word with the value at a place made true.
pub(crate) fn with_true(word: u64, place: u32) -> u64
    requires { place < 64 }
    ensures { IsChangedAt place true word result }
{
    word | (1 << place)
}

/// The word with the value at a place made false.
pub(crate) fn with_false(word: u64, place: u32) -> u64
    requires { place < 64 }
    ensures { IsChangedAt place false word result }
{
    word & !(1 << place)
}

/// At how many places the value is true here and false there.
pub(crate) fn missing_in_word(here: u64, there: u64) -> u32
    ensures { result ≡ missing_in_word here there }
{
    (here & !there).count_ones()
}

/// At how many places of two rows of words the value is true here and false there.
pub(crate) fn missing_in_words(here: &[u64], there: &[u64]) -> u32
    requires { missing_in_words here.now there.now < 2 ^ 32 }
    ensures { result ≡ missing_in_words here.now there.now }
{
    here.iter()
        .zip(there.iter())
        .map(|(here, there)| missing_in_word(*here, *there))
        .sum()
}
