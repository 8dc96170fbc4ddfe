ghost use Rattle.std.specs.Prelude.{◌≡◌};
ghost use Rattle.std.specs.List.{range_with_len};
ghost use Rattle.program_model.specs.declared.machine.TheConstants.{MAX_POINTERS};
ghost use Rattle.program_model.specs.Renaming.{composed};

use program_model::{MAX_POINTERS, Renaming};

/// One renaming, and then another.
pub fn compose(first: &Renaming, then: &Renaming) -> Renaming
    ensures { result ≡ composed first.now then.now }
{
    let mut images = [0; MAX_POINTERS as usize];
    for pointer in 0..MAX_POINTERS {
        images[usize::from(pointer)] = then.of(first.of(pointer));
    }
    match Renaming::new(images) {
        Some(renaming) => renaming,
        None => unreachable!(),
    }
}

/// The renaming that takes another back.
pub fn inverse(renaming: &Renaming) -> Renaming
    ensures back { composed renaming.now result ≡ range_with_len 0 MAX_POINTERS }
    ensures forth { composed result renaming.now ≡ range_with_len 0 MAX_POINTERS }
{
    let mut images = [0; MAX_POINTERS as usize];
    for pointer in 0..MAX_POINTERS {
        images[usize::from(renaming.of(pointer))] = pointer;
    }
    match Renaming::new(images) {
        Some(back) => back,
        None => unreachable!(),
    }
}
