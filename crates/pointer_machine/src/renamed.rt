ghost use Rattle.std.specs.Prelude.{◌≡◌, ◌<◌, length, map, slice_get, Some};
ghost use Rattle.program_model.specs.Renaming.{image};
ghost use Rattle.pointer_machine.specs.Renamed.{pointers_in, renamed_form};

use crate::form::{Args, Form};
use ground_state::MAX_PARAMETERS;
use program_model::Renaming;
use std::alloc::Global;

impl Form {
    /// How many pointers the operation names.
    pub(crate) fn places(&self) -> u8
        ensures { result ≡ length (pointers_in self.now) }
    {
        match self {
            Form::Act { args, .. } | Form::Test { args, .. } => args.as_slice().len() as u8,
            Form::Inc(_) | Form::Dec(_) | Form::Clear(_) => 1,
            Form::Set(..) | Form::Cmp(..) => 2,
        }
    }

    /// The pointer that the operation names at a place.
    pub(crate) fn pointer_at(&self, place: u8) -> u8
        requires { place < length (pointers_in self.now) }
        ensures { slice_get (pointers_in self.now) place ≡ Some result }
    {
        match self {
            Form::Act { args, .. } | Form::Test { args, .. } => args.as_slice()[usize::from(place)],
            Form::Inc(pointer) | Form::Dec(pointer) | Form::Clear(pointer) => *pointer,
            Form::Set(pointer, other) | Form::Cmp(pointer, other) => {
                [*pointer, *other][usize::from(place)]
            }
        }
    }

    /// The operation over renamed pointers. It takes no memory.
    pub(crate) fn renamed(&self, alloc: Global, by: &Renaming) -> Form
        ensures { result ≡ renamed_form by.now self.now }
    {
        match self {
            Form::Act { schema, args } => Form::Act {
                schema: *schema,
                args: renamed_args(alloc, args, by),
            },
            Form::Test { pred, args } => Form::Test {
                pred: *pred,
                args: renamed_args(alloc, args, by),
            },
            Form::Inc(pointer) => Form::Inc(by.of(*pointer)),
            Form::Dec(pointer) => Form::Dec(by.of(*pointer)),
            Form::Clear(pointer) => Form::Clear(by.of(*pointer)),
            Form::Set(pointer, other) => Form::Set(by.of(*pointer), by.of(*other)),
            Form::Cmp(pointer, other) => Form::Cmp(by.of(*pointer), by.of(*other)),
        }
    }
}

/// The new numbers of some pointers, in order.
fn renamed_args(alloc: Global, args: &Args, by: &Renaming) -> Args
    ensures { result ≡ map (image by.now) args.now }
{
    let pointers = args.as_slice();
    let mut images = [0; MAX_PARAMETERS];
    for (place, pointer) in pointers.iter().enumerate() {
        images[place] = by.of(*pointer);
    }
    Args::of(alloc, &images[..pointers.len()])
}
