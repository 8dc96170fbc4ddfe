ghost use Rattle.std.specs.Prelude.{◌≡◌, ◌<◌, All, length};
ghost use Rattle.ground_state.specs.Task.{AreTypes, reaches};
ghost use Rattle.ground_state.specs.Action.{are_of_types};

use crate::TypeEntry;

/// Whether each object is of its parameter's type, where the types of all objects are given.
pub(crate) fn are_of_types(
    types: &[TypeEntry],
    object_types: &[u32],
    args: &[u16],
    params: &[u32],
) -> bool
    requires types { AreTypes types.now }
    requires known { All (λ number. number < length types.now) object_types.now }
    requires objects { All (λ object. object < length object_types.now) args.now }
    ensures { result ≡ are_of_types types.now object_types.now args.now params.now }
{
    let mut places = args.iter().zip(params.iter());
    places.all(|(object, param)| reaches(types, object_types[usize::from(*object)], *param))
}

/// Whether a type is another one or stands under it.
fn reaches(types: &[TypeEntry], number: u32, above: u32) -> bool
    requires types { AreTypes types.now }
    requires number { number < length types.now }
    ensures { result ≡ reaches types.now number above }
{
    let mut at = number;
    for _ in types {
        if at == above {
            return true;
        }
        at = types[at as usize].parent;
    }
    false
}
