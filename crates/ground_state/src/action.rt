ghost use Rattle.std.specs.Prelude.{◌≡◌, ◌↔◌, IsTrue};
ghost use Rattle.ground_state.specs.Ground.{IsStateOf};
ghost use Rattle.ground_state.specs.Action.{IsTableOf, IsAction, Applicable, is_applicable, state_after};

use crate::types::are_of_types;
use crate::{AtomTable, Atoms, Task};

/// Applies an action, which is a schema by its number and an object for each of its parameters, where it is
/// applicable, and says whether it was. Deleting comes first: an atom that is both deleted and added is true
/// afterwards.
pub fn apply(task: &Task, table: &AtomTable, schema: u32, args: &[u16], atoms: &mut Atoms) -> bool
    requires table { IsTableOf task.now table.now }
    requires action { IsAction task.now table.now schema args.now }
    requires state { IsStateOf table.now atoms.old }
    ensures applicable { IsTrue result ↔ Applicable task.now table.now schema args.now atoms.old }
    ensures tested { result ≡ is_applicable task.now table.now schema args.now atoms.old }
    ensures acted { atoms.new ≡ state_after task.now table.now schema args.now atoms.old }
    ensures fits { IsStateOf table.now atoms.new }
{
    if !can_apply(task, table, schema, args, atoms) {
        return false;
    }
    let schema = &task.parts().schemas.as_slice()[schema as usize];
    let numbering = &table.numbering;
    let state = &mut atoms.bits;
    numbering.delete_at(state, schema.del.as_slice(), args);
    numbering.add_at(state, schema.add.as_slice(), args);
    true
}

/// Whether an action is applicable.
fn can_apply(task: &Task, table: &AtomTable, schema: u32, args: &[u16], atoms: &Atoms) -> bool
    requires table { IsTableOf task.now table.now }
    requires action { IsAction task.now table.now schema args.now }
    requires state { IsStateOf table.now atoms.now }
    ensures applicable { IsTrue result ↔ Applicable task.now table.now schema args.now atoms.now }
    ensures tested { result ≡ is_applicable task.now table.now schema args.now atoms.now }
{
    let types = task.parts().types.as_slice();
    let schema = &task.parts().schemas.as_slice()[schema as usize];
    are_of_types(types, table.object_types(), args, schema.params.as_slice())
        && table
            .numbering
            .are_true_at(&atoms.bits, schema.pre.as_slice(), args)
}
