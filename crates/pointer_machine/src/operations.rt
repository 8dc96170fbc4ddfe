ghost use Rattle.std.specs.Prelude.{◌≡◌, ◌*◌, ◌^◌, ◌<◌, ◌≤◌, ◌++◌, Some, Contains, IfOk, MatchOption, OnOk, length, map, slice_get};
ghost use Rattle.std.specs.List.{range_with_len};
ghost use Rattle.ground_state.specs.declared.parts.TheConstants.{MAX_ARITY, MAX_PARAMETERS};
ghost use Rattle.ground_state.specs.GroundAtoms.{tuples};
ghost use Rattle.program_model.specs.declared.machine.TheConstants.{MAX_POINTERS};
ghost use Rattle.pointer_machine.specs.declared.form.Form.TheVariants as forms;
ghost use Rattle.pointer_machine.specs.Operations.{operations_of, operation_count, count_by_entry, params_of, arity_of, acts, tests, pairs_of, pairs};

use crate::form::{Args, Form};
use flag_rules::OutOfMemory;
use ground_state::{MAX_PARAMETERS, Task};
use std::alloc::Global;

/// How many operations there are over so many pointers.
pub(crate) fn count_operations(task: &Task, pointers: u8) -> u64
    requires some { 0 < pointers }
    requires few { pointers ≤ MAX_POINTERS }
    ensures { result ≡ operation_count task.now pointers }
{
    let moves = 3 * u64::from(pointers);
    let pairs = 2 * u64::from(pointers) * u64::from(pointers - 1);
    count_acts(task, pointers) + count_tests(task, pointers) + moves + pairs
}

/// How many operations act.
fn count_acts(task: &Task, pointers: u8) -> u64
    requires { pointers ≤ MAX_POINTERS }
    ensures count { result ≡ count_by_entry params_of pointers task.now.schemas }
    ensures fits { result < 2 ^ 32 * MAX_POINTERS ^ MAX_PARAMETERS }
{
    let mut count = 0;
    for schema in task.parts().schemas.as_slice() {
        count += u64::from(pointers).pow(schema.params.len() as u32);
    }
    count
}

/// How many operations test.
fn count_tests(task: &Task, pointers: u8) -> u64
    requires { pointers ≤ MAX_POINTERS }
    ensures count { result ≡ count_by_entry arity_of pointers task.now.predicates }
    ensures fits { result < 2 ^ 32 * MAX_POINTERS ^ MAX_PARAMETERS }
{
    let mut count = 0;
    for predicate in task.parts().predicates.as_slice() {
        count += u64::from(pointers).pow(u32::from(predicate.arity));
    }
    count
}

/// The list of all operations over so many pointers.
pub(crate) fn list_operations(
    alloc: Global,
    task: &Task,
    pointers: u8,
) -> Result<Vec<Form>, OutOfMemory>
    requires some { 0 < pointers }
    requires few { pointers ≤ MAX_POINTERS }
    ensures { IfOk result (λ listed. listed.items ≡ operations_of task.now pointers) }
{
    let mut listed = Vec::new(alloc);
    list_acts(alloc, task, pointers, &mut listed)?;
    list_tests(alloc, task, pointers, &mut listed)?;
    list_moves(pointers, &mut listed)?;
    list_pairs(alloc, pointers, &mut listed)?;
    Ok(listed)
}

/// Adds the operations that act by all schemas to a list.
fn list_acts(
    alloc: Global,
    task: &Task,
    pointers: u8,
    listed: &mut Vec<Form>,
) -> Result<(), OutOfMemory>
    requires some { 0 < pointers }
    requires few { pointers ≤ MAX_POINTERS }
    ensures { OnOk result (listed.new.items ≡ listed.old.items ++ acts task.now pointers) }
{
    for (schema, entry) in task.parts().schemas.as_slice().iter().enumerate() {
        list_acts_of(alloc, pointers, schema as u32, entry.params.len(), listed)?;
    }
    Ok(())
}

/// Adds the operations that act by a schema with so many parameters to a list.
fn list_acts_of(
    alloc: Global,
    pointers: u8,
    schema: u32,
    params: usize,
    listed: &mut Vec<Form>,
) -> Result<(), OutOfMemory>
    requires some { 0 < pointers }
    requires few { pointers ≤ MAX_POINTERS }
    requires params { params ≤ MAX_PARAMETERS }
    ensures { OnOk result (listed.new.items
        ≡ listed.old.items ++ map (λ args. forms.Act schema args) (tuples pointers params)) }
{
    for place in 0..u32::from(pointers).pow(params as u32) {
        let args = args_at(alloc, pointers, params, place);
        listed.push(Form::Act { schema, args })?;
    }
    Ok(())
}

/// Adds the operations that test by all predicates to a list.
fn list_tests(
    alloc: Global,
    task: &Task,
    pointers: u8,
    listed: &mut Vec<Form>,
) -> Result<(), OutOfMemory>
    requires some { 0 < pointers }
    requires few { pointers ≤ MAX_POINTERS }
    ensures { OnOk result (listed.new.items ≡ listed.old.items ++ tests task.now pointers) }
{
    for (pred, entry) in task.parts().predicates.as_slice().iter().enumerate() {
        list_tests_of(alloc, pointers, pred as u32, entry.arity, listed)?;
    }
    Ok(())
}

/// Adds the operations that test by a predicate of this arity to a list.
fn list_tests_of(
    alloc: Global,
    pointers: u8,
    pred: u32,
    arity: u8,
    listed: &mut Vec<Form>,
) -> Result<(), OutOfMemory>
    requires some { 0 < pointers }
    requires few { pointers ≤ MAX_POINTERS }
    requires arity { arity ≤ MAX_ARITY }
    ensures { OnOk result (listed.new.items
        ≡ listed.old.items ++ map (λ args. forms.Test pred args) (tuples pointers arity)) }
{
    for place in 0..u32::from(pointers).pow(u32::from(arity)) {
        let args = args_at(alloc, pointers, usize::from(arity), place);
        listed.push(Form::Test { pred, args })?;
    }
    Ok(())
}

/// The pointers at a place among all lists of so many in lexical order: the digits of the place.
fn args_at(alloc: Global, pointers: u8, params: usize, place: u32) -> Args
    requires some { 0 < pointers }
    requires few { pointers ≤ MAX_POINTERS }
    requires params { params ≤ MAX_PARAMETERS }
    requires place { place < pointers ^ params }
    ensures { slice_get (tuples pointers params) place ≡ Some result }
{
    let pointers = u32::from(pointers);
    let mut digits = [0; MAX_PARAMETERS];
    let mut rest = place;
    for index in (0..params).rev() {
        digits[index] = (rest % pointers) as u8;
        rest /= pointers;
    }
    Args::of(alloc, &digits[..params])
}

/// Adds the operations that move one pointer to a list.
fn list_moves(pointers: u8, listed: &mut Vec<Form>) -> Result<(), OutOfMemory>
    ensures { OnOk result (listed.new.items ≡ listed.old.items
        ++ map forms.Inc (range_with_len 0 pointers)
        ++ map forms.Dec (range_with_len 0 pointers)
        ++ map forms.Clear (range_with_len 0 pointers)) }
{
    'incs: for pointer in 0..pointers {
        listed.push(Form::Inc(pointer))?;
    }
    'decs: for pointer in 0..pointers {
        listed.push(Form::Dec(pointer))?;
    }
    'clears: for pointer in 0..pointers {
        listed.push(Form::Clear(pointer))?;
    }
    Ok(())
}

/// Adds the operations over two pointers to a list.
fn list_pairs(alloc: Global, pointers: u8, listed: &mut Vec<Form>) -> Result<(), OutOfMemory>
    ensures { OnOk result (listed.new.items ≡ listed.old.items
        ++ map (λ pair. forms.Set pair.0 pair.1) (pairs pointers)
        ++ map (λ pair. forms.Cmp pair.0 pair.1) (pairs pointers)) }
{
    let pairs = all_pairs(alloc, pointers)?;
    'sets: for &(pointer, other) in &pairs {
        listed.push(Form::Set(pointer, other))?;
    }
    'cmps: for &(pointer, other) in &pairs {
        listed.push(Form::Cmp(pointer, other))?;
    }
    Ok(())
}

/// The ordered pairs of different pointers, in lexical order.
fn all_pairs(alloc: Global, pointers: u8) -> Result<Vec<(u8, u8)>, OutOfMemory>
    ensures { IfOk result (λ listed. listed.items ≡ pairs pointers) }
{
    let mut listed = Vec::new(alloc);
    for pointer in 0..pointers {
        add_pairs_of(pointer, pointers, &mut listed)?;
    }
    Ok(listed)
}

/// Adds the pairs of a pointer with each other one to a list.
fn add_pairs_of(pointer: u8, pointers: u8, listed: &mut Vec<(u8, u8)>) -> Result<(), OutOfMemory>
    requires { pointer < pointers }
    ensures { OnOk result (listed.new.items ≡ listed.old.items ++ pairs_of pointers pointer) }
{
    'below: for other in 0..pointer {
        listed.push((pointer, other))?;
    }
    'above: for other in pointer + 1..pointers {
        listed.push((pointer, other))?;
    }
    Ok(())
}

/// The place of an operation in a list, if it stands there.
pub(crate) fn place_of(forms: &[Form], form: &Form) -> Option<usize>
    ensures { MatchOption result
        (¬ Contains forms.now form.now)
        (λ place. slice_get forms.now place ≡ Some form.now) }
{
    forms.iter().position(|own| own == form)
}
