ghost use Rattle.std.specs.Prelude.{◌≡◌, ◌↔◌, ◌+◌, ◌-◌, ◌<◌, ◌≤◌, All, IsTrue, pos, IfOk, length, map, nat_lt, slice_index, slice_set, take, if◌then◌else◌};
ghost use Rattle.ground_state.specs.declared.parts.TheConstants.{MAX_PARAMETERS};
ghost use Rattle.ground_state.specs.Action.{IsTableOf, state_after, is_applicable};
ghost use Rattle.ground_state.specs.State.{is_true};
ghost use Rattle.ground_state.specs.Ground.{IsStateOf};
ghost use Rattle.program_model.specs.declared.machine.TheConstants.{MAX_POINTERS};
ghost use Rattle.pointer_machine.specs.declared.form.Form.TheVariants as forms;
ghost use Rattle.pointer_machine.specs.Operations.{IsForm};
ghost use Rattle.pointer_machine.specs.Meaning.{IsValueOf, after, effect, objects_at, start};

use crate::form::Form;
use flag_rules::{OutOfMemory, Sign, sign_of};
use ground_state::{AtomTable, Atoms, MAX_PARAMETERS, Task, apply};
use program_model::MAX_POINTERS;
use std::alloc::Global;

/// A value of the machine over ground atoms: the object numbers of the pointers, the sign of the last result, and the
/// atoms that are true. The pointers past those of the machine are 0.
#[derive(Debug, Drop)]
pub struct Pointing {
    pub pointers: [u16; MAX_POINTERS as usize],
    pub sign: Sign,
    pub atoms: Atoms,
}

impl Pointing {
    /// The start of the instance of a table.
    pub(crate) fn start(alloc: Global, table: &AtomTable) -> Result<Pointing, OutOfMemory>
        ensures { IfOk result (λ value. value ≡ start table.now) }
    {
        Ok(Pointing {
            pointers: [0; MAX_POINTERS as usize],
            sign: Sign::Negative,
            atoms: Atoms::start(alloc, table)?,
        })
    }

    /// Makes this value the start of its instance.
    pub(crate) fn reset(&mut self, table: &AtomTable)
        requires { IsStateOf table.now self.old.atoms }
        ensures { self.new ≡ start table.now }
    {
        self.pointers = [0; MAX_POINTERS as usize];
        self.sign = Sign::Negative;
        self.atoms.reset(table);
    }

    /// Makes another value of the same instance equal to this one.
    pub(crate) fn copy_into(&self, to: &mut Pointing)
        requires { length to.old.atoms ≡ length self.now.atoms }
        ensures { to.new ≡ self.now }
    {
        to.pointers = self.pointers;
        to.sign = self.sign;
        self.atoms.copy_into(&mut to.atoms);
    }

    /// Whether two values are equal, their signs included.
    pub(crate) fn equals(&self, other: &Pointing) -> bool
        ensures { IsTrue result ↔ (self.now ≡ other.now) }
    {
        self.pointers == other.pointers
            && self.sign == other.sign
            && self.atoms.equals(&other.atoms)
    }

    /// Makes an operation on this value.
    pub(crate) fn operate(&mut self, task: &Task, table: &AtomTable, form: &Form)
        requires table { IsTableOf task.now table.now }
        requires value { IsValueOf table.now MAX_POINTERS self.old }
        requires form { IsForm task.now MAX_POINTERS form.now }
        ensures { self.new ≡ after (effect task.now table.now form.now self.old.pointers self.old.atoms) }
    {
        let res = self.take_effect(task, table, form);
        self.sign = sign_of(res);
    }

    /// Makes all of an operation but for its sign, and gives its result.
    fn take_effect(&mut self, task: &Task, table: &AtomTable, form: &Form) -> i64
        requires table { IsTableOf task.now table.now }
        requires value { IsValueOf table.now MAX_POINTERS self.old }
        requires form { IsForm task.now MAX_POINTERS form.now }
        ensures res { result
            ≡ (effect task.now table.now form.now self.old.pointers self.old.atoms).res }
        ensures pointers { self.new.pointers
            ≡ (effect task.now table.now form.now self.old.pointers self.old.atoms).pointers }
        ensures atoms { self.new.atoms
            ≡ (effect task.now table.now form.now self.old.pointers self.old.atoms).atoms }
    {
        match form {
            Form::Act { schema, args } => {
                i64::from(self.act_at(task, table, *schema, args.as_slice()))
            }
            Form::Test { pred, args } => {
                i64::from(self.is_true_at(task, table, *pred, args.as_slice()))
            }
            Form::Inc(pointer) => i64::from(self.move_on(*pointer, table.objects())),
            Form::Dec(pointer) => i64::from(self.move_back(*pointer)),
            Form::Clear(pointer) => self.point_to(*pointer, 0),
            Form::Set(pointer, other) => self.point_to(*pointer, self.object_of(*other)),
            Form::Cmp(pointer, other) => {
                i64::from(self.object_of(*pointer)) - i64::from(self.object_of(*other))
            }
        }
    }

    /// Acts by a schema at the objects that some pointers stand at, where that is applicable, and says whether it was.
    fn act_at(&mut self, task: &Task, table: &AtomTable, schema: u32, args: &[u8]) -> bool
        requires table { IsTableOf task.now table.now }
        requires value { IsValueOf table.now MAX_POINTERS self.old }
        requires form { IsForm task.now MAX_POINTERS (forms.Act schema args.now) }
        requires few { length args.now ≤ MAX_PARAMETERS }
        ensures applicable { result
            ≡ is_applicable task.now table.now schema (objects_at self.old.pointers args.now) self.old.atoms }
        ensures pointers { self.new.pointers ≡ self.old.pointers }
        ensures atoms { self.new.atoms
            ≡ state_after task.now table.now schema (objects_at self.old.pointers args.now) self.old.atoms }
        ensures fits { IsStateOf table.now self.new.atoms }
    {
        let objects = self.objects_at(args);
        apply(task, table, schema, &objects[..args.len()], &mut self.atoms)
    }

    /// Whether the atom of a predicate at the objects that some pointers stand at is true.
    fn is_true_at(&self, task: &Task, table: &AtomTable, pred: u32, args: &[u8]) -> bool
        requires table { IsTableOf task.now table.now }
        requires value { IsValueOf table.now MAX_POINTERS self.now }
        requires form { IsForm task.now MAX_POINTERS (forms.Test pred args.now) }
        requires few { length args.now ≤ MAX_PARAMETERS }
        ensures { result ≡ is_true (length table.now.object_types) table.now.arities self.now.atoms
            (record { pred = pred; args = objects_at self.now.pointers args.now }) }
    {
        let objects = self.objects_at(args);
        self.atoms.holds(table, pred, &objects[..args.len()])
    }

    /// The objects that some pointers stand at, in the first places of an array.
    fn objects_at(&self, args: &[u8]) -> [u16; MAX_PARAMETERS]
        requires few { length args.now ≤ MAX_PARAMETERS }
        requires known { All (λ pointer. pointer < length self.now.pointers) args.now }
        ensures { take (length args.now) result ≡ objects_at self.now.pointers args.now }
    {
        let mut objects = [0; MAX_PARAMETERS];
        for (place, pointer) in args.iter().enumerate() {
            objects[place] = self.pointers[usize::from(*pointer)];
        }
        objects
    }

    /// Moves a pointer to the next object, where there is one, and says whether it moved.
    fn move_on(&mut self, pointer: u8, objects: u16) -> bool
        requires pointer { pointer < length self.old.pointers }
        requires object { slice_index self.old.pointers pointer < objects }
        ensures moved { result ≡ nat_lt (slice_index self.old.pointers pointer + 1) objects }
        ensures pointers { self.new.pointers ≡ (if result
            then slice_set self.old.pointers pointer (slice_index self.old.pointers pointer + 1)
            else self.old.pointers) }
        ensures sign { self.new.sign ≡ self.old.sign }
        ensures atoms { self.new.atoms ≡ self.old.atoms }
    {
        let object = &mut self.pointers[usize::from(pointer)];
        if *object + 1 == objects {
            return false;
        }
        *object += 1;
        true
    }

    /// Moves a pointer to the object before, where there is one, and says whether it moved.
    fn move_back(&mut self, pointer: u8) -> bool
        requires { pointer < length self.old.pointers }
        ensures moved { result ≡ nat_lt 0 (slice_index self.old.pointers pointer) }
        ensures pointers { self.new.pointers ≡ (if result
            then slice_set self.old.pointers pointer (slice_index self.old.pointers pointer - 1)
            else self.old.pointers) }
        ensures sign { self.new.sign ≡ self.old.sign }
        ensures atoms { self.new.atoms ≡ self.old.atoms }
    {
        let object = &mut self.pointers[usize::from(pointer)];
        if *object == 0 {
            return false;
        }
        *object -= 1;
        true
    }

    /// Moves a pointer to an object, and gives the object's number.
    fn point_to(&mut self, pointer: u8, object: u16) -> i64
        requires { pointer < length self.old.pointers }
        ensures number { result ≡ pos object }
        ensures pointers { self.new.pointers ≡ slice_set self.old.pointers pointer object }
        ensures sign { self.new.sign ≡ self.old.sign }
        ensures atoms { self.new.atoms ≡ self.old.atoms }
    {
        self.pointers[usize::from(pointer)] = object;
        i64::from(object)
    }

    /// The object that a pointer stands at.
    fn object_of(&self, pointer: u8) -> u16
        requires { pointer < length self.now.pointers }
        ensures { result ≡ slice_index self.now.pointers pointer }
    {
        self.pointers[usize::from(pointer)]
    }
}
