ghost use Rattle.std.specs.Prelude.{◌≡◌, ◌<◌, ◌≤◌, length, slice_get, All, Contains, MatchOption, Some, Err, IfOk, IsOkUnless};
ghost use Rattle.ground_state.specs.Action.{IsTableOf};
ghost use Rattle.program_model.specs.declared.alphabet.TheConstants.{MAX_OPS};
ghost use Rattle.program_model.specs.declared.machine.TheConstants.{MAX_INSTANCES, MAX_POINTERS};
ghost use Rattle.pointer_machine.specs.Operations.{operations_of, operation_count};
ghost use Rattle.pointer_machine.specs.Meaning.{IsValueOf, table_at};
ghost use Rattle.pointer_machine.specs.Texts.{operation_texts};
ghost use Rattle.pointer_machine.specs.Machine.{meaning_of};

use crate::form::Form;
use crate::meter::Meter;
use crate::operations::{count_operations, list_operations, place_of};
use crate::pointing::Pointing;
use crate::refusal::MachineRefusal;
use crate::texts::texts_of;
use flag_rules::{List, OutOfMemory, Sign, Text};
use ground_state::{AtomTable, Task};
use program_model::{MAX_OPS, Machine, Renaming};
use std::alloc::Global;
use std::marker::Model;

/// The machine over the instances of a planning task. Contracts see it as the task, the tables of the instances, and
/// how many pointers there are.
#[derive(Debug, Drop)]
pub struct PointerMachine {
    task: Task,
    tables: Vec<AtomTable>,
    pointers: u8,
    // all operations, in order
    forms: Vec<Form>,
}

impl Model for PointerMachine {
    ghost use Rattle.std.specs.Prelude.{◌≡◌};
    ghost use Rattle.pointer_machine.specs.Operations.{operations_of};
    ghost use Rattle.pointer_machine.specs.Machine.{MachineParts, AreMachineParts};

    ghost Value = { MachineParts };

    ghost view = { λ machine. record {
      task = machine.task;
      tables = machine.tables.items;
      pointers = machine.pointers;
    } };

    ghost invariant = { λ machine.
        AreMachineParts (record {
          task = machine.task;
          tables = machine.tables.items;
          pointers = machine.pointers;
        })
        × (machine.forms.items ≡ operations_of machine.task machine.pointers) };
}

impl PointerMachine {
    /// The machine over a task, the tables of its instances and so many pointers.
    ///
    /// `TooManyOps` comes exactly where there are more than `MAX_OPS` operations, with how many there are.
    pub fn new(
        alloc: Global,
        task: Task,
        tables: Vec<AtomTable>,
        pointers: u8,
    ) -> Result<PointerMachine, MachineRefusal>
        requires tables { All (IsTableOf task) tables.items }
        requires some_tables { 0 < length tables.items }
        requires few_tables { length tables.items ≤ MAX_INSTANCES }
        requires some_pointers { 0 < pointers }
        requires few_pointers { pointers ≤ MAX_POINTERS }
        ensures machine { IfOk result (λ machine.
            machine ≡ record { task = task; tables = tables.items; pointers = pointers }) }
        ensures too_many { let count = operation_count task pointers in
            MAX_OPS < count → result ≡ Err (MachineRefusal.TooManyOps count) }
        ensures few_enough { operation_count task pointers ≤ MAX_OPS →
            IsOkUnless result MachineRefusal.OutOfMemory }
    {
        let count = count_operations(&task, pointers);
        if count > u64::from(MAX_OPS) {
            return Err(MachineRefusal::TooManyOps(count));
        }
        let forms = list_operations(alloc, &task, pointers)?;
        Ok(PointerMachine {
            task,
            tables,
            pointers,
            forms,
        })
    }

    /// The operation of a number.
    pub fn form(&self, op: u32) -> &Form
        requires { op < length (operations_of self.now.task self.now.pointers) }
        ensures { slice_get (operations_of self.now.task self.now.pointers) op ≡ Some result.now }
    {
        &self.forms[op as usize]
    }

    /// The number of an operation, if it is one of this machine.
    pub fn op_of(&self, form: &Form) -> Option<u32>
        ensures { MatchOption result
            (¬ Contains (operations_of self.now.task self.now.pointers) form.now)
            (λ op. slice_get (operations_of self.now.task self.now.pointers) op ≡ Some form.now) }
    {
        let op = place_of(self.forms.as_slice(), form)?;
        Some(op as u32)
    }

    /// The texts of all operations, in order.
    pub fn op_texts(&self, alloc: Global) -> Result<List<Text>, OutOfMemory>
        ensures { IfOk result (λ texts. texts ≡ operation_texts self.now.task self.now.pointers) }
    {
        texts_of(alloc, &self.task, self.forms.as_slice())
    }
}

impl Machine for PointerMachine {
    type Cfg = Pointing;

    type Meter = Meter;

    ghost semantics = { meaning_of };

    ghost belongs = { λ machine t value.
        (t < length machine.tables) × IsValueOf (table_at machine.tables t) machine.pointers value };

    ghost acts = { λ meter. meter.acts };

    ghost copies = { λ meter. meter.copies };

    fn instances(&self) -> u8 {
        self.tables.len() as u8
    }

    fn ops(&self) -> u32 {
        self.forms.len() as u32
    }

    fn pointers(&self) -> u8 {
        self.pointers
    }

    fn fresh(&self, alloc: Global, t: u8) -> Result<Pointing, OutOfMemory> {
        Pointing::start(alloc, &self.tables[usize::from(t)])
    }

    fn begin(&self, t: u8, cfg: &mut Pointing) {
        cfg.reset(&self.tables[usize::from(t)]);
    }

    fn act(&self, t: u8, op: u32, cfg: &mut Pointing, meter: &mut Meter) {
        cfg.operate(&self.task, &self.tables[usize::from(t)], self.form(op));
        meter.acts = meter.acts.saturating_add(1);
    }

    fn sign(&self, cfg: &Pointing) -> Sign {
        cfg.sign
    }

    fn missing(&self, t: u8, cfg: &Pointing) -> u32 {
        cfg.atoms.missing(&self.tables[usize::from(t)])
    }

    fn same(&self, a: &Pointing, b: &Pointing) -> bool {
        a.equals(b)
    }

    fn copy_into(&self, from: &Pointing, to: &mut Pointing, meter: &mut Meter) {
        from.copy_into(to);
        meter.copies = meter.copies.saturating_add(1);
    }

    fn acts(meter: &Meter) -> u64 {
        meter.acts
    }

    fn copies(meter: &Meter) -> u64 {
        meter.copies
    }

    fn places(&self, op: u32) -> u8 {
        self.form(op).places()
    }

    fn pointer_at(&self, op: u32, place: u8) -> u8 {
        self.form(op).pointer_at(place)
    }

    fn rename(&self, by: &Renaming, op: u32) -> u32 {
        let renamed = self.form(op).renamed(*self.forms.allocator(), by);
        self.op_of(&renamed).unwrap()
    }

    fn treats_pointers_alike(&self) {
        // reading a field tells that the parts are those of a machine
        let _ = &self.tables;
    }
}
