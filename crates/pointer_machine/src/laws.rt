ghost use Rattle.std.specs.Prelude.{◌≡◌, ℕ, Some, length, slice_get};
ghost use Rattle.ground_state.specs.declared.parts.TaskParts.{TaskParts};
ghost use Rattle.pointer_machine.specs.declared.form.Form.{Form};
ghost use Rattle.pointer_machine.specs.Operations.{operations_of, operation_count};

/// A law: the count of operations is the length of their list.
pub fn operations_are_counted()
    ensures { (task : TaskParts) (pointers : ℕ) → length (operations_of task pointers) ≡ operation_count task pointers }
{}

/// A law: no operation has two numbers.
pub fn operations_differ()
    ensures { (task : TaskParts) (pointers m n : ℕ) (form : Form) →
        slice_get (operations_of task pointers) m ≡ Some form →
        slice_get (operations_of task pointers) n ≡ Some form → m ≡ n }
{}
