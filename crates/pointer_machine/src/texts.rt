ghost use Rattle.std.specs.Prelude.{◌≡◌, ◌<◌, ◌++◌, IfOk, OnOk, All, flat_map, length, map};
ghost use Rattle.program_model.specs.declared.machine.TheConstants.{MAX_POINTERS};
ghost use Rattle.pointer_machine.specs.Operations.{IsForm};
ghost use Rattle.pointer_machine.specs.Texts.{pointer_text, then_pointer, form_text};

use crate::form::Form;
use flag_rules::{List, OutOfMemory, Text};
use ground_state::Task;
use std::alloc::Global;

/// The texts of some operations, in order.
pub(crate) fn texts_of(
    alloc: Global,
    task: &Task,
    forms: &[Form],
) -> Result<List<Text>, OutOfMemory>
    requires { All (IsForm task.now MAX_POINTERS) forms.now }
    ensures { IfOk result (λ texts. texts ≡ map (form_text task.now) forms.now) }
{
    let mut texts = List::new(alloc);
    for form in forms {
        texts.push(text_of(alloc, task, form)?)?;
    }
    Ok(texts)
}

/// The text of an operation.
fn text_of(alloc: Global, task: &Task, form: &Form) -> Result<Text, OutOfMemory>
    requires { IsForm task.now MAX_POINTERS form.now }
    ensures { IfOk result (λ text. text ≡ form_text task.now form.now) }
{
    match form {
        Form::Act { schema, args } => {
            let name = task.parts().schemas.as_slice()[*schema as usize]
                .name
                .as_slice();
            named_text(alloc, b"act ", name, args.as_slice())
        }
        Form::Test { pred, args } => {
            let name = task.parts().predicates.as_slice()[*pred as usize]
                .name
                .as_slice();
            named_text(alloc, b"test ", name, args.as_slice())
        }
        Form::Inc(pointer) => pointers_text(alloc, b"inc", &[*pointer]),
        Form::Dec(pointer) => pointers_text(alloc, b"dec", &[*pointer]),
        Form::Clear(pointer) => pointers_text(alloc, b"clear", &[*pointer]),
        Form::Set(pointer, other) => pointers_text(alloc, b"set", &[*pointer, *other]),
        Form::Cmp(pointer, other) => pointers_text(alloc, b"cmp", &[*pointer, *other]),
    }
}

/// A word, a name, and pointers.
fn named_text(alloc: Global, word: &[u8], name: &[u8], pointers: &[u8]) -> Result<Text, OutOfMemory>
    requires { All (λ pointer. pointer < MAX_POINTERS) pointers.now }
    ensures { IfOk result (λ text. text ≡ word.now ++ name.now ++ flat_map then_pointer pointers.now) }
{
    let mut text = Text::of(alloc, word)?;
    text.append(name)?;
    append_pointers(&mut text, pointers)?;
    Ok(text)
}

/// A word and pointers.
fn pointers_text(alloc: Global, word: &[u8], pointers: &[u8]) -> Result<Text, OutOfMemory>
    requires { All (λ pointer. pointer < MAX_POINTERS) pointers.now }
    ensures { IfOk result (λ text. text ≡ word.now ++ flat_map then_pointer pointers.now) }
{
    let mut text = Text::of(alloc, word)?;
    append_pointers(&mut text, pointers)?;
    Ok(text)
}

/// Adds pointers to a text, each after a space.
fn append_pointers(text: &mut Text, pointers: &[u8]) -> Result<(), OutOfMemory>
    requires { All (λ pointer. pointer < MAX_POINTERS) pointers.now }
    ensures { OnOk result (text.new ≡ text.old ++ flat_map then_pointer pointers.now) }
{
    for pointer in pointers {
        text.append(b" ")?;
        append_pointer(text, *pointer)?;
    }
    Ok(())
}

/// Adds a pointer to a text.
fn append_pointer(text: &mut Text, pointer: u8) -> Result<(), OutOfMemory>
    requires { pointer < MAX_POINTERS }
    ensures { OnOk result (text.new ≡ text.old ++ pointer_text pointer) }
{
    text.append(b"p")?;
    text.push(b'0' + pointer)?;
    Ok(())
}
