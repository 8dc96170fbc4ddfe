ghost use Rattle.std.specs.Prelude.{◌≡◌, ◌↔◌, ◌<◌, ◌≤◌, ◌+◌, ◌++◌, length, IsTrue};
ghost use Rattle.arrayvec.specs.ArrayVec.{array_vec_len};
ghost use Rattle.program_text.specs.Texts.{cond_text, jump_text, instr_text, HasText};

use crate::Names;
use arrayvec::ArrayVec;
use flag_rules::Cond;
use itoa::Buffer;
use program_model::Instr;

/// How long the text of a jump is at most: that of `goto 255 if nonzero`.
const MAX_JUMP_TEXT: usize = 19;

/// The text of a jump. It takes no memory.
pub(crate) fn jump_text(target: u8, cond: Cond) -> ArrayVec<u8, MAX_JUMP_TEXT>
    ensures { result.items ≡ jump_text target cond }
{
    let mut text = ArrayVec::new();
    add(&mut text, b"goto ");
    add(&mut text, Buffer::new().format(target).as_bytes());
    add(&mut text, b" if ");
    add(&mut text, cond_text(cond));
    text
}

// Adds bytes for which there is room.
fn add(text: &mut ArrayVec<u8, MAX_JUMP_TEXT>, bytes: &[u8])
    requires { array_vec_len text.old + length bytes.now ≤ MAX_JUMP_TEXT }
    ensures { text.new.items ≡ text.old.items ++ bytes.now }
{
    text.try_extend_from_slice(bytes).unwrap();
}

fn cond_text(cond: Cond) -> &'static [u8]
    ensures { result.now ≡ cond_text cond }
{
    match cond {
        Cond::Zero => b"zero",
        Cond::Nonzero => b"nonzero",
        Cond::Carry => b"carry",
        Cond::Nocarry => b"nocarry",
    }
}

/// Whether an instruction is written so.
pub(crate) fn has_text(names: &Names, instr: Instr, text: &[u8]) -> bool
    requires { HasText names.now instr }
    ensures { IsTrue result ↔ (instr_text names.now instr ≡ text.now) }
{
    match instr {
        Instr::Op(op) => names.text(op) == text,
        Instr::Goto { target, cond } => jump_text(target, cond).as_slice() == text,
        Instr::End => b"end".as_slice() == text,
    }
}
