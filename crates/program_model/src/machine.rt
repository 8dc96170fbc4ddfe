ghost use Rattle.std.specs.Prelude.{◌≡◌, ℕ, ◌<◌, ◌≤◌, ◌↔◌, length, slice_get, Some, IsTrue, IfOk};
ghost use Rattle.program_model.specs.Semantics.{Semantics};
ghost use Rattle.program_model.specs.Renaming.{IsRenamingOf};
ghost use Rattle.program_model.specs.Symmetry.{IsSymmetric};
ghost use Rattle.flag_rules.specs.Counts.{raised};

use crate::{MAX_OPS, Renaming};
use flag_rules::{OutOfMemory, Sign};
use std::alloc::Global;

/// The greatest number of instances of a machine.
pub const MAX_INSTANCES: u8 = 32;

/// The greatest number of pointers of a machine.
pub const MAX_POINTERS: u8 = 4;

/// What programs run on: some planning instances, and numbered operations on the values of their configurations. A value
/// belongs to an instance; it holds all of a configuration but the line. What a machine means is `semantics`; code that is
/// generic over machines can act on and copy values only at the meter that it was given.
pub trait Machine {
    /// A value: the pointers, the sign and the rest of a configuration.
    type Cfg: Drop;

    /// The counts of the operations made and the values copied.
    type Meter;

    /// What the machine means.
    ghost semantics: { Self → Semantics Self.Cfg };

    /// Whether a value is one of an instance.
    ghost belongs: { Self → ℕ → Self.Cfg → Type 0 };

    /// The operations counted at a meter.
    ghost acts: { Self.Meter → ℕ };

    /// The copies counted at a meter.
    ghost copies: { Self.Meter → ℕ };

    /// How many instances there are.
    fn instances(&self) -> u8
        ensures value { result ≡ (semantics self.now).instances }
        ensures some { 0 < result }
        ensures few { result ≤ MAX_INSTANCES };

    /// How many operations there are.
    fn ops(&self) -> u32
        ensures value { result ≡ (semantics self.now).ops }
        ensures some { 0 < result }
        ensures few { result ≤ MAX_OPS };

    /// How many pointers there are.
    fn pointers(&self) -> u8
        ensures value { result ≡ (semantics self.now).pointers }
        ensures some { 0 < result }
        ensures few { result ≤ MAX_POINTERS };

    /// A new value: the start of an instance. No other call takes memory.
    fn fresh(&self, alloc: Global, t: u8) -> Result<Self::Cfg, OutOfMemory>
        requires { t < (semantics self.now).instances }
        ensures start { IfOk result (λ cfg. cfg ≡ (semantics self.now).start t) }
        ensures belongs { IfOk result (λ cfg. belongs self.now t cfg) };

    /// Sets a value to the start of its instance.
    fn begin(&self, t: u8, cfg: &mut Self::Cfg)
        requires t { t < (semantics self.now).instances }
        requires cfg { belongs self.now t cfg.old }
        ensures start { cfg.new ≡ (semantics self.now).start t }
        ensures belongs { belongs self.now t cfg.new };

    /// Makes an operation on a value, and counts it.
    fn act(&self, t: u8, op: u32, cfg: &mut Self::Cfg, meter: &mut Self::Meter)
        requires t { t < (semantics self.now).instances }
        requires op { op < (semantics self.now).ops }
        requires cfg { belongs self.now t cfg.old }
        ensures acted { cfg.new ≡ (semantics self.now).act t op cfg.old }
        ensures belongs { belongs self.now t cfg.new }
        ensures acts { acts meter.new ≡ raised (acts meter.old) 1 }
        ensures copies { copies meter.new ≡ copies meter.old };

    /// The sign of the last result.
    fn sign(&self, cfg: &Self::Cfg) -> Sign
        ensures { result ≡ (semantics self.now).sign cfg.now };

    /// How many goal atoms of its instance are missing at a value.
    fn missing(&self, t: u8, cfg: &Self::Cfg) -> u32
        requires t { t < (semantics self.now).instances }
        requires cfg { belongs self.now t cfg.now }
        ensures { result ≡ (semantics self.now).missing t cfg.now };

    /// Whether two values of one instance are equal.
    fn same(&self, a: &Self::Cfg, b: &Self::Cfg) -> bool
        requires { (t : ℕ) × belongs self.now t a.now × belongs self.now t b.now }
        ensures { IsTrue result ↔ (a.now ≡ b.now) };

    /// Makes a value equal to another of its instance, and counts the copy.
    fn copy_into(&self, from: &Self::Cfg, to: &mut Self::Cfg, meter: &mut Self::Meter)
        requires { (t : ℕ) × belongs self.now t from.now × belongs self.now t to.old }
        ensures same { to.new ≡ from.now }
        ensures acts { acts meter.new ≡ acts meter.old }
        ensures copies { copies meter.new ≡ raised (copies meter.old) 1 };

    /// How many operations were made at a meter, up to the last value of the type.
    fn acts(meter: &Self::Meter) -> u64
        ensures { result ≡ acts meter.now };

    /// How many values were copied at a meter, up to the last value of the type.
    fn copies(meter: &Self::Meter) -> u64
        ensures { result ≡ copies meter.now };

    /// How many pointers an operation names, counting one that it names twice twice.
    fn places(&self, op: u32) -> u8
        requires { op < (semantics self.now).ops }
        ensures { result ≡ length ((semantics self.now).pointers_of op) };

    /// The pointer that an operation names at a place, from 0.
    fn pointer_at(&self, op: u32, place: u8) -> u8
        requires op { op < (semantics self.now).ops }
        requires place { place < length ((semantics self.now).pointers_of op) }
        ensures value { slice_get ((semantics self.now).pointers_of op) place ≡ Some result }
        ensures within { result < (semantics self.now).pointers };

    /// The operation over renamed pointers.
    fn rename(&self, by: &Renaming, op: u32) -> u32
        requires op { op < (semantics self.now).ops }
        requires by { IsRenamingOf (semantics self.now).pointers by.now }
        ensures value { result ≡ (semantics self.now).rename by.now op }
        ensures within { result < (semantics self.now).ops };

    /// A law of each machine: it treats all of its pointers alike. The call does nothing.
    fn treats_pointers_alike(&self)
        ensures { IsSymmetric (semantics self.now) (belongs self.now) };
}
