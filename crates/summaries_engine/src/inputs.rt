//! Inputs that have names, as files do.
ghost use Rattle.std.specs.Prelude.{IfErr, IfOk};

use crate::stop::Stop;
use std::io::Read;

/// Where keys lie under names.
pub trait Inputs {
    ghost use Rattle.std.specs.Prelude.{ℕ, List, Option};
    ghost use Rattle.summaries_engine.specs.declared.stop.Stop.{Stop};

    /// What gives the bytes of a name.
    type Input: Read + Drop;

    /// What lies under which names: Some of the bytes, or None where that isn't reported.
    ghost has: { Self → List ℕ → Option (List ℕ) → Type 0 };

    /// Why the input of a name isn't had.
    ghost fails: { Self → List ℕ → Stop → Type 0 };

    /// The input of this name, from its first byte on.
    fn open(&self, name: &str) -> Result<Self::Input, Stop>
        ensures opened { IfOk result (λ input. has self.now name.now (Self.Input.remaining input)) }
        ensures failed { IfErr result (fails self.now name.now) };
}
