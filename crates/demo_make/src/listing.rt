//! Functions that are put together, one after another.

ghost use Rattle.std.specs.Prelude.{◌≡◌, ◌+◌, ◌*◌, ◌<◌, ◌≤◌, [], ◌∷◌, ◌++◌, List, length, OnOk};
ghost use Rattle.demo_make.specs.Program.{Routine};
ghost use Rattle.demo_make.specs.inner.Lists.{Lists};

use crate::layout::CODE_ADDR;
use byte_text::OutOfMemory;
use prog_make::FunctionPart;
use rv_decode::Instr;
use std::alloc::Global;

/// The instructions of functions, and where each function stands.
#[derive(Drop)]
pub struct Listing {
    pub code: Vec<Instr>,
    pub functions: Vec<FunctionPart>,
}

impl Listing {
    /// No functions.
    pub fn new(alloc: Global) -> Listing
        ensures { Lists result [] }
    {
        Listing {
            code: Vec::new(alloc),
            functions: Vec::new(alloc),
        }
    }

    /// One function more, behind the others.
    pub fn add(&mut self, alloc: Global, name: &[u8], code: &[Instr]) -> Result<(), OutOfMemory>
        requires instructions { length self.old.code.items + length code.now ≤ 1000 }
        requires functions { length self.old.functions.items < 1000 }
        ensures { OnOk result ((before : List Routine) → Lists self.old before
            → Lists self.new (before ++ record { name = name.now; code = code.now } ∷ [])) }
    {
        let addr = CODE_ADDR + 4 * self.code.len() as u32;
        let size = 4 * code.len() as u32;
        let first_line = 100 * self.functions.len() as u32 + 1;
        let function = FunctionPart::new(alloc, name, addr, size, first_line)?;
        self.code.extend_from_slice(code)?;
        self.functions.push(function)?;
        Ok(())
    }
}
