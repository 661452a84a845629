//! The callee of the call to come.

ghost use Rattle.std.specs.Prelude.{◌≡◌, None, option_map, unwrap_or};

use crate::current::Current;
use crate::function_numbers::FunctionNumbers;

/// What was said since the last call of the callee of the next one, by the numbers of texts.
#[derive(Drop)]
pub(crate) struct NextCallee {
    pub(crate) object: Option<usize>,
    pub(crate) file: Option<usize>,
    pub(crate) name: Option<usize>,
}

impl NextCallee {
    /// The callee, if its name was given, by default of the current object and file. From here on nothing is said.
    pub(crate) fn take(&mut self, current: &Current) -> Option<FunctionNumbers>
        ensures callee { result ≡ option_map (λ name. record {
          object = unwrap_or self.old.object current.now.object;
          file = unwrap_or self.old.file current.now.file;
          name = name;
        }) self.old.name }
        ensures after { self.new ≡ record { object = None; file = None; name = None } }
    {
        let object = self.object.take().unwrap_or(current.object);
        let file = self.file.take().unwrap_or(current.file);
        let name = self.name.take()?;
        Some(FunctionNumbers { object, file, name })
    }
}
