//! The keys of the lines that name a file.

ghost use Rattle.std.specs.Prelude.{◌≡◌, true, ◌↔◌, IsTrue};
ghost use Rattle.cg_format.specs.Marks.{key_text};

/// Whose file a line names. All but a callee's become the current file.
#[derive(Clone, Copy, Debug)]
pub enum FileKey {
    /// That of the function which follows.
    Home,
    /// One that isn't the function's.
    Other,
    /// The function's, after another one.
    Back,
    /// That of the callee which follows.
    OfCallee,
}

impl FileKey {
    /// The key as it is written, with its equals sign.
    pub(crate) fn text(self) -> &'static [u8]
        ensures { result.now ≡ key_text self }
    {
        match self {
            FileKey::Home => b"fl=",
            FileKey::Other => b"fi=",
            FileKey::Back => b"fe=",
            FileKey::OfCallee => b"cfi=",
        }
    }
}
