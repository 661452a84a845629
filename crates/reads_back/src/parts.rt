//! The text of a part, read again.

ghost use Rattle.std.specs.Prelude.{◌≡◌, List, None, Option, ℕ};
ghost use Rattle.arc_costs.specs.Contents.{Listed};
ghost use Rattle.cg_format.specs.Part.{part_text};
ghost use Rattle.cg_format.specs.declared.head.PartHead.{PartHead};
ghost use Rattle.cg_read.specs.Profiles.{Contents, IsProfile, SaysTheSame};
ghost use Rattle.cg_read.specs.Reading.{Reads, first_bad};
ghost use Rattle.reads_back.specs.Joined.{AreWhole, HaveOwnTexts};
ghost use Rattle.reads_back.specs.Rows.{AreWritable, IsOfRows, command_of};
ghost use Rattle.sym_map.specs.SymbolMap.{IsSound, SymbolMap};

/// The text of a part has no bad line. It reads as the profile of its rows, with its functions and files in any
/// numbering, and as no other.
pub fn parts_read_as_their_rows()
    ensures sound { (head : PartHead) (rows : Listed) (m : SymbolMap) → IsSound m → AreWritable m rows
        → first_bad (part_text head rows m) ≡ None }
    ensures reads { (head : PartHead) (rows : Listed) (m : SymbolMap) (p : Contents) → IsSound m → AreWritable m rows
        → IsProfile p → IsOfRows head (command_of head) rows m p → Reads (part_text head rows m) p }
    ensures only { (head : PartHead) (rows : Listed) (m : SymbolMap) (p : Contents) → IsSound m → AreWritable m rows
        → Reads (part_text head rows m) p → IsOfRows head (command_of head) rows m p }
    // There is such a profile.
    ensures exists { (head : PartHead) (command : Option (List ℕ)) (rows : Listed) (m : SymbolMap) → AreWhole rows
        → (p : Contents) × IsProfile p × IsOfRows head command rows m p }
    // Two profiles of the same rows differ at most in the order of their functions and files.
    ensures alike { (head : PartHead) (command : Option (List ℕ)) (rows : Listed) (m : SymbolMap) (p q : Contents)
        → IsOfRows head command rows m p → IsOfRows head command rows m q → SaysTheSame p q }
{}

/// Functions that differ are read as functions that differ, and files too: what is read stands in one-to-one relation
/// to what was written.
pub fn functions_and_files_have_their_own_texts()
    ensures { (head : PartHead) (m : SymbolMap) → IsSound m → HaveOwnTexts head m }
{}
