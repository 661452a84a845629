//! The parts of a run, read again and joined.

ghost use Rattle.std.specs.Prelude.{◌≡◌, ◌<◌, [], List, None, Ok, Option, ℕ, length, map};
ghost use Rattle.arc_costs.specs.Contents.{Listed};
ghost use Rattle.cg_format.specs.Part.{part_text};
ghost use Rattle.cg_format.specs.declared.head.PartHead.{PartHead};
ghost use Rattle.cg_read.specs.Meaning.{or_else};
ghost use Rattle.cg_read.specs.Merge.{IsJoined};
ghost use Rattle.cg_read.specs.Profiles.{Contents, IsProfile, SaysTheSame};
ghost use Rattle.cg_read.specs.Reading.{Reads};
ghost use Rattle.profile_files.specs.Joined as files;
ghost use Rattle.profile_files.specs.Joined.{Joins};
ghost use Rattle.outside.specs.Load.{Load};
ghost use Rattle.profile_files.specs.Reading.{reading_fault};
ghost use Rattle.profile_files.specs.WantedFile.{WantedFile};
ghost use Rattle.reads_back.specs.Joined.{AreOfOneRun, ArePartsOfRun, AreWhole, WrittenPart, events_in, first_command};
ghost use Rattle.reads_back.specs.Joined.{no_rows, no_rows_of, rows_of_all, texts_of, together};
ghost use Rattle.reads_back.specs.Rows.{AreWritable, IsOfRows, command_of};
ghost use Rattle.sym_map.specs.SymbolMap.{IsSound, SymbolMap};

/// The profile that joins what the parts of a run read as, one after another, is the profile of all their rows, with
/// the first part's command.
pub fn joined_parts_have_all_rows()
    // Where the events that the parts show are given before the first part,
    ensures all { (head : PartHead) (m : SymbolMap) (parts : List WrittenPart) (p : Contents) → IsSound m
        → ArePartsOfRun head m parts → Joins (no_rows_of head) (texts_of m parts) p
        → IsOfRows head (first_command parts) (rows_of_all parts) m p }
    // and where none are given before it.
    ensures unnamed { (head : PartHead) (m : SymbolMap) (parts : List WrittenPart) (p : Contents) → IsSound m
        → ArePartsOfRun head m parts → 0 < length parts → Joins (files.no_rows []) (texts_of m parts) p
        → IsOfRows head (first_command parts) (rows_of_all parts) m p }
    // There is such a profile,
    ensures exists { (head : PartHead) (m : SymbolMap) (parts : List WrittenPart) → IsSound m
        → ArePartsOfRun head m parts → (p : Contents) × IsProfile p × Joins (no_rows_of head) (texts_of m parts) p }
    // and no other one, but for the order of functions and files.
    ensures alike { (head : PartHead) (m : SymbolMap) (parts : List WrittenPart) (p q : Contents) → IsSound m
        → ArePartsOfRun head m parts → Joins (no_rows_of head) (texts_of m parts) p
        → Joins (no_rows_of head) (texts_of m parts) q → SaysTheSame p q }
{}

/// Files with the texts of a run's parts are read without a fault: none has a bad line or other events.
pub fn parts_are_never_refused()
    ensures all { (head : PartHead) (m : SymbolMap) (parts : List WrittenPart) (files : List WantedFile) → IsSound m
        → ArePartsOfRun head m parts → length files ≡ length parts
        → reading_fault (events_in head) files (map {B = Load} (λ text. Ok text) (texts_of m parts)) ≡ None }
    ensures unnamed { (head : PartHead) (m : SymbolMap) (parts : List WrittenPart) (files : List WantedFile) → IsSound m
        → ArePartsOfRun head m parts → length files ≡ length parts
        → reading_fault [] files (map {B = Load} (λ text. Ok text) (texts_of m parts)) ≡ None }
{}

/// The same, one part at a time: what a profile of earlier rows is after it was joined with one part more.
pub fn one_part_more_has_its_rows()
    // before the first part
    ensures none { (head : PartHead) (m : SymbolMap) → IsOfRows head None no_rows m (no_rows_of head) }
    // after one part more
    ensures more { (head part : PartHead) (command : Option (List ℕ)) (earlier rows : Listed) (m : SymbolMap)
        (before read after : Contents) → IsSound m → AreOfOneRun head part → AreWhole earlier → AreWritable m rows
        → IsOfRows head command earlier m before → Reads (part_text part rows m) read → IsJoined before read after
        → IsOfRows head (or_else command (command_of part)) (together earlier rows) m after }
    // which keeps what the next step needs
    ensures whole { (m : SymbolMap) (earlier rows : Listed) → AreWhole earlier → AreWritable m rows
        → AreWhole (together earlier rows) }
{}
