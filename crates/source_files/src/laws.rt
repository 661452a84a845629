//! What is so of all source texts.

ghost use Rattle.std.specs.Prelude.{◌≡◌, ℕ, List, Some, map};
ghost use Rattle.outside.specs.Files.{Files, Rose, file};
ghost use Rattle.annotate.specs.Report.{SourceTexts};
ghost use Rattle.profile_files.specs.Loads.{faultless_load};
ghost use Rattle.outside.specs.Limits.{text_limit};
ghost use Rattle.source_files.specs.Sources.{AreSources, folder_name, load_behind};

/// Where no load failed, source texts are a function of what the folder holds. It does nothing: its contract is a law.
pub fn equal_folders_give_equal_texts()
    // Each is what its file gives: a file that the folder hasn't is told as missing.
    ensures held { (contents : Files) (before now : ℕ) (names : List (List ℕ)) (texts : SourceTexts)
        → AreSources (Some contents) before now names texts → (Rose before now → ⊥)
        → map (λ text. load_behind text.1) texts
        ≡ map (λ name. faultless_load (file contents (folder_name name)) text_limit) names }
    // So equal folders give equal texts for equal names.
    ensures equal { (contents : Files) (before now again later : ℕ) (names : List (List ℕ)) (first second : SourceTexts)
        → AreSources (Some contents) before now names first → AreSources (Some contents) again later names second
        → (Rose before now → ⊥) → (Rose again later → ⊥) → first ≡ second }
{}
