//! The run of the demonstration, whatever comes from outside.
#![tactic(auto)]

ghost use Rattle.std.specs.Prelude.{ℕ, List, Option, ◌≤◌};
ghost use Rattle.elf_read.specs.Image.{image_of};
ghost use Rattle.guest_load.specs.Arguments.{arguments_len, arguments_limit};
ghost use Rattle.guest_load.specs.First.{guest_at_start};
ghost use Rattle.guest_sched.specs.Machine.{new_machine};
ghost use Rattle.demo_make.specs.Program.{demo, IsFileOf};
ghost use Rattle.demo_run.specs.Exits.{ExitsInTime};

/// The program of each size N from 1 to 100000 exits with the status 0 after 3788 N + 65 + 9 w steps, for a w of at
/// most 3. It does so whatever its arguments and its input are, however long its turns are, and with whatever seed they
/// are drawn. It does nothing: its contract is a law.
pub fn the_demonstration_exits()
    ensures { (size quantum : ℕ) (seed : Option ℕ) (file input : List ℕ) (args : List (List ℕ)) → 1 ≤ size
        → size ≤ 100000 → IsFileOf (demo size) file → arguments_len args ≤ arguments_limit
        → ExitsInTime size (new_machine (guest_at_start (image_of file) args input) quantum seed) }
{}
