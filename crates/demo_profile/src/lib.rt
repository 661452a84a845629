//! The demonstration as a profiled run.
#![tactic(auto)]

ghost use Rattle.std.specs.Prelude.{ℕ, List, ◌≡◌, ◌≤◌};
ghost use Rattle.elf_read.specs.Image.{image_of};
ghost use Rattle.guest_load.specs.Arguments.{arguments_len, arguments_limit};
ghost use Rattle.demo_make.specs.Program.{demo, IsFileOf};
ghost use Rattle.profile_run.specs.Program.{Program};
ghost use Rattle.profile_run.specs.Trace.{IsTraceOf, RunStep, Stop};
ghost use Rattle.demo_profile.specs.Ends.{EndsInTime};

/// A run of the demonstration that may make 3788 N + 65 + 9 w steps, for a w of at most 3, ends with the status 0 after
/// as many, or where too many frames are open. It does nothing: its contract is a law.
pub fn the_demonstration_runs_to_its_end()
    ensures { (size : ℕ) (file : List ℕ) (guest : Program) (trace : List RunStep) (stop : Stop) → 1 ≤ size
        → size ≤ 100000 → IsFileOf (demo size) file → guest.image ≡ image_of file
        → arguments_len guest.args ≤ arguments_limit → IsTraceOf guest trace stop
        → EndsInTime size guest.options.budget trace stop }
{}
