//! What holds of what the commands say.

ghost use Rattle.std.specs.Prelude.{◌≡◌, ℕ, List};
ghost use Rattle.run_status.specs.declared.status.Status.{Status};
ghost use Rattle.language_commands.specs.Compiling.{Compiles};
ghost use Rattle.language_commands.specs.CompilingSets.{CompilesSet};
ghost use Rattle.language_commands.specs.Dumping.{Dumps};

/// What a command says of the bytes of a file has one status: none is both taken and refused.
pub fn each_work_has_one_status()
    ensures compile { (text said other : List ℕ) (first second : Status) → Compiles text first said
        → Compiles text second other → first ≡ second }
    ensures compile_set { (text said other : List ℕ) (first second : Status) → CompilesSet text first said
        → CompilesSet text second other → first ≡ second }
    ensures dump { (bytes said other : List ℕ) (first second : Status) → Dumps bytes first said
        → Dumps bytes second other → first ≡ second }
{}
