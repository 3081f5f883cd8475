//! What holds of the files that a shelf tells, whatever they are.

ghost use Rattle.std.specs.Prelude.{◌≡◌, ℕ, List, Some, Contains};
ghost use Rattle.gk_io.specs.Shelf.{File, NamesDiffer, file_named};

/// Where no two files have one name, each is found under its own; and nothing else is found.
pub fn files_are_found_by_name()
    ensures found { (files : List File) (file : File) → NamesDiffer files → Contains files file
        → file_named files file.name ≡ Some file.bytes }
    ensures there { (files : List File) (name bytes : List ℕ) → file_named files name ≡ Some bytes
        → Contains files (record { name = name; bytes = bytes }) }
{}
