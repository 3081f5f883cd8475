//! Laws over the definitions alone.

ghost use Rattle.std.specs.Prelude.{◌≡◌, ◌+◌, ◌<◌, ◌≤◌, ◌++◌, ℕ, List, length, take, drop, false, None};
ghost use Rattle.cs_blob.specs.declared.fault.BlobFault.{BlobFault};
ghost use Rattle.cs_blob.specs.declared.limits.TheConstants.{GREATEST_SIZE, MOST_PARTS};
ghost use Rattle.cs_blob.specs.Blobs.{IsBlob, blob_fault};
ghost use Rattle.cs_blob.specs.Numbers.{number_at};
ghost use Rattle.cs_blob.specs.SuperBlobs.{IsSuperBlob, SuperFails};
ghost use Rattle.cs_blob.specs.Writing.{Draft, has_kind, total_of, add_fault, written};

/// Bytes begin with one blob of a magic at most.
pub fn bytes_begin_with_one_blob()
    ensures { (magic : ℕ) (bytes whole rest other behind : List ℕ) → IsBlob magic whole → bytes ≡ whole ++ rest → IsBlob magic other → bytes ≡ other ++ behind → (whole ≡ other) × (rest ≡ behind) }
{}

/// Bytes without a fault begin with a blob, as long as its header tells, and bytes that begin with a blob have no
/// fault.
pub fn a_blob_is_read_where_it_is()
    ensures found { (magic : ℕ) (bytes : List ℕ) → blob_fault magic bytes ≡ None → IsBlob magic (take (number_at 4 bytes) bytes) }
    ensures only { (magic : ℕ) (bytes whole rest : List ℕ) → IsBlob magic whole → bytes ≡ whole ++ rest → (blob_fault magic bytes ≡ None) × (take (number_at 4 bytes) bytes ≡ whole) × (drop (number_at 4 bytes) bytes ≡ rest) }
{}

/// Bytes that begin with no super-blob have one first fault.
pub fn there_is_one_first_fault()
    ensures { (magic : ℕ) (bytes : List ℕ) (first second : BlobFault) → SuperFails magic bytes first → SuperFails magic bytes second → first ≡ second }
{}

/// Bytes that begin with a super-blob have no fault.
pub fn super_blobs_have_no_fault()
    ensures { (magic : ℕ) (bytes whole rest : List ℕ) (why : BlobFault) → SuperFails magic bytes why → IsSuperBlob magic whole → bytes ≡ whole ++ rest → ⊥ }
{}

/// A super-blob that is written is as long as its header, its index and its parts.
pub fn a_super_blob_has_its_total()
    ensures { (draft : Draft) → length (written draft) ≡ total_of draft.parts }
{}

/// A part of a new type is added where there is room in the index and in the whole.
pub fn a_part_fits_where_there_is_room()
    ensures { (parts : List (ℕ × List ℕ)) (kind : ℕ) (part : List ℕ) → has_kind parts kind ≡ false → length parts < MOST_PARTS → total_of parts + (8 + length part) ≤ GREATEST_SIZE → add_fault parts kind part ≡ None }
{}
