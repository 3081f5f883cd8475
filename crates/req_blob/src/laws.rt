//! Laws over the definitions alone.

ghost use Rattle.std.specs.Prelude.{◌≡◌, ◌≢◌, ◌↔◌, ◌⊎◌, ◌<◌, ◌^◌, ◌++◌, ℕ, List, length, Ok, Err};
ghost use Rattle.req_tree.specs.Oid.{IsBytes};
ghost use Rattle.req_blob.specs.Decoding.{decoded};
ghost use Rattle.req_tree.specs.Tree.{Tree};
ghost use Rattle.req_tree.specs.Spellable.{IsEncodable};
ghost use Rattle.cs_blob.specs.Blobs.{IsBlob};
ghost use Rattle.req_blob.specs.declared.fault.OpsFault.{OpsFault};
ghost use Rattle.req_blob.specs.declared.fault.OpsFault.TheVariants.{TooLong, OutOfMemory};
ghost use Rattle.req_blob.specs.declared.limits.TheConstants.{MOST_BYTES};
ghost use Rattle.req_blob.specs.Encoding.{encoded};
ghost use Rattle.req_blob.specs.Spelling.{Spells, IsSpelling, IsPlain, plain, plain_blob, requirement, requirement_magic};

use cs_blob::laws::a_blob_is_read_where_it_is;
use req_tree::laws::an_oid_is_read_where_it_is;

/// Bytes have one expression at their front at most, and it is that of one tree.
pub fn a_front_spells_one_tree()
    ensures { (first second : Tree) (a b x y : List ℕ) → Spells first a → Spells second b → a ++ x ≡ b ++ y → (first ≡ second) × (a ≡ b) }
{
    an_oid_is_read_where_it_is();
}

/// A blob is that of one tree.
pub fn a_blob_spells_one_tree()
    ensures { (first second : Tree) (bytes : List ℕ) → IsSpelling first bytes → IsSpelling second bytes → first ≡ second }
{
    an_oid_is_read_where_it_is();
    a_blob_is_read_where_it_is();
}

/// A tree has one plain spelling at most.
pub fn a_tree_has_one_plain_spelling()
    ensures { (tree : Tree) (a b : List ℕ) → IsPlain tree a → IsPlain tree b → a ≡ b }
{}

/// A tree that some bytes spell can be written.
pub fn what_is_spelt_can_be_written()
    ensures { (tree : Tree) (bytes : List ℕ) → IsSpelling tree bytes → IsEncodable tree }
{}

/// All spellings of a tree's expression are as long as the plain one.
pub fn spellings_are_as_long_as_the_plain_one()
    ensures { (tree : Tree) (bytes : List ℕ) → Spells tree bytes → length bytes ≡ length (plain tree) }
{}

/// A requirement is a blob of its magic, where its length fits in a word.
pub fn a_requirement_is_a_blob()
    ensures { (expression : List ℕ) → length (requirement expression) < 2 ^ 32 → IsBlob requirement_magic (requirement expression) }
{}

/// A tree that isn't written, though there is memory, is too long.
pub fn what_is_refused_is_too_long()
    ensures { (why : OpsFault) (tree : Tree) → (why ≢ OutOfMemory → encoded tree ≡ Err why) → (why ≡ OutOfMemory) ⊎ ((why ≡ TooLong) × (MOST_BYTES < length (plain_blob tree))) }
{}

/// Bytes are read as a tree exactly where they spell it.
pub fn bytes_are_read_where_they_spell()
    ensures { (bytes : List ℕ) (tree : Tree) → IsBytes bytes → (decoded bytes ≡ Ok tree) ↔ IsSpelling tree bytes }
{
    an_oid_is_read_where_it_is();
    a_blob_is_read_where_it_is();
}
