//! Laws over the definitions of sets alone.

ghost use Rattle.std.specs.Prelude.{◌≡◌, ◌≢◌, List, ℕ};
ghost use Rattle.req_tree.specs.TreeSet.{TreeSet};
ghost use Rattle.req_ops.specs.declared.fault.SetFault.{SetFault};
ghost use Rattle.req_ops.specs.declared.fault.SetFault.TheVariants.{OutOfMemory};
ghost use Rattle.req_ops.specs.Sets.{IsSetSpelling, SetFails};
ghost use Rattle.req_ops.specs.SetEncoding.{IsPlainSet};

use cs_blob::laws::{
    bytes_begin_with_one_blob, super_blobs_have_no_fault, there_is_one_first_fault,
};
use req_blob::laws::a_blob_spells_one_tree;

/// Bytes are those of one set.
pub fn bytes_spell_one_set()
    ensures { (first second : TreeSet) (bytes : List ℕ) → IsSetSpelling first bytes → IsSetSpelling second bytes → first ≡ second }
{
    a_blob_spells_one_tree();
}

/// A set has one plain spelling at most.
pub fn a_set_has_one_plain_spelling()
    ensures { (set : TreeSet) (a b : List ℕ) → IsPlainSet set a → IsPlainSet set b → a ≡ b }
{}

/// Bytes that are no set have one first fault, unless there is no memory.
pub fn a_set_has_one_first_fault()
    ensures { (bytes : List ℕ) (first second : SetFault) → SetFails bytes first → SetFails bytes second → first ≢ OutOfMemory → second ≢ OutOfMemory → first ≡ second }
{
    there_is_one_first_fault();
    bytes_begin_with_one_blob();
    super_blobs_have_no_fault();
}
