//! Laws over the definitions alone.

ghost use Rattle.std.specs.Prelude.{◌≡◌, ◌≤◌, ℕ, List, length};
ghost use Rattle.req_tree.specs.Tree.{Tree};
ghost use Rattle.req_tree.specs.TreeSet.{TreeSet};
ghost use Rattle.req_tree.specs.Normal.{normal};
ghost use Rattle.req_blob.specs.Spelling.{IsSpelling, IsPlain, plain_blob};
ghost use Rattle.req_blob.specs.declared.limits.TheConstants.{MOST_BYTES};
ghost use Rattle.req_ops.specs.Sets.{IsSetSpelling};
ghost use Rattle.req_ops.specs.SetEncoding.{IsPlainSet, plain_set};
ghost use Rattle.dumped_text.specs.Sets.{normal_set, IsSayableSet};
ghost use Rattle.dumped_text.specs.Dumped.{dumped, dumped_set};
ghost use Rattle.dumped_text.specs.Sayable.{IsSayable};
ghost use Rattle.req_grammar.specs.Readings.{IsRequirementText, IsSetText};
ghost use Rattle.req_language.specs.Promise.{ComesBack, SetComesBack};

use cs_blob::laws::a_super_blob_has_its_total;
use dumped_text::laws::{texts_are_read_as_normal_forms, texts_have_their_terminals};
use req_blob::laws::{a_blob_spells_one_tree, a_tree_has_one_plain_spelling};
use req_grammar::laws::{
    terminals_have_one_reading, texts_have_one_token_list, tokens_have_terminals_of_their_kind,
};
use req_ops::laws::{a_set_has_one_plain_spelling, bytes_spell_one_set};
use req_tree::laws::{
    normal_forms_are_spoken, normal_forms_keep_the_meaning, spoken_trees_are_normal,
};

/// The plain bytes of a normal form mean what the first bytes meant, and are those exactly where those are plain
/// and their tree is spoken.
pub fn normal_forms_come_back()
    ensures { (tree : Tree) (bytes again : List ℕ) → IsSpelling tree bytes → IsPlain (normal tree) again → ComesBack bytes again }
{
    a_blob_spells_one_tree();
    a_tree_has_one_plain_spelling();
    normal_forms_are_spoken();
    normal_forms_keep_the_meaning();
    spoken_trees_are_normal();
}

/// The same of sets.
pub fn normal_sets_come_back()
    ensures { (set : TreeSet) (bytes again : List ℕ) → IsSetSpelling set bytes → IsPlainSet (normal_set set) again → SetComesBack bytes again }
{
    bytes_spell_one_set();
    a_set_has_one_plain_spelling();
    normal_forms_are_spoken();
    normal_forms_keep_the_meaning();
    spoken_trees_are_normal();
}

/// A printed text says the normal form of its tree, and nothing else.
pub fn a_printed_text_says_one_normal_form()
    ensures { (tree x : Tree) → IsSayable tree → IsRequirementText (dumped tree) x → normal tree ≡ x }
{
    texts_have_one_token_list();
    terminals_have_one_reading();
    texts_have_their_terminals();
    texts_are_read_as_normal_forms();
}

/// A printed text of a set says the set's normal form, and nothing else.
pub fn a_printed_set_says_one_normal_form()
    ensures { (set s : TreeSet) → IsSayableSet set → IsSetText (dumped_set set) s → normal_set set ≡ s }
{
    texts_have_one_token_list();
    terminals_have_one_reading();
    texts_have_their_terminals();
    texts_are_read_as_normal_forms();
}

/// The plain bytes of what a text says are no more than a blob may have.
pub fn texts_have_short_blobs()
    ensures tree { (text : List ℕ) (x : Tree) → IsRequirementText text x → length (plain_blob x) ≤ MOST_BYTES }
    ensures set { (text : List ℕ) (set : TreeSet) → IsSetText text set → length (plain_set set) ≤ MOST_BYTES }
{
    tokens_have_terminals_of_their_kind();
    a_super_blob_has_its_total();
}
