//! Laws over the definitions alone.

ghost use Rattle.std.specs.Prelude.{◌≡◌, ℕ, List, true};
ghost use Rattle.req_tree.specs.Tree.{Tree};
ghost use Rattle.req_tree.specs.Subject.{Subject};
ghost use Rattle.req_tree.specs.Facts.{Facts};
ghost use Rattle.req_tree.specs.Meaning.{mean};
ghost use Rattle.req_tree.specs.Normal.{IsSpoken, normal};
ghost use Rattle.req_tree.specs.Spellable.{CanSpell, IsShallow, IsEncodable};
ghost use Rattle.req_tree.specs.Oid.{IsBytes, IsOidBytes, IsOidText};
ghost use Rattle.req_tree.specs.OidReading.{is_oid};

/// Each normal form is spoken.
pub fn normal_forms_are_spoken()
    ensures { (tree : Tree) → IsSpoken (normal tree) }
{}

/// A normal form means what its tree means, of whatever subject and facts.
pub fn normal_forms_keep_the_meaning()
    ensures { (tree : Tree) (subject : Subject) (facts : Facts) → mean (normal tree) subject facts ≡ mean tree subject facts }
{}

/// A spoken tree is its own normal form.
pub fn spoken_trees_are_normal()
    ensures { (tree : Tree) → IsSpoken tree → normal tree ≡ tree }
{}

/// The normal form of a tree that can be spelt can be spelt, and where it is no deeper than a requirement may
/// be it can be written.
pub fn normal_forms_can_be_spelt()
    ensures spelt { (tree : Tree) → CanSpell tree → CanSpell (normal tree) }
    ensures written { (tree : Tree) → IsEncodable tree → IsShallow (normal tree) → IsEncodable (normal tree) }
{}

/// A text is that of one object identifier at most.
pub fn a_text_has_one_oid()
    ensures { (text first second : List ℕ) → IsOidText first text → IsOidText second text → first ≡ second }
{}

/// An object identifier has one text at most. `oid_to_text` shows that it has one.
pub fn an_oid_has_one_text()
    ensures { (oid first second : List ℕ) → IsOidText oid first → IsOidText oid second → first ≡ second }
{}

/// Bytes are read as an object identifier exactly where they are those of one.
pub fn an_oid_is_read_where_it_is()
    ensures { (bytes : List ℕ) → (IsBytes bytes → is_oid bytes ≡ true → IsOidBytes bytes) × (IsOidBytes bytes → is_oid bytes ≡ true) }
{}
