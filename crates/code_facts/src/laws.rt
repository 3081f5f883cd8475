//! Laws over the definitions alone.

ghost use Rattle.std.specs.Prelude.{◌≡◌, ◌⊎◌, ℕ, List, if◌then◌else◌, Some, None, bytes_eq};
ghost use Rattle.std.specs.List.{list_any};
ghost use Rattle.req_tree.specs.Facts.{Facts};
ghost use Rattle.code_facts.specs.declared.fault.FactFault.{FactFault};
ghost use Rattle.code_facts.specs.Rows.{Row};
ghost use Rattle.code_facts.specs.Knowledge.{known, facts_in};
ghost use Rattle.code_facts.specs.Tables.{IsFactsFile, IsFirstFault, listed};

use csv_records::laws::a_text_has_one_list_of_records;

/// All bytes are a facts file or have a first fault, and not both; a file has its facts, and a bad one its fault.
pub fn a_file_is_right_or_has_a_first_fault()
    ensures either { (bytes : List ℕ) → ((facts : Facts) × IsFactsFile bytes facts) ⊎ ((fault : FactFault) × IsFirstFault bytes fault) }
    ensures apart { (bytes : List ℕ) (facts : Facts) (fault : FactFault) → IsFactsFile bytes facts → IsFirstFault bytes fault → ⊥ }
    ensures facts { (bytes : List ℕ) (first second : Facts) → IsFactsFile bytes first → IsFactsFile bytes second → first ≡ second }
    ensures fault { (bytes : List ℕ) (first second : FactFault) → IsFirstFault bytes first → IsFirstFault bytes second → first ≡ second }
{
    a_text_has_one_list_of_records();
}

/// A hash is listed exactly where a row is about it, with all that the rows say of it.
pub fn a_hash_is_listed_where_a_row_has_it()
    ensures { (rows : List Row) (hash : List ℕ) → listed (facts_in rows) hash ≡ (if list_any (λ (row : Row). bytes_eq hash row.hash) rows then Some (known rows hash) else None) }
{}
