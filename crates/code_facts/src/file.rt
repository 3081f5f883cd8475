//! A whole facts file.

use crate::fault::FactFault;
use crate::limits::MOST_ROWS;
use crate::record::{is_header, read_row};
use crate::table::FactTable;
use csv_records::laws::a_text_has_one_list_of_records;
use csv_records::{ByteRecord, next_record, records_of};
use std::alloc::Global;

impl FactTable {
    ghost use Rattle.std.specs.Prelude.{◌≡◌, ◌≢◌, ◌∷◌, [], ◌++◌, ℕ, List, IfOk, IfErr, OnOk, Ok, Err, MatchResult};
    ghost use Rattle.csv.specs.Records.{fields_of};
    ghost use Rattle.req_tree.specs.Facts.{Facts};
    ghost use Rattle.code_facts.specs.declared.fault.FactFault.{FactFault};
    ghost use Rattle.code_facts.specs.Rows.{Row};
    ghost use Rattle.code_facts.specs.FactsFile as file;
    ghost use Rattle.code_facts.specs.Tables.{table_facts, Stands, IsFactsFile, IsFirstFault};

    /// Reads the facts of a file, or answers what is wrong with its first bad row.
    pub fn read(alloc: Global, bytes: &[u8]) -> Result<FactTable, FactFault>
        ensures found { IfOk result (λ table. IsFactsFile bytes.now (table_facts table)) }
        ensures first { IfErr result (λ fault. fault ≢ FactFault.OutOfMemory → IsFirstFault bytes.now fault) }
    {
        a_text_has_one_list_of_records();
        let mut reader = records_of(alloc, bytes);
        let mut fields = ByteRecord::new(alloc);
        if !next_record(&mut reader, &mut fields)? {
            return Err(FactFault::BadRow { row: 1 });
        }
        if !is_header(&fields) {
            return Err(FactFault::BadRow { row: 1 });
        }
        let mut table = FactTable::empty(alloc);
        for number in 2..MOST_ROWS + 3 {
            if !next_record(&mut reader, &mut fields)? {
                return Ok(table);
            }
            match table.take_record(alloc, number, &fields) {
                Ok(()) => {}
                Err(fault) => return Err(fault),
            }
        }
        Err(FactFault::TooMany)
    }

    /// Takes the row of a record behind the rows that the table holds.
    fn take_record(
        &mut self,
        alloc: Global,
        number: u32,
        fields: &ByteRecord,
    ) -> Result<(), FactFault>
        ensures found { OnOk result ((earlier : List Row) → Stands self.old earlier → (row : Row) × (file.taken number earlier (fields_of fields.now) ≡ Ok row) × Stands self.new (earlier ++ row ∷ [])) }
        ensures first { IfErr result (λ fault. fault ≢ FactFault.OutOfMemory → (earlier : List Row) → Stands self.old earlier → file.taken number earlier (fields_of fields.now) ≡ Err fault) }
    {
        if number > MOST_ROWS + 1 {
            return Err(FactFault::TooMany);
        }
        let Ok(found) = read_row(alloc, fields) else {
            return Err(FactFault::OutOfMemory);
        };
        let Some(row) = found else {
            return Err(FactFault::BadRow { row: number });
        };
        self.take(alloc, number, &row)
    }
}
