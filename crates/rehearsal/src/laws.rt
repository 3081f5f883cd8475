//! Laws over the definitions: functions that do nothing and whose contracts are the laws.

ghost use Rattle.rehearsal.specs.Laws.{NumbersHaveNoLf, MadeOfLines, TextHasTheLines};

use line_reader::laws::lines_are_the_bytes;

/// The lines of a rehearsal are the lines of its text: none has an LF in it.
pub fn a_rehearsal_has_its_lines()
    ensures made { MadeOfLines }
    ensures text { TextHasTheLines }
{
    lines_are_the_bytes();
}

/// No number in decimal digits has an LF in it.
pub fn numbers_have_no_lf()
    ensures { NumbersHaveNoLf }
{}
