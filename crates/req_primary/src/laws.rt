//! Laws over the definitions: functions that do nothing and whose contracts are the laws.

ghost use Rattle.req_primary.specs.Laws.{OperandsAreRead, WhatIsReadIsAnOperand, ReadingsHavePlainOnes, PlainReadingsStand};
ghost use Rattle.req_primary.specs.Leads.{OperandsLead, RightParenthesesLead};

/// The operands of the grammar are read.
pub fn operands_are_read()
    ensures { OperandsAreRead }
{}

/// What is read is an operand of the grammar.
pub fn what_is_read_is_an_operand()
    ensures { WhatIsReadIsAnOperand }
{}

/// A list is read as a tree where it is read with plain keys as one that stands for it.
pub fn plain_readings_stand_for_readings()
    ensures plain { ReadingsHavePlainOnes }
    ensures stands { PlainReadingsStand }
{}

/// Where an operand, or a right parenthesis behind one, stops being read is where the machine stops.
pub fn operands_stop_where_the_machine_does()
    ensures operand { OperandsLead }
    ensures close { RightParenthesesLead }
{}
