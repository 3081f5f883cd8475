//! Laws over the definitions: functions that do nothing and whose contracts are the laws.

ghost use Rattle.rule_list.specs.Laws.{OrderIsOne, ListTextIsOne};

/// Where rules have ids of their own there is one order of a kind's rules, and one text of them all.
pub fn the_list_is_one_text()
    ensures order { OrderIsOne }
    ensures text { ListTextIsOne }
{}
