//! The laws of rules tables, as functions with empty bodies whose contracts are the theorems.

ghost use Rattle.std.specs.Prelude.{◌≡◌, ◌⊎◌, ℕ, List, Ok, Err};
ghost use Rattle.mq_rules.specs.declared.rule.Table.{Table};
ghost use Rattle.mq_rules_text.specs.declared.fault.RulesFault.{RulesFault};
ghost use Rattle.mq_rules_text.specs.Tables.{table_of};
ghost use Rattle.mq_rules_grammar.specs.Tables.{IsTable};
ghost use Rattle.mq_rules_grammar.specs.Faults.{HasFault};

/// The reader answers a table exactly where the text is that of this table, of which there is one.
pub fn tables_are_those_of_the_text()
    ensures found { (own text : List ℕ) (table : Table) → table_of own text ≡ Ok table → IsTable own text table }
    ensures read { (own text : List ℕ) (table : Table) → IsTable own text table → table_of own text ≡ Ok table }
    ensures one_table { (own text : List ℕ) (table other : Table) → IsTable own text table → IsTable own text other → table ≡ other }
{}

/// The reader answers a fault, other than that memory ran out, exactly where it is the text's.
pub fn a_table_fault_is_told()
    ensures found { (own text : List ℕ) (fault : RulesFault) → table_of own text ≡ Err fault → HasFault own text fault }
    ensures read { (own text : List ℕ) (fault : RulesFault) → HasFault own text fault → table_of own text ≡ Err fault }
{}

/// Each text is that of a table or has a fault, never both, and has one fault at most.
pub fn a_text_is_a_table_or_has_a_fault()
    ensures either { (own text : List ℕ) → ((table : Table) × IsTable own text table) ⊎ ((fault : RulesFault) × HasFault own text fault) }
    ensures never_both { (own text : List ℕ) (table : Table) (fault : RulesFault) → IsTable own text table → HasFault own text fault → ⊥ }
    ensures one_fault { (own text : List ℕ) (fault other : RulesFault) → HasFault own text fault → HasFault own text other → fault ≡ other }
{}
