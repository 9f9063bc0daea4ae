//! Copies of rules tables.
ghost use Rattle.std.specs.Prelude.{◌≡◌, IfOk};
ghost use Rattle.mq_rules.specs.declared.rule.Condition.TheVariants as conditions;

use mq_base::{Items, NoMemory};
use mq_rules::{Condition, Rule, Table, TextField};
use std::alloc::Global;

fn copy_text(alloc: Global, field: TextField, pattern: &Items<u8>) -> Result<Condition, NoMemory>
    ensures { IfOk result (λ copy. copy ≡ conditions.Text field pattern.now) }
{
    let pattern = Items::from_slice(alloc, pattern.as_slice())?;
    Ok(Condition::Text(field, pattern))
}

fn copy_condition(alloc: Global, condition: &Condition) -> Result<Condition, NoMemory>
    ensures { IfOk result (λ copy. copy ≡ condition.now) }
{
    match condition {
        Condition::Text(field, pattern) => copy_text(alloc, *field, pattern),
        Condition::Number(field, value) => Ok(Condition::Number(*field, *value)),
    }
}

fn copy_conditions(
    alloc: Global,
    conditions: &Items<Condition>,
) -> Result<Items<Condition>, NoMemory>
    ensures { IfOk result (λ copy. copy ≡ conditions.now) }
{
    let mut copies = Items::new(alloc);
    for condition in conditions.as_slice() {
        copies.push(copy_condition(alloc, condition)?)?;
    }
    Ok(copies)
}

fn copy_rule(alloc: Global, rule: &Rule) -> Result<Rule, NoMemory>
    ensures { IfOk result (λ copy. copy ≡ rule.now) }
{
    let conditions = copy_conditions(alloc, &rule.conditions)?;
    Ok(Rule {
        conditions,
        action: rule.action,
        retries: rule.retries,
    })
}

fn copy_rules(alloc: Global, rules: &Items<Rule>) -> Result<Items<Rule>, NoMemory>
    ensures { IfOk result (λ copy. copy ≡ rules.now) }
{
    let mut copies = Items::new(alloc);
    for rule in rules.as_slice() {
        copies.push(copy_rule(alloc, rule)?)?;
    }
    Ok(copies)
}

/// A copy of a rules table.
///
/// # Errors
///
/// No memory.
pub fn copy_table(alloc: Global, table: &Table) -> Result<Table, NoMemory>
    ensures { IfOk result (λ copy. copy ≡ table.now) }
{
    let rules = copy_rules(alloc, &table.rules)?;
    Ok(Table {
        input_q: table.input_q,
        retry_interval: table.retry_interval,
        wait: table.wait,
        rules,
    })
}
