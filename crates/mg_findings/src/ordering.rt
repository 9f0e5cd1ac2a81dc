//! The order of findings.

ghost use Rattle.std.specs.Prelude.{◌≡◌, IsErr, OnOk};
ghost use Rattle.std.specs.Ordering.{eq_by_cmp};
ghost use Rattle.mg_findings.specs.Findings.{Adds, Has, IsListOf, Tells, field_place as place_of_field, finding_cmp, rule_place as place_of_rule};

use crate::finding::{Finding, Rule};
use mg_base::{Damaged, Field, Memory};
use std::cmp::Ordering;

/// The place of a field in the table of fields.
fn field_place(field: Field) -> u8
    ensures { result ≡ place_of_field field }
{
    match field {
        Field::Presence => 0,
        Field::Kind => 1,
        Field::Flags => 2,
        Field::Zero => 3,
        Field::Own => 4,
        Field::Owner => 5,
        Field::Sequence => 6,
        Field::Magic => 7,
        Field::Major => 8,
        Field::Minor => 9,
        Field::PageSize => 10,
        Field::Next => 11,
        Field::Oit => 12,
        Field::Oat => 13,
        Field::Ost => 14,
        Field::Link => 15,
        Field::Count => 16,
        Field::Offset => 17,
        Field::Cell => 18,
        Field::Row => 19,
        Field::Run => 20,
        Field::Target => 21,
        Field::Entry => 22,
        Field::Catalog => 23,
        Field::Bit => 24,
        Field::Indexed => 25,
        Field::Fence => 26,
        Field::State => 27,
        Field::Key => 28,
        Field::Level => 29,
        Field::Format => 30,
    }
}

/// The place of what is found among all that can be: leftovers first, then damages by their field.
fn rule_place(what: Rule) -> u8
    ensures { result ≡ place_of_rule what }
{
    match what {
        Rule::Orphan => 0,
        Rule::Unreached => 1,
        Rule::Dead => 2,
        Rule::Without => 3,
        Rule::Damage(field) => 4 + field_place(field),
    }
}

/// The order of two findings: by page, slot, what is found, and the two numbers.
fn compare(a: &Finding, b: &Finding) -> Ordering
    ensures { result ≡ finding_cmp a.now b.now }
{
    let place = a.page.0.cmp(&b.page.0).then(a.slot.cmp(&b.slot));
    let what = rule_place(a.what).cmp(&rule_place(b.what));
    let numbers = a.found.cmp(&b.found).then(a.wanted.cmp(&b.wanted));
    place.then(what).then(numbers)
}

/// Whether two findings are one.
fn is_same(a: &Finding, b: &Finding) -> bool
    ensures { result ≡ eq_by_cmp finding_cmp a.now b.now }
{
    compare(a, b).is_eq()
}

/// Puts findings into their order, each once. It takes no memory.
pub fn in_order(findings: &mut Vec<Finding>)
    ensures { IsListOf (Has findings.old.items) findings.new.items }
{
    findings.sort_unstable_by(|a, b| compare(a, b));
    findings.dedup_by(|a, b| is_same(a, b));
}

/// Adds the damage that a test of a page has told of, if it has.
///
/// # Errors
///
/// `Memory` only, where a damage was told. Then nothing was added.
pub fn note(findings: &mut Vec<Finding>, test: Result<(), Damaged>) -> Result<(), Memory>
    ensures adds { OnOk result (Adds findings.old.items findings.new.items (Tells test)) }
    ensures cause { IsErr result → IsErr test }
    ensures left { IsErr result → findings.new.items ≡ findings.old.items }
{
    if let Err(damage) = test {
        findings.push(Finding::of(damage))?;
    }
    Ok(())
}
