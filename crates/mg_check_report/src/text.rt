//! The lines of findings.

ghost use Rattle.std.specs.Prelude.{◌≡◌, ◌++◌, OnOk};
ghost use Rattle.mg_check_report.specs.ReportText.{count_line, finding_line, has_damage as has_damage_in, is_damage as is_damage_of, lines_text, orphan_word as orphan_word_of, page_text, place_text, report_text, text_by};

use mg_base::Memory;
use mg_findings::{Finding, Rule};
use mg_model::Refusal;
use mg_script::{put_number, put_refusal, put_word};

/// Whether what is found is a damage.
fn is_damage(what: Rule) -> bool
    ensures { result ≡ is_damage_of what }
{
    match what {
        Rule::Orphan | Rule::Unreached | Rule::Dead | Rule::Without => false,
        Rule::Damage(_) => true,
    }
}

/// Whether one of these findings is a damage: then orphan pages are not released.
pub fn has_damage(findings: &[Finding]) -> bool
    ensures { result ≡ has_damage_in findings.now }
{
    let mut rest = findings;
    while let Some((finding, later)) = rest.split_first() {
        if is_damage(finding.what) {
            return true;
        }
        rest = later;
    }
    false
}

/// What is told of an orphan page.
fn orphan_word(released: bool) -> &'static str
    ensures { result.now ≡ orphan_word_of released }
{
    if released {
        " ORPHAN RELEASED"
    } else {
        " ORPHAN"
    }
}

/// Appends a page.
fn put_page(out: &mut Vec<u8>, finding: Finding) -> Result<(), Memory>
    ensures { OnOk result (out.new.items ≡ out.old.items ++ page_text finding.page.0) }
{
    put_word(out, "PAGE ")?;
    put_number(out, u64::from(finding.page.0))
}

/// Appends a page and a place on it, with a word between them.
fn put_place(out: &mut Vec<u8>, finding: Finding, word: &str) -> Result<(), Memory>
    ensures { OnOk result (out.new.items
        ≡ out.old.items ++ place_text finding.page.0 word.now finding.slot) }
{
    put_page(out, finding)?;
    put_word(out, word)?;
    put_number(out, u64::from(finding.slot))
}

/// Appends an orphan page.
fn put_orphan(out: &mut Vec<u8>, finding: Finding, released: bool) -> Result<(), Memory>
    ensures { OnOk result (out.new.items
        ≡ out.old.items ++ (page_text finding.page.0 ++ orphan_word_of released)) }
{
    put_page(out, finding)?;
    put_word(out, orphan_word(released))
}

/// Appends a place, and what is told of it.
fn put_left(out: &mut Vec<u8>, finding: Finding, word: &str, told: &str) -> Result<(), Memory>
    ensures { OnOk result (out.new.items
        ≡ out.old.items ++ (place_text finding.page.0 word.now finding.slot ++ told.now)) }
{
    put_place(out, finding, word)?;
    put_word(out, told)
}

/// Appends the text of a finding.
fn put_text(out: &mut Vec<u8>, finding: Finding, released: bool) -> Result<(), Memory>
    ensures { OnOk result (out.new.items
        ≡ out.old.items ++ text_by released finding finding.what) }
{
    match finding.what {
        Rule::Orphan => put_orphan(out, finding, released),
        Rule::Unreached => put_left(out, finding, " SLOT ", " UNREACHED VERSION"),
        Rule::Dead => put_left(out, finding, " SLOT ", " DEAD VERSION"),
        Rule::Without => put_left(out, finding, " ENTRY ", " WITHOUT VERSION"),
        Rule::Damage(field) => put_refusal(
            out,
            Refusal::Damaged {
                page: finding.page,
                field,
                found: finding.found,
                wanted: finding.wanted,
            },
        ),
    }
}

/// Appends the line of a finding.
fn put_finding(out: &mut Vec<u8>, finding: Finding, released: bool) -> Result<(), Memory>
    ensures { OnOk result (out.new.items ≡ out.old.items ++ finding_line released finding) }
{
    put_text(out, finding, released)?;
    put_word(out, "\n")
}

/// Appends the lines of findings.
fn put_lines(out: &mut Vec<u8>, findings: &[Finding], released: bool) -> Result<(), Memory>
    ensures { OnOk result (out.new.items ≡ out.old.items ++ lines_text released findings.now) }
{
    let mut rest = findings;
    while let Some((finding, later)) = rest.split_first() {
        put_finding(out, *finding, released)?;
        rest = later;
    }
    Ok(())
}

/// Appends the line with the number of findings.
fn put_count(out: &mut Vec<u8>, findings: &[Finding]) -> Result<(), Memory>
    ensures { OnOk result (out.new.items ≡ out.old.items ++ count_line findings.now) }
{
    put_word(out, "FINDINGS ")?;
    put_number(out, findings.len() as u64)?;
    put_word(out, "\n")
}

/// Appends a line for each finding, and their number. Where none is a damage, the orphan pages among
/// them are told to be released.
///
/// # Errors
///
/// `Memory` only. Then a part of the text may stand in `out`.
pub fn put_report(out: &mut Vec<u8>, findings: &[Finding]) -> Result<(), Memory>
    ensures { OnOk result (out.new.items ≡ out.old.items ++ report_text findings.now) }
{
    put_lines(out, findings, !has_damage(findings))?;
    put_count(out, findings)
}
