//! The lines of the figures.

ghost use Rattle.std.specs.Prelude.{◌≡◌, ◌++◌, OnOk};
ghost use Rattle.mg_stat_report.specs.StatText.{count_text, counts_text, due_line, due_word as due_word_of, header_text, limbo_text, markers_text, number_line, pages_text, stat_text, sweep_text, table_line, tables_text, used_text};

use mg_base::{Memory, TxNo};
use mg_file_figures::{FileFigures, TableFigures};
use mg_script::{put_number, put_word};
use mg_stat::Figures;

/// Appends a line of a word and a number.
fn put_line(out: &mut Vec<u8>, word: &str, number: u64) -> Result<(), Memory>
    ensures { OnOk result (out.new.items ≡ out.old.items ++ number_line word.now number) }
{
    put_word(out, word)?;
    put_number(out, number)?;
    put_word(out, "\n")
}

/// The word for whether a sweep is due.
fn due_word(is_due: bool) -> &'static str
    ensures { result.now ≡ due_word_of is_due }
{
    if is_due { "YES" } else { "NO" }
}

/// Appends the markers of transactions.
fn put_markers(out: &mut Vec<u8>, file: &Figures) -> Result<(), Memory>
    ensures { OnOk result (out.new.items ≡ out.old.items ++ markers_text file.now) }
{
    put_line(out, "NEXT ", u64::from(file.next))?;
    put_line(out, "OIT ", u64::from(file.oit))?;
    put_line(out, "OAT ", u64::from(file.oat))?;
    put_line(out, "OST ", u64::from(file.ost))
}

/// Appends what the header page says.
fn put_header(out: &mut Vec<u8>, file: &Figures) -> Result<(), Memory>
    ensures { OnOk result (out.new.items ≡ out.old.items ++ header_text file.now) }
{
    put_line(out, "PAGE SIZE ", u64::from(file.size))?;
    put_line(out, "VERSION 1.", u64::from(file.minor))?;
    put_markers(out, file)
}

/// Appends the line on the sweep.
fn put_due(out: &mut Vec<u8>, is_due: bool) -> Result<(), Memory>
    ensures { OnOk result (out.new.items ≡ out.old.items ++ due_line is_due) }
{
    put_word(out, "SWEEP DUE ")?;
    put_word(out, due_word(is_due))?;
    put_word(out, "\n")
}

/// Appends the sweep.
fn put_sweep(out: &mut Vec<u8>, file: &Figures) -> Result<(), Memory>
    ensures { OnOk result (out.new.items ≡ out.old.items ++ sweep_text file.now) }
{
    put_line(out, "SWEEP INTERVAL ", u64::from(file.interval))?;
    put_due(out, file.is_due)
}

/// Appends how many pages there are.
fn put_used(out: &mut Vec<u8>, file: &Figures) -> Result<(), Memory>
    ensures { OnOk result (out.new.items ≡ out.old.items ++ used_text file.now) }
{
    put_line(out, "PAGES ", u64::from(file.used))?;
    put_line(out, "TIP PAGES ", u64::from(file.tips))
}

/// Appends the sweep and the pages.
fn put_pages(out: &mut Vec<u8>, file: &Figures) -> Result<(), Memory>
    ensures { OnOk result (out.new.items ≡ out.old.items ++ pages_text file.now) }
{
    put_sweep(out, file)?;
    put_used(out, file)
}

/// Appends the name of a table.
fn put_name(out: &mut Vec<u8>, name: &[u8]) -> Result<(), Memory>
    ensures { OnOk result (out.new.items ≡ out.old.items ++ name.now) }
{
    Ok(out.extend_from_slice(name)?)
}

/// Appends a word and a number.
fn put_count(out: &mut Vec<u8>, word: &str, number: u64) -> Result<(), Memory>
    ensures { OnOk result (out.new.items ≡ out.old.items ++ count_text word.now number) }
{
    put_word(out, word)?;
    put_number(out, number)
}

/// Appends the figures of a table.
fn put_counts(out: &mut Vec<u8>, table: &TableFigures) -> Result<(), Memory>
    ensures { OnOk result (out.new.items ≡ out.old.items ++ counts_text table.now) }
{
    put_count(out, " RECORDS ", table.records)?;
    put_count(out, " VERSIONS ", table.versions)?;
    put_line(out, " PAGES ", table.pages)
}

/// Appends the line of a table.
fn put_table(out: &mut Vec<u8>, table: &TableFigures) -> Result<(), Memory>
    ensures { OnOk result (out.new.items ≡ out.old.items ++ table_line table.now) }
{
    put_word(out, "TABLE ")?;
    put_name(out, table.name.as_slice())?;
    put_counts(out, table)
}

/// Appends the lines of tables.
fn put_tables(out: &mut Vec<u8>, tables: &[TableFigures]) -> Result<(), Memory>
    ensures { OnOk result (out.new.items ≡ out.old.items ++ tables_text tables.now) }
{
    let mut rest = tables;
    while let Some((table, later)) = rest.split_first() {
        put_table(out, table)?;
        rest = later;
    }
    Ok(())
}

/// Appends the lines of the transactions in limbo.
fn put_limbo(out: &mut Vec<u8>, list: &[TxNo]) -> Result<(), Memory>
    ensures { OnOk result (out.new.items ≡ out.old.items ++ limbo_text list.now) }
{
    let mut rest = list;
    while let Some((t, later)) = rest.split_first() {
        put_line(out, "LIMBO ", u64::from(t.0))?;
        rest = later;
    }
    Ok(())
}

/// Appends the figures of a file: of the whole, of each table, and the transactions in limbo.
///
/// # Errors
///
/// `Memory` only. Then a part of them may stand in `out`.
pub fn put_stat(out: &mut Vec<u8>, it: &FileFigures) -> Result<(), Memory>
    ensures { OnOk result (out.new.items ≡ out.old.items ++ stat_text it.now) }
{
    put_header(out, &it.file)?;
    put_pages(out, &it.file)?;
    put_tables(out, it.tables.as_slice())?;
    put_limbo(out, it.limbo.as_slice())
}
