//! The directories of several tables.

ghost use Rattle.std.specs.Prelude.{◌≡◌, ◌≤◌, ◌<◌, ◌+◌, [], None, Some, IfNone, IfOk, IfSome, MatchOption, length};
ghost use Rattle.mg_directory.specs.Bounds.{IsNowhere, IsPlaceOf, IsTooLarge, LeavesNoted, LeavesPlace, Places, without};
ghost use Rattle.mg_directory.specs.Candidates.{Drops, IsStarted, KeepsOrDrops, MarksFor, NotesOrDrops, at_key, by_table, may_be_made, notes_in, under};

use crate::directory::Directory;
use crate::remembered::Remembered;
use crate::{MOST_NOTED, MOST_TABLES};
use mg_base::{Memory, PageNo, RecId};
use std::alloc::Global;
use std::marker::Model;

/// For some tables, by their first pointer pages, the records by the bytes of their keys.
#[derive(Debug, Drop)]
pub struct Directories {
    /// How many notes there may be in all.
    most: usize,
    /// The one that was kept first is the first.
    tables: Vec<Directory>,
    /// The first pointer pages of tables that have too many records.
    too_large: Vec<u32>,
    /// Where the rows of tables in the catalog were last found.
    rows: Remembered,
}

impl Model for Directories {
    ghost use Rattle.mg_directory.specs.Bounds.{IsBounded};
    ghost use Rattle.mg_directory.specs.Candidates.{Kept};

    ghost Value = { Kept };

    ghost view = { λ directories. record {
      most = directories.most;
      dirs = directories.tables.items;
      too_large = directories.too_large.items;
    } };

    ghost invariant = { λ directories. IsBounded directories.most directories.tables.items };
}

impl Directories {
    /// No table has one. There will be no more notes than `most` in all.
    pub fn new(alloc: Global, most: usize) -> Directories
        requires { most ≤ MOST_NOTED }
        ensures { result ≡ record { most = most; dirs = []; too_large = [] } }
    {
        Directories {
            most,
            tables: Vec::new(alloc),
            too_large: Vec::new(alloc),
            rows: Remembered::new(alloc),
        }
    }

    /// The candidates for the bytes of a key among the records of a table, the newest first. None
    /// where the table has no directory.
    ///
    /// # Errors
    ///
    /// `Memory` only.
    pub fn candidates(
        &self,
        alloc: Global,
        first: PageNo,
        bytes: &[u8],
    ) -> Result<Option<Vec<RecId>>, Memory>
        ensures { IfOk result (λ found. MatchOption found
            (by_table self.now.dirs first.0 ≡ None)
            (λ recs. at_key (by_table self.now.dirs first.0) bytes.now ≡ Some recs.items)) }
    {
        let Some(place) = place_of(&self.tables, first.0) else {
            return Ok(None);
        };
        let found = self.tables[place].candidates(alloc, bytes)?;
        Ok(Some(found))
    }

    /// Notes a record of a table under the bytes of a key, if the table has a directory. What can't
    /// be noted drops that. Where there are too many notes then, this is known of the table from now on.
    pub fn note(&mut self, first: PageNo, bytes: &[u8], rec: RecId)
        ensures notes { NotesOrDrops (by_table self.old.dirs) (by_table self.new.dirs) first.0
            bytes.now rec }
        ensures marks { MarksFor (self.old.most ≤ notes_in self.old.dirs) self.old self.new first.0 }
    {
        note_in(&mut self.tables, first.0, bytes, rec);
        if notes_of(&self.tables) <= self.most {
            return;
        }
        drop_from(&mut self.tables, first.0);
        // Where there is no memory for the mark, the table is gone through again in vain.
        let _marked = self.too_large.push(first.0);
    }

    /// Whether a directory of a table is worth to be made: it has none, and is not known to have
    /// too many records.
    pub fn may_start(&self, first: PageNo) -> bool
        ensures { result ≡ may_be_made self.now first.0 }
    {
        if self.too_large.contains(&first.0) {
            return false;
        }
        match place_of(&self.tables, first.0) {
            None => true,
            Some(_) => false,
        }
    }

    /// A directory for a table of so many records, to be filled and then kept. None where those are
    /// too many; then this is known of the table from now on.
    ///
    /// # Errors
    ///
    /// `Memory` only.
    pub fn start(
        &mut self,
        alloc: Global,
        first: PageNo,
        rows: usize,
    ) -> Result<Option<Directory>, Memory>
        ensures same { self.new.dirs ≡ self.old.dirs }
        ensures marks { MarksFor (self.old.most < rows) self.old self.new first.0 }
        ensures started { IfOk result (λ started. MatchOption started (self.old.most < rows)
            (λ dir. IsStarted first.0 rows dir × (rows ≤ self.old.most))) }
    {
        if rows > self.most {
            let _marked = self.too_large.push(first.0);
            return Ok(None);
        }
        let started = Directory::new(alloc, first, rows)?;
        Ok(Some(started))
    }

    /// Keeps the directory of a table in place of the one that it had. Where there are too many
    /// notes with it, this table has none, and this is known of it from now on. Else it has none for
    /// want of memory; and that which was kept first is gone, where there is no place for one more.
    pub fn keep(&mut self, dir: Directory)
        ensures keeps { KeepsOrDrops (by_table self.old.dirs) (by_table self.new.dirs) dir.first
            (under dir) }
        ensures places { Places self.old self.new dir }
        ensures marks { MarksFor (IsTooLarge self.old dir) self.old self.new dir.first }
    {
        let first = dir.first().0;
        drop_from(&mut self.tables, first);
        if notes_of(&self.tables) + dir.notes() > self.most {
            let _marked = self.too_large.push(first);
            return;
        }
        make_place(&mut self.tables);
        let _kept = self.tables.push(dir);
    }

    /// Where the row of a table in the catalog was last found, if that is remembered. It may be there no more: who takes
    /// the place looks there.
    pub fn row_of_table(&self, first: PageNo) -> Option<RecId> {
        self.rows.get(first.0)
    }

    /// Remembers where the row of a table in the catalog was found, if there is memory for it.
    pub fn remember_row(&mut self, first: PageNo, rec: RecId)
        ensures { self.new ≡ self.old }
    {
        self.rows.put(first.0, rec);
    }

    /// Drops the directory of a table, if it has one.
    pub fn drop_table(&mut self, first: PageNo)
        ensures drops { Drops (by_table self.old.dirs) (by_table self.new.dirs) first.0 }
        ensures rest { self.new ≡ record self.old { dirs = self.new.dirs } }
    {
        drop_from(&mut self.tables, first.0);
    }

    /// Drops all directories.
    pub fn drop_all(&mut self)
        ensures { self.new ≡ record self.old { dirs = [] } }
    {
        self.tables.clear();
    }
}

/// The place of a table's directory.
fn place_of(tables: &Vec<Directory>, first: u32) -> Option<usize>
    ensures some { IfSome result (IsPlaceOf tables.now.items first) }
    ensures none { IfNone result (IsNowhere tables.now.items first) }
{
    for place in 0..tables.len() {
        if tables[place].is_of(first) {
            return Some(place);
        }
    }
    None
}

/// Drops the directory of a table.
fn drop_from(tables: &mut Vec<Directory>, first: u32)
    ensures { tables.new.items ≡ without first tables.old.items }
{
    tables.retain(|dir| !dir.is_of(first));
}

/// Drops the directory that was kept first, if there is no place for one more.
fn make_place(tables: &mut Vec<Directory>)
    requires { length tables.old.items ≤ MOST_TABLES }
    ensures { LeavesPlace tables.old.items tables.new.items }
{
    if tables.len() < MOST_TABLES {
        return;
    }
    let oldest = tables[0].first().0;
    drop_from(tables, oldest);
}

/// Notes a record of a table, or drops the table's directory.
fn note_in(tables: &mut Vec<Directory>, first: u32, bytes: &[u8], rec: RecId)
    ensures { LeavesNoted tables.old.items tables.new.items first bytes.now rec }
{
    let Some(place) = place_of(tables, first) else {
        return;
    };
    match tables[place].note(bytes, rec) {
        Ok(()) => {}
        Err(_) => drop_from(tables, first),
    }
}

/// How many notes there are in all.
fn notes_of(tables: &[Directory]) -> usize
    requires { notes_in tables.now ≤ MOST_NOTED + 1 }
    ensures { result ≡ notes_in tables.now }
{
    let mut total = 0;
    let mut rest = tables;
    while let Some((dir, later)) = rest.split_first() {
        total += dir.notes();
        rest = later;
    }
    total
}
