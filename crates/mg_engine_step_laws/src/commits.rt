//! The end of a commit, and what comes before it, as laws on an engine that stands for a history.
//!
//! Owns: a commit is asked for (`AskingGoesOn`); pages are written (`PageWritesGoOn`), or a page write fails
//! (`PageWritesFail`); the bits of a transaction that has no page left are changed, written and settled, and the
//! engine stands for the history with the commit (`CommitsGoOn`), or one of these page writes fails, and each
//! crash left the history with the commit or without it (`CommitsFail`). Below these stands what the bits make
//! of the pages, whatever transactions count as: a sound image stays sound with its layout and reading, and
//! says of all other transactions what it said (`specs/TipPages`); and that the list has the pages of transactions
//! as the cache shows them (`ListShows`), which goes on under a commit, under a draw, and where these pages stay.
//!
//! `specs/PageWrites` and `specs/Commits` have what counts, the other files prove it. There is no program here:
//! each function does nothing, and its contract is a law.

ghost use Rattle.mg_image.specs.Form.{packed_form};
ghost use Rattle.mg_engine_step_laws.specs.commits.Commits.{CommitsFail, CommitsGoOn};
ghost use Rattle.mg_engine_step_laws.specs.commits.ListShows.{BehindKeepsTips, DataKeepsTips, DrawsKeepList, ListsStay, TipsStayOn};
ghost use Rattle.mg_engine_step_laws.specs.commits.PageWrites.{AskingGoesOn, AsksOtherwise, PageWritesFail, PageWritesGoOn};

use crate::standings_go_on;
use mg_base::Disk;
use mg_careful::Links;
use mg_image::one_reading;
use mg_model::histories_go_on;

/// A commit is asked for, and pages are written.
pub fn page_writes_go_on<D: Disk, L: Links>()
    ensures otherwise { AsksOtherwise D L D.meaning packed_form }
    ensures asking { AskingGoesOn D L D.meaning packed_form }
    ensures writes { PageWritesGoOn D L D.meaning packed_form }
    ensures failed { PageWritesFail D L D.meaning packed_form }
{
    histories_go_on();
}

/// The pages of transactions stay where a data page is changed, where the pages before are behind those after, and
/// over two such steps.
pub fn tips_stay()
    ensures data { DataKeepsTips packed_form }
    ensures behind { BehindKeepsTips }
    ensures on { TipsStayOn }
{}

/// A list goes on to have the pages of transactions as the cache shows them, where they stay, and where a number
/// is drawn from it.
pub fn lists_go_on<D: Disk, L: Links>()
    ensures stay { ListsStay }
    ensures drawn { DrawsKeepList D L D.meaning packed_form }
{
    one_reading();
}

/// A commit takes an engine to the history with it.
pub fn commits_go_on<D: Disk, L: Links>()
    ensures { CommitsGoOn D L D.meaning packed_form }
{
    histories_go_on();
    standings_go_on();
}

/// A commit whose page writes failed leaves memory as it was, and the history with the commit or without it.
pub fn commits_fail<D: Disk, L: Links>()
    ensures { CommitsFail D L D.meaning packed_form }
{
    histories_go_on();
    standings_go_on();
}
