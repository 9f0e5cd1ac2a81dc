//! A keeper of records that serves all lines of scripts.

ghost use Rattle.mg_transcript.specs.Shorthand.{Puts};
ghost use Rattle.mg_courses.specs.Running.{refusal_answered};
ghost use Rattle.mg_shorthand.specs.Going.{Goes, Spares};

use crate::putting::put;
use mg_base::TxNo;
use mg_courses::{Ending, Tends};
use mg_tending::{Collects, Keyed, PageWrites};
use std::alloc::Global;

/// A keeper of records on which statements run, whose changed pages can be written one by one, which collects what
/// statements come to, finds a row by its key, and puts rows. Each keeper whose pages can be written so, that collects
/// records and finds a row by its key, is one.
pub trait Serves: Tends + Keyed + Collects {
    /// Does what a put is for, in its transaction, and ends that: the table KV gets a row with the key and the value,
    /// or the row with the key becomes this one.
    fn put(&mut self, alloc: Global, t: TxNo, key: i64, value: i64) -> Ending
        ensures goes { Goes Self.meaning self.old self.new t result.over (λ o h after.
            Puts o key value h t after result.reply) }
        ensures spares { Spares Self.meaning self.old self.new t (refusal_answered result.reply) result.over };
}

impl<R: PageWrites + Keyed + Collects> Serves for R
where
    R::Place: Drop,
{
    fn put(&mut self, alloc: Global, t: TxNo, key: i64, value: i64) -> Ending {
        put(self, alloc, t, key, value)
    }
}
