//! What a transaction has to take back.

ghost use Rattle.std.specs.Prelude.{◌≡◌, ◌&&◌, [], false, true, Some, is_some, IfOk, OnOk, OnErr};
ghost use Rattle.mg_undo.specs.Undo.{TellsTable, after_keep, after_retract, after_point, after_back_to, has_point, take_back as taken_back, given_as, state_of};

use crate::changes::{Changes, Was};
use crate::points::{
    Standing, copy_points, drop_to_goal, end_mark, floor_at, floor_of_goal, floor_to, go_to_goal,
    has_goal,
};
use mg_base::Memory;
use mg_value::{Key, Name};
use std::alloc::Global;
use std::collections::VecDeque;
use std::marker::Model;

/// What a transaction has to take back: its changes with what was before, and the points that stand.
#[derive(Debug, Drop)]
pub struct Undo {
    changes: Changes,
    /// The newest first.
    points: VecDeque<Standing>,
    /// A savepoint was named to which the changes are taken back.
    going_back: bool,
}

impl Model for Undo {
    ghost use Rattle.std.specs.Prelude.{length};
    ghost use Rattle.mg_undo.specs.Undo.{State, AreWithin};

    ghost Value = { State };

    ghost view = { λ undo. record {
      changes = undo.changes;
      points = undo.points.items;
      going_back = undo.going_back;
    } };

    ghost invariant = { λ undo. AreWithin (length undo.changes) undo.points.items };
}

impl Undo {
    /// No change is kept, and no point stands. It takes no memory.
    pub fn new(alloc: Global) -> Undo
        ensures { result ≡ record { changes = []; points = []; going_back = false } }
    {
        Undo {
            changes: Changes::new(alloc),
            points: VecDeque::new(alloc),
            going_back: false,
        }
    }

    /// An equal one, from which changes are taken back while this one stays as it is.
    ///
    /// # Errors
    ///
    /// `Memory` only.
    pub fn copy(&self, alloc: Global) -> Result<Undo, Memory>
        ensures { IfOk result (λ copy. copy ≡ self.now) }
    {
        let changes = self.changes.copy(alloc)?;
        let points = copy_points(&self.points, alloc)?;
        Ok(Undo {
            changes,
            points,
            going_back: self.going_back,
        })
    }

    /// Keeps a change of a key, with what the transaction's own change of it was before.
    ///
    /// `table` is the number of the table's first pointer page.
    ///
    /// # Errors
    ///
    /// `Memory` only. Then nothing has changed.
    pub fn keep(&mut self, table: u32, key: &Key, old: Was) -> Result<(), Memory>
        ensures ok { OnOk result (self.new ≡ after_keep self.old table key.now old) }
        ensures err { OnErr result (self.new ≡ self.old) }
    {
        self.changes.push(table, key, old)?;
        self.going_back = false;
        Ok(())
    }

    /// Takes the last `keep` back, of which the change was not made after all: drops the newest
    /// change, where one was kept since the newest point. Else nothing changes. It takes no memory.
    pub fn retract(&mut self)
        ensures after { self.new ≡ after_retract self.old }
    {
        self.changes
            .drop_newest(floor_at(&self.points).unwrap_or(0));
    }

    /// Sets a point at the changes that are kept now.
    fn set_point(&mut self, name: Option<Name>) -> Result<(), Memory>
        ensures ok { OnOk result (self.new ≡ after_point self.old name) }
        ensures err { OnErr result (self.new ≡ self.old) }
    {
        let at = self.changes.len();
        self.points.push_front(Standing { name, at })?;
        self.going_back = false;
        Ok(())
    }

    /// Sets a mark, to which one statement is taken back.
    ///
    /// # Errors
    ///
    /// `Memory` only. Then nothing has changed.
    pub fn mark(&mut self) -> Result<(), Memory>
        ensures ok { OnOk result (self.new ≡ after_point self.old None) }
        ensures err { OnErr result (self.new ≡ self.old) }
    {
        self.set_point(None)
    }

    /// Sets a savepoint of this name. An earlier one of the name stays, and is found again once this
    /// one is gone.
    ///
    /// # Errors
    ///
    /// `Memory` only. Then nothing has changed.
    pub fn name(&mut self, n: &Name) -> Result<(), Memory>
        ensures ok { OnOk result (self.new ≡ after_point self.old (Some n.now)) }
        ensures err { OnErr result (self.new ≡ self.old) }
    {
        self.set_point(Some(*n))
    }

    /// Goes back to the last savepoint of this name: it stays, and later points are gone. The changes
    /// since it are then given by `take_back`. False exactly where no such savepoint stands, and then
    /// nothing has changed. It takes no memory.
    pub fn back_to(&mut self, n: &Name) -> bool
        ensures found { result ≡ has_point self.old (Some n.now) }
        ensures after { self.new ≡ after_back_to self.old n.now }
    {
        let goal = Some(*n);
        if !has_goal(&self.points, &goal) {
            return false;
        }
        drop_to_goal(&mut self.points, &goal);
        self.going_back = true;
        true
    }

    /// Tells whether one of the changes that `take_back` gives from here on is of the table that begins at
    /// a page. It looks at those since the point gone back to, and takes no memory.
    pub fn touches(&self, table: u32) -> bool
        ensures { TellsTable table self.now result }
    {
        match floor_to(&self.points, self.going_back) {
            Some(floor) => self.changes.touch(table, floor),
            None => false,
        }
    }

    /// Tells whether one of the changes that are given once this one goes back to its last savepoint of
    /// this name is of the table that begins at a page, as `touches`.
    pub fn touches_since(&self, n: &Name, table: u32) -> bool
        ensures { has_point self.now (Some n.now) ≡ true → TellsTable table (after_back_to self.now n.now) result }
    {
        match floor_of_goal(&self.points, &Some(*n)) {
            Some(floor) => self.changes.touch(table, floor),
            None => false,
        }
    }

    /// Takes back the newest change that is left since the point gone back to, and gives its table,
    /// its key, and what the transaction's own change of the key was at that point. A key that was
    /// changed several times since is given once.
    ///
    /// None where it has come to the savepoint of a `back_to`, or else to the last mark, which then
    /// ends, or where no mark stands. It takes no memory.
    pub fn take_back(&mut self) -> Option<(u32, Key, Was)>
        ensures given { result ≡ given_as (taken_back self.old).given }
        ensures after { self.new ≡ (taken_back self.old).after }
    {
        let given = take_newest(&mut self.changes, &mut self.points, self.going_back);
        self.going_back = goes_on(self.going_back, &given);
        given
    }
}

/// Takes back the newest change that is left since the point gone back to.
fn take_newest(
    changes: &mut Changes,
    points: &mut VecDeque<Standing>,
    going_back: bool,
) -> Option<(u32, Key, Was)>
    ensures given { result
        ≡ given_as (taken_back (state_of changes.old points.old.items going_back)).given }
    ensures changes { changes.new
        ≡ (taken_back (state_of changes.old points.old.items going_back)).after.changes }
    ensures points { points.new.items
        ≡ (taken_back (state_of changes.old points.old.items going_back)).after.points }
{
    let Some(floor) = go_to_goal(points, going_back) else {
        return None;
    };
    changes.drop_repeated(floor);
    if changes.len() > floor {
        return changes.pop();
    }
    end_mark(points, going_back);
    None
}

/// Tells whether a change was given on the way to a savepoint.
fn goes_on(going_back: bool, given: &Option<(u32, Key, Was)>) -> bool
    ensures { result ≡ (going_back && is_some given.now) }
{
    going_back && given.is_some()
}
