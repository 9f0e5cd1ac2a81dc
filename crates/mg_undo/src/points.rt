//! The marks and savepoints of a transaction.

ghost use Rattle.std.specs.Prelude.{◌≡◌, IfNone, IfOk, IfSome, drop, if◌then◌else◌};
ghost use Rattle.std.specs.List.{list_any};
ghost use Rattle.mg_model.specs.Changes.{same_name};
ghost use Rattle.mg_undo.specs.Undo.{is_goal as goal_test, from_goal, goal_of, floor_of};

use mg_base::Memory;
use mg_value::Name;
use std::alloc::Global;
use std::collections::VecDeque;

/// A point that stands.
#[derive(Clone, Copy, Debug)]
pub struct Standing {
    /// The name of a savepoint, none of a mark.
    pub name: Option<Name>,
    /// How many changes had been kept when it was set.
    pub at: usize,
}

/// Tells whether two names are the same.
fn is_same_name(a: &Name, b: &Name) -> bool
    ensures { result ≡ same_name a.now b.now }
{
    a.as_slice() == b.as_slice()
}

impl Standing {
    /// Tells whether it is a savepoint of this name, or a mark where no name is given.
    pub(crate) fn is_goal(&self, name: &Option<Name>) -> bool
        ensures { result ≡ goal_test name.now self.now }
    {
        match &self.name {
            None => name.is_none(),
            Some(own) => match name {
                None => false,
                Some(name) => is_same_name(name, own),
            },
        }
    }
}

/// Tells whether a savepoint of this name stands, or a mark where no name is given.
pub(crate) fn has_goal(points: &VecDeque<Standing>, name: &Option<Name>) -> bool
    ensures { result ≡ list_any (goal_test name.now) points.now.items }
{
    for i in 0..points.len() {
        if points[i].is_goal(name) {
            return true;
        }
    }
    false
}

/// Equal points.
///
/// # Errors
///
/// `Memory` only.
pub(crate) fn copy_points(
    points: &VecDeque<Standing>,
    alloc: Global,
) -> Result<VecDeque<Standing>, Memory>
    ensures { IfOk result (λ copy. copy.items ≡ points.now.items) }
{
    let mut copy = VecDeque::new(alloc);
    let mut left = points.len();
    while left > 0 {
        left -= 1;
        let Standing { name, at } = &points[left];
        copy.push_front(Standing {
            name: *name,
            at: *at,
        })?;
    }
    Ok(copy)
}

/// Drops the points that were set after the last savepoint of this name, or after the last mark
/// where no name is given; all, where there is none.
pub(crate) fn drop_to_goal(points: &mut VecDeque<Standing>, name: &Option<Name>)
    ensures { points.new.items ≡ from_goal name.now points.old.items }
{
    while let Some(point) = points.front() {
        if point.is_goal(name) {
            return;
        }
        points.pop_front();
    }
}

/// How many changes had been kept when the newest point was set.
pub(crate) fn floor_at(points: &VecDeque<Standing>) -> Option<usize>
    ensures { result ≡ floor_of points.now.items }
{
    match points.front() {
        Some(point) => Some(point.at),
        None => None,
    }
}

/// How many changes had been kept when the last savepoint of this name was set, or the last mark where
/// no name is given. None where there is none.
pub(crate) fn floor_of_goal(points: &VecDeque<Standing>, name: &Option<Name>) -> Option<usize>
    ensures { result ≡ floor_of (from_goal name.now points.now.items) }
{
    for i in 0..points.len() {
        if points[i].is_goal(name) {
            return Some(points[i].at);
        }
    }
    None
}

/// How many changes had been kept when the point gone back to was set: the first point where a
/// savepoint was named, else the last mark. None where there is none.
pub(crate) fn floor_to(points: &VecDeque<Standing>, going_back: bool) -> Option<usize>
    ensures { result ≡ floor_of (goal_of going_back points.now.items) }
{
    if going_back {
        return floor_at(points);
    }
    floor_of_goal(points, &None)
}

/// Drops the points that were set after the one gone back to, and gives how many changes had been
/// kept when that was set: the first point where a savepoint was named, else the last mark. None
/// where there is none, and then nothing has changed.
pub(crate) fn go_to_goal(points: &mut VecDeque<Standing>, going_back: bool) -> Option<usize>
    ensures at { result ≡ floor_of (goal_of going_back points.old.items) }
    ensures none { IfNone result (points.new.items ≡ points.old.items) }
    ensures some { IfSome result (λ at. points.new.items ≡ goal_of going_back points.old.items) }
{
    if going_back {
        return floor_at(points);
    }
    if !has_goal(points, &None) {
        return None;
    }
    drop_to_goal(points, &None);
    floor_at(points)
}

/// It has come to the newest point: a mark ends, and a savepoint that was named stays.
pub(crate) fn end_mark(points: &mut VecDeque<Standing>, going_back: bool)
    ensures { points.new.items
        ≡ (if going_back then points.old.items else drop 1 points.old.items) }
{
    if !going_back {
        points.pop_front();
    }
}
