//! What an offerer and the taker know, and the rule of the queue.

use crossbeam_queue::protocol::{Join, Lesson, Outcome, Protocol, Split};
use crossbeam_queue::{Pass, RuledArrayQueue};
use std::collections::LinkedList;

/// What an offerer or the taker knows. No value of it is made.
pub struct Known<T> {
    /// 1 for an offerer that was not gathered yet, else 0.
    pub offers: u64,
    /// 1 for the taker, else 0.
    pub takes: u64,
    /// What it has offered, the first one first.
    pub put: LinkedList<T>,
    /// What it has taken, the first one first.
    pub got: LinkedList<T>,
    /// What each offerer had offered that was gathered.
    pub gathered: LinkedList<LinkedList<T>>,
}

/// The rule: there is one list of what was offered.
pub struct OneList;

impl<T> Protocol<T, Known<T>> for OneList {
    ghost use Rattle.mg_notices.specs.Offers.{Kept, taker};

    ghost holds = { Kept };

    ghost first = { taker };
}

/// An offerer puts a notice into the queue.
pub(crate) struct Offer;

impl<T> Outcome<T, Known<T>> for Offer {
    ghost use Rattle.mg_notices.specs.Offers.{Offers};

    ghost then = { Offers };
}

impl<T> Lesson<T, Known<T>> for Offer {
    ghost fact = { λ v items. Unit {0} };
}

/// The taker takes a notice.
pub(crate) struct Take;

impl<T> Outcome<T, Known<T>> for Take {
    ghost use Rattle.mg_notices.specs.Offers.{Takes};

    ghost then = { Takes };
}

impl<T> Lesson<T, Known<T>> for Take {
    ghost fact = { λ v items. Unit {0} };
}

/// There is an offerer more.
pub(crate) struct Add;

impl<T> Split<Known<T>> for Add {
    ghost use Rattle.mg_notices.specs.Offers.{offerer};

    ghost left = { λ v. v };

    ghost right = { λ v. offerer };
}

/// The taker gathers an offerer.
pub(crate) struct Gather;

impl<T> Join<Known<T>> for Gather {
    ghost use Rattle.mg_notices.specs.Offers.{with_gathered, gone};

    ghost both = { with_gathered };

    ghost spent = { gone };
}

/// The taker is told of all that was offered.
pub(crate) struct Settle;

impl<T> Lesson<T, Known<T>> for Settle {
    ghost use Rattle.mg_notices.specs.Offers.{Tells};

    ghost fact = { Tells };
}

/// The queue of notices.
pub type Notices<T> = RuledArrayQueue<T, Known<T>, OneList>;

/// Who offers notices.
pub type Offerer<T> = Pass<T, Known<T>>;

/// Who takes them.
pub type Taker<T> = Pass<T, Known<T>>;
