//! The rule of the lock's table, what each step tells, and how views are cut and joined.

use crate::stands_for::StandsFor;
use crate::view::View;
use atomic_table::{Join, Play, Seat, Split, TableRule};
use std::marker::PhantomData;
use std::snapshot::Snapshot;

/// A seat of the table of a lock.
pub(crate) type Place<T> = Seat<
    Option<T>,
    View<<T as StandsFor>::Subject, <T as StandsFor>::Entry>,
>;

/// The rule.
pub struct Law<T> {
    of: PhantomData<T>,
}

impl<T: StandsFor> TableRule<Option<T>, View<T::Subject, T::Entry>, Snapshot<T>> for Law<T> {
    ghost use Rattle.sl_turn.specs.Rule.{Kept};
    ghost use Rattle.sl_turn.specs.View.{first_view};

    ghost holds = { λ origin. Kept T.subject T.history T.caller T.legal (T.subject origin.value) };

    ghost first = { λ origin. first_view (T.subject origin.value) };
}

/// A seat draws a ticket.
pub(crate) struct Draw;

impl<T, S, E> Play<Option<T>, View<S, E>> for Draw {
    ghost use Rattle.sl_turn.specs.Plays.{Draws};

    ghost then = { Draws };
}

/// A seat without a ticket loads the serving number.
pub(crate) struct Look<T> {
    of: PhantomData<T>,
}

impl<T: StandsFor> Play<Option<T>, View<T::Subject, T::Entry>> for Look<T> {
    ghost use Rattle.sl_turn.specs.Plays.{Looks};

    ghost then = { Looks T.caller T.legal };
}

/// A seat with a ticket loads the serving number, and takes the slot where the two are the same.
pub(crate) struct Enter<T> {
    of: PhantomData<T>,
}

impl<T: StandsFor> Play<Option<T>, View<T::Subject, T::Entry>> for Enter<T> {
    ghost use Rattle.sl_turn.specs.Plays.{Enters};

    ghost then = { Enters T.subject T.history T.caller T.legal };
}

/// A seat raises the serving number, and gives the slot back.
pub(crate) struct Raise<T> {
    of: PhantomData<T>,
}

impl<T: StandsFor> Play<Option<T>, View<T::Subject, T::Entry>> for Raise<T> {
    ghost use Rattle.sl_turn.specs.Plays.{GivesBack};

    ghost then = { GivesBack T.history };
}

/// A seat gives out its next number.
pub(crate) struct Cut;

impl<S, E> Split<View<S, E>> for Cut {
    ghost use Rattle.sl_turn.specs.View.{splitting, split_off};

    ghost left = { splitting };

    ghost right = { split_off };
}

/// A seat takes in what another knows.
pub(crate) struct Glue;

impl<S, E> Join<View<S, E>> for Glue {
    ghost use Rattle.sl_turn.specs.View.{joining, spent};

    ghost both = { joining };

    ghost spent = { spent };
}
