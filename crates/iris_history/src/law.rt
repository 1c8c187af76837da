//! Laws of histories.

ghost use Rattle.iris_history.specs.Laws.{BadStays, LegalBefore, BadOnLegal, RefusedLeaves, LastPutIsTrue, CleanIsStored};

use crate::Portal;

/// A bad history stays bad when it grows.
pub fn bad_stays<P: Portal>()
    ensures { BadStays P.kept P.rules }
{}

/// The beginnings of a legal history are legal.
pub fn legal_before<P: Portal>()
    ensures { LegalBefore P.kept P.rules }
{}

/// A history is bad only by a forgery or a collision that stands on a legal one.
pub fn bad_on_legal<P: Portal>()
    ensures { BadOnLegal P.kept P.rules }
{}

/// The table after a refusal or a plain error is the table before.
pub fn refused_leaves<P: Portal>()
    ensures { RefusedLeaves P.kept }
{}

/// In a legal history the last put of a name carries the record of what the name stood for when the put began.
pub fn last_put_is_true<P: Portal>()
    ensures { LastPutIsTrue P.kept P.rules }
{}

/// In a legal history the last put of a clean name carries the record of what the name stands for now.
pub fn clean_is_stored<P: Portal>()
    ensures { CleanIsStored P.kept P.rules }
{}
