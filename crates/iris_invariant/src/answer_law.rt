//! Laws of answers of the store: they are kept, or the call for which they came is refused.

ghost use Rattle.iris_invariant.specs.Answering.{AnswersShow, BadAnswersRefuse, FailedDiscardsRefuse, FailedGetsRefuse, FailedPutsRefuse, PassingAnswersStay};

use crate::Spelled;
use iris_history::Portal;

/// What an answer to a get shows.
pub fn answers_show<P: Spelled>()
    ensures { AnswersShow P.kept P.rules P.fits }
{}

/// The call of a get that failed is refused.
pub fn failed_gets_refuse<P: Portal>()
    ensures { FailedGetsRefuse P.kept P.rules }
{}

/// The call of a get whose answer fails its check is refused.
pub fn bad_answers_refuse<P: Spelled>()
    ensures { BadAnswersRefuse P.kept P.rules P.fits }
{}

/// Bytes that pass are right, and are kept; or they make the history bad.
pub fn passing_answers_stay<P: Spelled>()
    ensures { PassingAnswersStay P.kept P.rules P.fits }
{}

/// The call of a crowded put that failed is refused.
pub fn failed_puts_refuse<P: Portal>()
    ensures { FailedPutsRefuse P.kept P.rules }
{}

/// The call of a crowded discard that failed is refused.
pub fn failed_discards_refuse<P: Portal>()
    ensures { FailedDiscardsRefuse P.kept P.rules }
{}
