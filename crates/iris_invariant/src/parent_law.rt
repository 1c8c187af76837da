//! Laws of parents and of evidence.

ghost use Rattle.iris_invariant.specs.ParentLaws.{EvidenceStays, ParentsStay};

use iris_history::Portal;

/// The parent of a node that is being fetched stays resident.
pub fn parents_stay<P: Portal>()
    ensures { ParentsStay P.kept }
{}

/// What is kept goes on resting on a right get of its caller.
pub fn evidence_stays<P: Portal>()
    ensures { EvidenceStays P.kept }
{}
