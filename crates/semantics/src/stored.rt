//! What is proved of the machine as it is stored.
ghost use Rattle.semantics.specs.Lawful.{NumbersStayLawful, RunsHoldLawfulNumbers};
ghost use Rattle.semantics.specs.StoredAgrees.{EveryStoredStopIsReadable, StepsInLockStep, StoredGrantsAddUp, StoredRunAgrees, StoredRunAtRestStays, StoredStopsStand};

/// A step of the machine with numbers for places and references for environments stands for a step of the other, and
/// keeps its references within the store.
pub fn steps_in_lock_step()
    ensures { StepsInLockStep }
{}

/// So its runs stand exactly as the evaluation rules and the halting say.
pub fn stored_run_agrees()
    ensures { StoredRunAgrees }
{}

/// Wherever such a run stops, its state stands for the one in which the other stops, and its references are within the
/// store and fall.
pub fn stored_stops_stand()
    ensures { StoredStopsStand }
{}

/// So all code that showing it reads can be read.
pub fn every_stored_stop_is_readable()
    ensures { EveryStoredStopIsReadable }
{}

/// A grant in two parts is one grant.
pub fn stored_grants_add_up()
    ensures { StoredGrantsAddUp }
{}

/// A further grant changes nothing of a run that is at rest.
pub fn stored_run_at_rest_stays()
    ensures { StoredRunAtRestStays }
{}

/// A step keeps every number that the machine holds lawful, so the domain is asked of lawful codes alone.
pub fn numbers_stay_lawful()
    ensures { NumbersStayLawful }
{}

/// Wherever a run of a lawful term on lawful inputs stops, every number that the machine holds is lawful.
pub fn runs_hold_lawful_numbers()
    ensures { RunsHoldLawfulNumbers }
{}
