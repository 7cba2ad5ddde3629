//! What is proved of showing.
ghost use Rattle.semantics.specs.Faithful.{EveryStateShowsFaithfully, EveryStopShowsFaithfully};
ghost use Rattle.semantics.specs.PartialReading.{EveryStopIsReadable, ReadsAsShown};

/// After any number of steps the shown term has an outcome with no inputs exactly when the formula has one on its
/// inputs, and both are the same.
pub fn every_state_shows_faithfully()
    ensures { EveryStateShowsFaithfully }
{}

/// So it has wherever a run stops: running, ended, faulted or halted.
pub fn every_stop_shows_faithfully()
    ensures { EveryStopShowsFaithfully }
{}

/// Where code can be read, a frame's or code that is given, it reads as showing reads it, and a state as it shows.
pub fn reads_as_shown()
    ensures { ReadsAsShown }
{}

/// Wherever a run stops, all code that showing it reads can be read.
pub fn every_stop_is_readable()
    ensures { EveryStopIsReadable }
{}
