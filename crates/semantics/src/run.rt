//! What is proved of runs.
ghost use Rattle.semantics.specs.Agreement.{GrantsAddUp, RunAgrees, RunAtRestStays};
ghost use Rattle.semantics.specs.Rest.{ComesToRest};

/// The run of a term on its inputs with a grant of units stands exactly as the evaluation rules and the halting say:
/// ended or failed with an outcome of the rules and its count, where that is granted and has room; halted where a step
/// has no room before; running otherwise. For every domain and all limits.
pub fn run_agrees()
    ensures { RunAgrees }
{}

/// A grant in two parts is one grant.
pub fn grants_add_up()
    ensures { GrantsAddUp }
{}

/// A further grant changes nothing of a run that is at rest.
pub fn run_at_rest_stays()
    ensures { RunAtRestStays }
{}

/// Every run of a term of at most 512 records, on any inputs and with at most as many store cells as there are, comes to
/// rest within 873,300 units: it has ended, failed or halted.
pub fn comes_to_rest()
    ensures { ComesToRest }
{}
