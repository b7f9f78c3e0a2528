//! The law of workloads. The function does nothing: its contract is the law.

ghost use Rattle.reg_make.specs.Laws.{WorkTellsCounts};

/// The rows of a workload have its counts in every order in which they can be served: the number of its calls, of those that are
/// accepted, of the units that stay declared, and of the hits.
pub fn a_workload_has_one_line()
    ensures { WorkTellsCounts }
{}
