// A law of workloads: the contract of a function that does nothing.
ghost use Rattle.bfs_soak.specs.WorkloadLaws.{WorkloadIsInForm};

/// Every line of a workload is in form: its session is 1 to 16, and its command keeps its ranges.
pub fn workload_is_in_form()
    ensures { WorkloadIsInForm }
{}
