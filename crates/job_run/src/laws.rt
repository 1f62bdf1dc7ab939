//! The headline of `master_state`, of what is written.
ghost use Rattle.job_run.specs.Headlines.{ReportsHaveHeadline, RunsHaveHeadline};

/// The job of a report, and that of a run, is one of which the headline holds: each of its waves is best in
/// the state that it changed, as prices certify, and where it is done, its index is that of one sequential
/// execution.
pub fn all_jobs_have_the_headline()
    ensures reports { ReportsHaveHeadline }
    ensures runs { RunsHaveHeadline }
{}
