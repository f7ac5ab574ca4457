//! Answers of the resolution of instances that are known from elsewhere, as laws by computation.
#![tactic(auto)]

ghost use Rattle.lf_resolution_answers.specs.Instances.{InstanceAnswers};

/// Which instance is found, in which order candidates are tried, what it costs and what it waits for.
pub fn instance_answers()
    ensures { InstanceAnswers }
{}
