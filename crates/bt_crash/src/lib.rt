//! What crashes during a run of disk calls may leave: definitions, and laws by which calls in succession promise of
//! their chain what each promises of its step.
#![tactic(auto)]
