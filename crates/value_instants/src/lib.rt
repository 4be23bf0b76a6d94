// Spans of time, local times and UTC instants of records, and the record at a local time.
#![tactic(auto)]

pub mod spans; // spans.rt: spans of time, as whole seconds and a part of a second
pub mod ticks; // ticks.rt: local time and instant of a record, and the record at a local time
