// Dates, times and dateTimes moved by a duration.
#![tactic(auto)]

pub mod months; // months.rt: months added to a date or a dateTime
pub mod shifts; // shifts.rt: a dayTimeDuration added to a date, time or dateTime
