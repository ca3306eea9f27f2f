//! The law of reports, a function with an empty body whose contract is the law.

ghost use Rattle.batch_report.specs.Laws.{HasOneReading};

/// Two lists of lines with the same report are the same lines.
pub fn a_report_has_one_reading()
    ensures { HasOneReading }
{}
