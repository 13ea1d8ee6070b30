//! What holds of the bytes of an input whose lines are combined. Each law stands on a function that calls others alone.

ghost use Rattle.report_stream.specs.Accepted.{ReportsAreAnswered, ReportsAreOne};
ghost use Rattle.report_stream.specs.Shown.{FaultsAreTold};

use query_kinds::{besides_are_one, kinds_are_one, rows_are_one};

/// Bytes have one combined report at most.
pub fn reports_are_one()
    ensures { ReportsAreOne }
{
    kinds_are_one();
    besides_are_one();
    rows_are_one();
}

/// Where an input tells bytes that are accepted, what is written is their combined report, and nothing but want of memory and faults of
/// devices stops before its end.
pub fn reports_are_answered()
    ensures { ReportsAreAnswered }
{
    kinds_are_one();
    besides_are_one();
    rows_are_one();
}

/// Where right lines are followed by bytes that are refused, only that refusal stops the report, unless memory runs out or a device
/// fails.
pub fn faults_are_told()
    ensures { FaultsAreTold }
{
    kinds_are_one();
    besides_are_one();
    rows_are_one();
}
