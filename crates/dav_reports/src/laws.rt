//! What holds of the cost of reports.
ghost use Rattle.dav_reports.specs.HeldWindows.{HeldReportsAreFree};

/// A report adds no step once the rows of each window that it needs are held: what it costs at most is then 0.
pub fn held_reports_are_free()
    ensures { HeldReportsAreFree }
{}
