//! The lines that open and close components (RFC 5545, 3.4).
ghost use Rattle.std.specs.Prelude.{◌≡◌};
ghost use Rattle.cal_base.specs.Lines.ComponentTrees.{is_begin, is_end};

use cal_base::Line;

/// Whether a line opens a component.
pub fn is_begin(line: &Line) -> bool
    ensures { result ≡ is_begin line.now }
{
    line.name.as_slice() == b"BEGIN".as_slice()
}

/// Whether a line closes a component.
pub fn is_end(line: &Line) -> bool
    ensures { result ≡ is_end line.now }
{
    line.name.as_slice() == b"END".as_slice()
}
