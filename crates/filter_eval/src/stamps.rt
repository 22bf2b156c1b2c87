//! Stamps by their digits alone.

ghost use Rattle.std.specs.Prelude.{◌≡◌, All, option_map};
ghost use Rattle.cal_base.specs.Lines.ComponentTrees.{first};
ghost use Rattle.cal_model.specs.Filters.DateProperties as spec;
ghost use Rattle.filter_eval.specs.Instants.{IsDated};

use cal_model::{local_of, written_value};
use cal_moment::Stamp;

/// A stamp by its local digits alone.
fn as_floating(stamp: Stamp) -> Stamp
    requires { IsDated stamp }
    ensures { result ≡ spec.as_floating stamp }
{
    Stamp::Floating(local_of(written_value(stamp)))
}

/// The first of some stamps by its local digits.
pub fn first_as_floating(stamps: &[Stamp]) -> Option<Stamp>
    requires { All IsDated stamps.now }
    ensures { result ≡ option_map spec.as_floating (first stamps.now) }
{
    match stamps {
        [stamp, ..] => Some(as_floating(*stamp)),
        [] => None,
    }
}

/// The first of some stamps.
pub fn first_of(stamps: &[Stamp]) -> Option<Stamp>
    ensures { result ≡ first stamps.now }
{
    match stamps {
        [stamp, ..] => Some(*stamp),
        [] => None,
    }
}
