//! The names in a path.
ghost use Rattle.std.specs.Prelude.{◌≡◌};
ghost use Rattle.std.specs.Option.{option_copied};
ghost use Rattle.cal_model.specs.Sight.Scenes.{user_in, calendar_in};
ghost use Rattle.request_checks.specs.Sightings as sightings;

use cal_model::Path;

/// The name of a user.
pub(crate) fn user_name(path: &Path) -> Option<&[u8]>
    ensures { option_copied result ≡ user_in path.now }
{
    match path {
        Path::Root => None,
        Path::Principal(user) | Path::Home(user) => Some(user.as_slice()),
        Path::Calendar(user, _) | Path::Object(user, _, _) => Some(user.as_slice()),
    }
}

/// The name of a calendar.
pub(crate) fn calendar_name(path: &Path) -> Option<&[u8]>
    ensures { option_copied result ≡ calendar_in path.now }
{
    match path {
        Path::Root | Path::Principal(_) | Path::Home(_) => None,
        Path::Calendar(_, calendar) | Path::Object(_, calendar, _) => Some(calendar.as_slice()),
    }
}

/// Whether a home plays a part.
pub(crate) fn names_home(path: &Path) -> bool
    ensures { result ≡ sightings.names_home path.now }
{
    !matches!(path, Path::Root | Path::Principal(_))
}
