//! What stands at each part of a request's path, as its caller sees it.
ghost use Rattle.std.specs.Prelude.{◌≡◌, ◌<◌, true, length, IfSome, IsSome, IsTrue};
ghost use Rattle.cal_model.specs.Paths.TargetPaths.{is_path};
ghost use Rattle.cal_model.specs.Sight.Scenes as sight;
ghost use Rattle.cal_model.specs.Sight.Views.{view_by};
ghost use Rattle.dav_write.specs.ShortPaths.{HasShortNames};
ghost use Rattle.request_checks.specs.Scenes.{IsFoundAt, IsScene};
ghost use Rattle.request_checks.specs.Sightings.{AreShort, eyes_of, IsDataAt, IsOriginAt, IsSoundAt};

use crate::looks::Look;
use crate::sightings::{calendar_at, home_at, is_group, object_at, user_at};
use cal_base::Arc;
use cal_model::view::View;
use cal_model::{CalendarData, Path, Seen, Stored};

/// What stands at each part of a path, where it is there and visible.
#[derive(Clone, Copy)]
pub struct Scene<'a> {
    /// The number of the user who asks.
    pub who: u32,
    pub path: &'a Path,
    /// The number of the user whose name the path has.
    pub user: Option<u32>,
    /// Whether the path is that of a group's principal.
    pub group: bool,
    /// Whether the home that the path names is visible; no for the root and a principal, of which a
    /// home is no part.
    pub home: bool,
    /// The calendar, with the privileges held on it.
    pub calendar: Option<(u16, &'a CalendarData)>,
    /// The object and its origin.
    pub object: Option<(&'a Arc<Stored>, u64)>,
}

/// What a user sees at a path. Takes no memory, and about the logarithm of what there is; at the path
/// of a home, or where a calendar is hidden or not there, also a walk over the calendars of the home
/// up to the first that is visible.
pub fn scene_at<'a, V: View>(seen: &Seen<'a, V>, path: &'a Path, look: Look) -> Scene<'a>
    requires { seen.now.who < length (V.directory seen.now.view.now).names }
    ensures scene { IsScene result (sight.scene_at (V.directory seen.now.view.now) (view_by (eyes_of look) (V.directory seen.now.view.now) (V.state seen.now.view.now) seen.now.who) seen.now.who path.now) }
    ensures known { result.home ≡ true → IsSome result.user }
    ensures names { AreShort (V.directory seen.now.view.now) → IsTrue (is_path path.now) → IsFoundAt result path.now → HasShortNames path.now }
    ensures calendar { IfSome result.calendar (λ p. IsDataAt (V.state seen.now.view.now) result.user (sight.calendar_in path.now) p.1.now) }
    ensures sound { IsSoundAt result.user (sight.calendar_in path.now) (V.directory seen.now.view.now) (V.state seen.now.view.now) }
    ensures origin { IfSome result.object (λ p. IsOriginAt (V.origins seen.now.view.now) result.user path.now p.1) }
{
    let view: &'a V = seen.view;
    let who = seen.who;
    let user = user_at(view, path);
    let calendar = calendar_at(view, user, path, who);
    let home = home_at(view, user, path, &calendar, who);
    let object = object_at(view, user, path, look, &calendar, who);
    Scene {
        who,
        path,
        user,
        group: is_group(view, path),
        home,
        calendar,
        object,
    }
}
