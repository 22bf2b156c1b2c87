//! Who looks at a state, and who says what its resources' properties are.
ghost use Rattle.std.specs.Prelude.{◌≡◌, ◌<◌, ◌++◌, ℕ, false, List, length, Option, IfOk, OnOk, OnErr};
ghost use Rattle.cal_model.specs.Access.Privileges.{same_name};
ghost use Rattle.cal_model.specs.Properties.PropertyReplies.{property_element};
ghost use Rattle.cal_model.specs.Serving.SeenResources.{seen_answer, calendar_data};

use crate::path::Path;
use crate::property::PropName;
use crate::view::View;
use cal_base::{NoMemory, Octets};
use std::alloc::Global;

/// A state as one user looks at it: hidden calendars are in the view, and who walks it passes over
/// them.
pub struct Seen<'a, V: View> {
    pub view: &'a V,
    /// The number of the user.
    pub who: u32,
}

/// What says of a property whether a user sees it and what it is (RFC 4918, 4 and 9.1). Reports ask
/// it; calendar-data, which a report's own question decides, is not asked of it.
pub trait PropAnswers {
    /// Appends the element of a property of the resource at a path, as it stands in a reply of
    /// status 207, and gives the property's status: 200, 403 where the user may not see it, or 404
    /// where it, or the resource, is not there. At another status than 200 the element is empty. So
    /// a reply is written once, into one buffer: what is not wanted at this place of it is cut off
    /// again. Without memory nothing is appended.
    fn answer<V: View>(
        &self,
        alloc: Global,
        seen: &Seen<'_, V>,
        path: &Path,
        name: &PropName,
        out: &mut Octets,
    ) -> Result<u16, NoMemory>
        requires user { seen.now.who < length (V.directory seen.now.view.now).names }
        requires not_data { same_name name.now calendar_data ≡ false }
        ensures status { IfOk result (λ status. (shown : Option (List ℕ → List ℕ)) → status ≡ (seen_answer (V.directory seen.now.view.now) (V.state seen.now.view.now) seen.now.who shown path.now name.now).status) }
        ensures element { OnOk result ((shown : Option (List ℕ → List ℕ)) → out.new ≡ out.old ++ property_element (seen_answer (V.directory seen.now.view.now) (V.state seen.now.view.now) seen.now.who shown path.now name.now)) }
        ensures err { OnErr result (out.new ≡ out.old) };
}
