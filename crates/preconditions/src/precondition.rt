//! The preconditions by their names.
ghost use Rattle.std.specs.Prelude.{◌≡◌, ◌++◌, codes, IfOk};
ghost use Rattle.cal_model.specs.Bodies.Refusals.{caldav_refusal};
ghost use Rattle.preconditions.specs.Checks.{name_of, refusal_of};

use cal_base::{NoMemory, Octets};
use cal_model::{Cond, Refusal};
use std::alloc::Global;

/// What a PUT must meet, in the order in which it is looked at (RFC 4791, 5.3.2.1). Each is named as
/// its element is.
#[derive(Clone, Copy, PartialEq, Eq)]
pub enum Precondition {
    SupportedCalendarData,
    MaxResourceSize,
    ValidCalendarData,
    ValidCalendarObjectResource,
    SupportedCalendarComponent,
    MinDateTime,
    MaxDateTime,
    MaxInstances,
}

impl Precondition {
    /// Its element, as it is written.
    fn element(self) -> &'static [u8]
        ensures { result.now ≡ codes "<C:" ++ (name_of self ++ codes "/>") }
    {
        match self {
            Precondition::SupportedCalendarData => b"<C:supported-calendar-data/>",
            Precondition::MaxResourceSize => b"<C:max-resource-size/>",
            Precondition::ValidCalendarData => b"<C:valid-calendar-data/>",
            Precondition::ValidCalendarObjectResource => b"<C:valid-calendar-object-resource/>",
            Precondition::SupportedCalendarComponent => b"<C:supported-calendar-component/>",
            Precondition::MinDateTime => b"<C:min-date-time/>",
            Precondition::MaxDateTime => b"<C:max-date-time/>",
            Precondition::MaxInstances => b"<C:max-instances/>",
        }
    }

    /// The refusal that names it: 403 with its element.
    pub fn refusal(self, alloc: Global) -> Result<Refusal, NoMemory>
        ensures { IfOk result (λ refusal. refusal ≡ refusal_of self) }
    {
        let element = Octets::of(alloc, self.element())?;
        Ok(Refusal {
            status: 403,
            cond: Cond::Cal(element),
        })
    }
}
