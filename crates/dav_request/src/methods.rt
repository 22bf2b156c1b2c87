//! The methods of this server, and which a path has (RFC 9110, 9; RFC 4918, 9; RFC 4791, 5.3; RFC
//! 3744, 8.1; RFC 3253, 3.6).
ghost use Rattle.std.specs.Prelude.{◌≡◌, List, ℕ, bytes_eq, find};
ghost use Rattle.std.specs.Option.{option_copied};
ghost use Rattle.cal_model.specs.declared.path.Path.TheVariants.{Home, Calendar, Object};
ghost use Rattle.cal_model.specs.Requests.Methods as spec;

use cal_model::{Method, Path};

/// All methods.
const METHODS: [Method; 10] = [
    Method::Options,
    Method::Get,
    Method::Head,
    Method::Put,
    Method::Delete,
    Method::Propfind,
    Method::Proppatch,
    Method::Report,
    Method::Mkcalendar,
    Method::Acl,
];

/// The method of a name, which compares with case.
pub(crate) fn method_of(name: &[u8]) -> Option<Method>
    ensures { result ≡ spec.method_of name.now }
{
    named_in(&METHODS, name).copied()
}

/// The first of some methods that has a name.
fn named_in<'m>(methods: &'m [Method], name: &[u8]) -> Option<&'m Method>
    ensures { option_copied result ≡ find (λ method. bytes_eq (spec.method_name method) name.now) methods.now }
{
    methods.iter().find(|method| name_of(**method) == name)
}

/// The name of a method.
fn name_of(method: Method) -> &'static [u8]
    ensures { result.now ≡ spec.method_name method }
{
    match method {
        Method::Options => b"OPTIONS",
        Method::Get => b"GET",
        Method::Head => b"HEAD",
        Method::Put => b"PUT",
        Method::Delete => b"DELETE",
        Method::Propfind => b"PROPFIND",
        Method::Proppatch => b"PROPPATCH",
        Method::Report => b"REPORT",
        Method::Mkcalendar => b"MKCALENDAR",
        Method::Acl => b"ACL",
    }
}

/// Whether a path has a method, by its shape.
pub(crate) fn has_method(path: &Path, method: Method) -> bool
    ensures { result ≡ spec.has_method path.now method }
{
    match path {
        Path::Root => is_above_calendars(method),
        Path::Principal(_) => is_above_calendars(method),
        Path::Home(_) => is_above_calendars(method),
        Path::Calendar(_, _) => is_of_calendar(method),
        Path::Object(_, _, _) => is_of_object(method),
    }
}

/// Whether the root, a principal and a home have a method.
fn is_above_calendars(method: Method) -> bool
    ensures { (user : List ℕ) → result ≡ spec.has_method (Home user) method }
{
    matches!(method, Method::Options | Method::Propfind)
}

/// Whether a calendar has a method.
fn is_of_calendar(method: Method) -> bool
    ensures { (user calendar : List ℕ) → result ≡ spec.has_method (Calendar user calendar) method }
{
    matches!(
        method,
        Method::Options
            | Method::Propfind
            | Method::Proppatch
            | Method::Report
            | Method::Mkcalendar
            | Method::Acl
            | Method::Delete
    )
}

/// Whether an object has a method.
fn is_of_object(method: Method) -> bool
    ensures { (user calendar object : List ℕ) → result ≡ spec.has_method (Object user calendar object) method }
{
    matches!(
        method,
        Method::Options
            | Method::Get
            | Method::Head
            | Method::Put
            | Method::Delete
            | Method::Propfind
    )
}
