//! Parameters of a line (RFC 5545, 3.2).
ghost use Rattle.std.specs.Prelude.{◌≡◌, bytes_eq, find};
ghost use Rattle.cal_base.specs.declared.line.Param.{Param};
ghost use Rattle.cal_base.specs.Lines.ComponentTrees.{first};
ghost use Rattle.cal_model.specs.Values.StampTexts.{param_is, param_value};
ghost use Rattle.ical_values.specs.Parts.{text_there, param_there};

use cal_base::{Line, Octets, Param, is_word};

/// The first value of a line's first parameter of a name, which is upper case; other values and
/// later parameters of the name do not count.
pub fn param_value<'a>(line: &'a Line, name: &[u8]) -> Option<&'a [u8]>
    ensures { text_there result ≡ param_value name.now line.now }
{
    match first_named(line.params.as_slice(), name) {
        Some(param) => first_value(param.values.as_slice()),
        None => None,
    }
}

/// The first parameter of a name.
fn first_named<'a>(params: &'a [Param], name: &[u8]) -> Option<&'a Param>
    ensures { param_there result ≡ find (λ (param : Param). bytes_eq param.name name.now) params.now }
{
    params.iter().find(|param| param.name.as_slice() == name)
}

/// The first of some values.
fn first_value(values: &[Octets]) -> Option<&[u8]>
    ensures { text_there result ≡ first values.now }
{
    match values.first() {
        Some(value) => Some(value.as_slice()),
        None => None,
    }
}

/// Whether that value is a word, which is upper case, without ASCII case.
pub fn param_is(line: &Line, name: &[u8], word: &[u8]) -> bool
    ensures { result ≡ param_is name.now word.now line.now }
{
    match param_value(line, name) {
        Some(value) => is_word(value, word),
        None => false,
    }
}
