//! Lines of which a part is shown (RFC 4791, 9.6.4).
ghost use Rattle.std.specs.Prelude.{◌≡◌, ◌∷◌, ◌++◌, ℕ, List, [], OnOk};
ghost use Rattle.cal_base.specs.declared.line.Line.{Line};
ghost use Rattle.cal_base.specs.Lines.LineGrammar.{IsReadLine};
ghost use Rattle.cal_base.specs.Texts.Octets.{colon};
ghost use Rattle.cal_model.specs.Selections.Picks.{header};
ghost use Rattle.shown_lines.specs.Heads.{IsClean, IsHead};
ghost use Rattle.shown_lines.specs.Portions.{written_portion};

use cal_base::{Line, NoMemory, Octets};
use ical_lines::write_line;

/// How much is shown of a line.
#[derive(Clone, Copy, PartialEq, Eq)]
pub enum Portion {
    /// Nothing of it.
    Nothing,
    /// Its text up to the colon, with the colon.
    Header,
    /// All of it.
    Whole,
}

/// The text of a line up to its colon, with the colon.
pub(crate) fn header(line: &Line) -> &[u8]
    ensures { result.now ≡ header line.now }
{
    let raw = line.raw.as_slice();
    &raw[..raw.len().saturating_sub(line.value.len())]
}

/// Writes what is shown of a line that was read. Without memory perhaps nothing is written.
pub fn write_portion(line: &Line, portion: Portion, out: &mut Octets) -> Result<(), NoMemory>
    requires { IsReadLine line.now }
    ensures { OnOk result (out.new ≡ out.old ++ written_portion portion line.now) }
{
    match portion {
        Portion::Nothing => Ok(()),
        Portion::Header => write_line(header(line), out),
        Portion::Whole => write_line(line.raw.as_slice(), out),
    }
}

/// Writes what is shown of a line that has this text up to its colon, with the colon, and this value.
pub(crate) fn write_made(
    mut raw: Octets,
    value: &[u8],
    portion: Portion,
    out: &mut Octets,
) -> Result<(), NoMemory>
    requires header { (head : List ℕ) × (raw ≡ head ++ colon ∷ []) × IsHead head }
    requires value { IsClean value.now }
    ensures { (line : Line) → line.raw ≡ raw ++ value.now → line.value ≡ value.now → OnOk result (out.new ≡ out.old ++ written_portion portion line) }
{
    match portion {
        Portion::Nothing => Ok(()),
        Portion::Header => write_line(raw.as_slice(), out),
        Portion::Whole => {
            raw.extend_from_slice(value)?;
            write_line(raw.as_slice(), out)
        }
    }
}
