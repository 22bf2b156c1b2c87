//! Which parameters stay beside the value of a row (RFC 5545, 3.2.19 and 3.2.20).
ghost use Rattle.std.specs.Prelude.{◌≡◌, ℕ, List, [], ◌∷◌, ◌++◌, bytes_eq, filter, flat_map, map, IfOk, OnOk, Some};
ghost use Rattle.cal_base.specs.Lines.ContentLines.{every, param_of};
ghost use Rattle.cal_base.specs.Texts.Octets.{semicolon};
ghost use Rattle.cal_base.specs.Texts.Text.{raised_all};
ghost use Rattle.cal_model.specs.Selections.RowLines as spec;
ghost use Rattle.cal_base.specs.Lines.UnquotedParts.{later_pieces};
ghost use Rattle.cal_base.specs.Texts.LentTexts.{text_there};
ghost use Rattle.shown_lines.specs.Heads.{behind_semicolon};

use cal_base::{NoMemory, Octets, Param, first_unquoted_piece, is_word};
use cal_model::RowKind;

/// Whether a parameter has this name.
fn is_named(param: &Param, name: &[u8]) -> bool
    ensures { result ≡ bytes_eq param.now.name name.now }
{
    param.name.as_slice() == name
}

/// Whether the first value of a parameter is a word, without ASCII case.
fn says(param: &Param, word: &[u8]) -> bool
    ensures { result ≡ spec.param_says word.now param.now }
{
    match param.values.as_slice().first() {
        Some(value) => is_word(value.as_slice(), word),
        None => false,
    }
}

/// Whether a parameter stays beside a new value of a kind: TZID and RANGE go, and VALUE=DATE beside a
/// value that is no date.
fn stays(kind: RowKind, param: &Param) -> bool
    ensures { result ≡ spec.stays kind param.now }
{
    !is_named(param, b"TZID")
        && !is_named(param, b"RANGE")
        && !(is_named(param, b"VALUE") && says(param, b"DATE") && kind != RowKind::Date)
}

/// Puts a parameter, behind a semicolon, behind a text, if it stays.
fn put_kept(kind: RowKind, piece: &[u8], param: &Param, out: &mut Octets) -> Result<(), NoMemory>
    requires { param_of piece.now ≡ Some param.now }
    ensures { OnOk result (out.new ≡ out.old ++ flat_map behind_semicolon (filter (spec.text_stays kind) (piece.now ∷ []))) }
{
    if !stays(kind, param) {
        return Ok(());
    }
    out.push(b';')?;
    out.extend_from_slice(piece)
}

/// Puts those parameters that stay, each behind a semicolon, behind a text. They are given as they
/// are written, between semicolons, and as they are read.
pub fn put_all_kept(
    kind: RowKind,
    text: Option<&[u8]>,
    params: &[Param],
    out: &mut Octets,
) -> Result<(), NoMemory>
    requires { every (map param_of (later_pieces semicolon (text_there text))) ≡ Some params.now }
    ensures { OnOk result (out.new ≡ out.old ++ flat_map behind_semicolon (filter (spec.text_stays kind) (later_pieces semicolon (text_there text.entry)))) }
{
    let mut rest = text;
    let mut params = params;
    'params: while let Some(text) = rest {
        let (piece, behind) = first_unquoted_piece(text, b';');
        let Some((param, more)) = params.split_first() else {
            unreachable!();
        };
        put_kept(kind, piece, param, out)?;
        params = more;
        rest = behind;
    }
    Ok(())
}
