//! Writing a logical line as folded physical lines.
ghost use Rattle.std.specs.Prelude.{◌≡◌, ℕ, ◌+◌, ◌<◌, ◌≤◌, ◌++◌, ◌∷◌, ◌↔◌, List, [], Ok, OnOk, OnErr, IsTrue, length, take, drop};
ghost use Rattle.std.specs.Str.{is_utf8, chars};
ghost use Rattle.cal_base.specs.declared.line.Line.{Line};
ghost use Rattle.cal_base.specs.Lines.ContentLines.{read_lines};
ghost use Rattle.cal_base.specs.Lines.LineGrammar.{IsLineText, IsReadLine, EndsLine};
ghost use Rattle.cal_base.specs.Texts.Octets.{line_feed, carriage_return, space};
ghost use Rattle.cal_base.specs.Lines.WrittenLines.{folded, written};

use cal_base::{NoMemory, Octets};

/// How many octets a physical line has at most, without its end.
const LINE_OCTETS: usize = 75;

/// Appends a logical line, folded to physical lines of at most 75 octets without their ends, never
/// within a character, each with CRLF behind it (RFC 5545, 3.1).
///
/// The text must be one line of the grammar, without a line end. Without memory nothing is appended.
pub fn write_line(raw: &[u8], out: &mut Octets) -> Result<(), NoMemory>
    requires { IsLineText raw.now }
    ensures ok { OnOk result (out.new ≡ out.old ++ written raw.now) }
    ensures err { OnErr result (out.new ≡ out.old) }
    ensures ends { OnOk result (EndsLine out.new) }
    ensures read_back { OnOk result ((before : List Line) (line : Line) → EndsLine out.old → read_lines out.old ≡ Ok before → line.raw ≡ raw.now → IsReadLine line → read_lines out.new ≡ Ok (before ++ line ∷ [])) }
{
    let before = out.len();
    match append_folded(raw, out) {
        Ok(()) => Ok(()),
        Err(NoMemory) => {
            out.truncate(before);
            Err(NoMemory)
        }
    }
}

/// Appends a text folded; without memory perhaps a part of it.
fn append_folded(raw: &[u8], out: &mut Octets) -> Result<(), NoMemory>
    requires { IsTrue (is_utf8 raw.now) }
    ensures ok { OnOk result (out.new ≡ out.old ++ written raw.now) }
    ensures front { take (length out.old) out.new ≡ out.old }
{
    let mut rest = raw;
    let mut room = LINE_OCTETS;
    'folds: while room < rest.len() {
        let cut = fold_place(rest, room);
        out.extend_from_slice(&rest[..cut])?;
        out.extend_from_slice(b"\r\n ")?;
        rest = &rest[cut..];
        room = LINE_OCTETS - 1;
    }
    out.extend_from_slice(rest)?;
    out.extend_from_slice(b"\r\n")
}

/// Where a text that is too long for the room is folded: behind the last character that fits.
fn fold_place(text: &[u8], room: usize) -> usize
    requires utf8 { IsTrue (is_utf8 text.now) }
    requires long { room < length text.now }
    requires wide { 4 ≤ room }
    ensures some { 0 < result }
    ensures fits { result ≤ room }
    ensures rest_is_utf8 { IsTrue (is_utf8 (drop result text.now)) }
    ensures folds { folded room (chars text.now) ≡ take result text.now ++ (carriage_return ∷ line_feed ∷ space ∷ folded 74 (chars (drop result text.now))) }
{
    let mut place = room;
    'back: while is_inside_character(text[place]) {
        place -= 1;
    }
    place
}

/// Whether an octet is one of a UTF-8 character other than its first.
fn is_inside_character(octet: u8) -> bool
    ensures { IsTrue result ↔ ((128 ≤ octet) × (octet < 192)) }
{
    128 <= octet && octet < 192
}
