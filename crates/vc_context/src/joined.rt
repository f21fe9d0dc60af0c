ghost use Rattle.std.specs.Prelude.{◌≡◌, map};
ghost use Rattle.std.specs.Option.{option_map, option_copied};
ghost use Rattle.vc_context.specs.Reading.{tape_of, cross_behind, cross, one_by, mark_by, tapes_by};

use crate::pieces::after;
use crate::tapes::{bracketed, tape};
use vc_label::TapeSet;
use vc_text::after_blanks;

/// How tapes are written one behind another.
#[derive(Clone, Copy)]
pub enum Style {
    /// With commas.
    Commas,
    /// In brackets, with crosses.
    Crosses,
}

/// The sets of one to four tapes.
#[derive(Clone, Copy)]
pub enum Tapes {
    One(TapeSet),
    Two(TapeSet, TapeSet),
    Three(TapeSet, TapeSet, TapeSet),
    Four(TapeSet, TapeSet, TapeSet, TapeSet),
}

// What stands behind a cross with a blank on each side.
fn cross(text: &[u8]) -> Option<&[u8]>
    ensures { option_copied result ≡ cross text.now }
{
    match text {
        [b' ' | b'\t', rest @ ..] => cross_behind(after_blanks(rest)),
        _ => None,
    }
}

// What stands behind a cross and a blank.
fn cross_behind(text: &[u8]) -> Option<&[u8]>
    ensures { option_copied result ≡ cross_behind text.now }
{
    match text {
        [b'x', b' ' | b'\t', rest @ ..] => Some(rest),
        _ => None,
    }
}

impl Style {
    // The tape that begins the text.
    fn tape(self, text: &[u8]) -> Option<(TapeSet, &[u8])>
        ensures { option_map (λ r. (tape_of r.0, r.1.now)) result ≡ one_by self text.now }
    {
        match self {
            Style::Commas => tape(text),
            Style::Crosses => bracketed(text),
        }
    }

    // What stands behind the mark between two tapes.
    fn mark(self, text: &[u8]) -> Option<&[u8]>
        ensures { option_copied result ≡ mark_by self text.now }
    {
        match self {
            Style::Commas => after(b",", text),
            Style::Crosses => cross(text),
        }
    }
}

impl Tapes {
    ghost use Rattle.vc_context.specs.Gathered.{sets_in};

    // The one to four tapes that begin the text.
    pub fn front(style: Style, text: &[u8]) -> Option<(Tapes, &[u8])>
        ensures { option_map (λ r. (map tape_of (sets_in r.0), r.1.now)) result ≡ tapes_by style 3 text.now }
    {
        let (a, rest) = style.tape(text)?;
        let Some(text) = style.mark(rest) else {
            return Some((Tapes::One(a), rest));
        };
        let (b, rest) = style.tape(text)?;
        let Some(text) = style.mark(rest) else {
            return Some((Tapes::Two(a, b), rest));
        };
        let (c, rest) = style.tape(text)?;
        let Some(text) = style.mark(rest) else {
            return Some((Tapes::Three(a, b, c), rest));
        };
        let (d, rest) = style.tape(text)?;
        Some((Tapes::Four(a, b, c, d), rest))
    }
}
