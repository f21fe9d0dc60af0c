ghost use Rattle.std.specs.Prelude.{◌≡◌};
ghost use Rattle.std.specs.Option.{option_copied};
ghost use Rattle.vc_context.specs.Reading.{after};

use vc_text::after_blanks;

// What stands after blanks and this piece.
pub fn after<'t>(piece: &[u8], text: &'t [u8]) -> Option<&'t [u8]>
    ensures { option_copied result ≡ after piece.now text.now }
{
    after_blanks(text).strip_prefix(piece)
}
