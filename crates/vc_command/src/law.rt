ghost use Rattle.std.specs.Prelude.{◌≡◌, List, Some};
ghost use Rattle.vc_command.specs.Lines.{Line, Text, line_of};
ghost use Rattle.vc_command.specs.Requests.{Asked, HasLimit, request_of};
ghost use Rattle.vc_command.specs.Spelling.{SpellsLine};

/// Words have a line exactly where they spell it, part by part: so they spell one line at most.
pub fn lines_are_spelled()
    ensures sound { (words : List Text) (line : Line) → line_of words ≡ Some line → SpellsLine line words }
    ensures complete { (words : List Text) (line : Line) → SpellsLine line words → line_of words ≡ Some line }
{}

/// The limit of each request is from 1 to 1,000,000, where its command names one.
pub fn limits_are_in_range()
    ensures { (words : List Text) (request : Asked) → request_of words ≡ Some request → HasLimit request }
{}
