ghost use Rattle.std.specs.Prelude.{◌≡◌, ℕ, List, Some};
ghost use Rattle.vc_lines.specs.ContextLines.{IsContextLine};
ghost use Rattle.vc_lines.specs.Contexts.{context_in_line};

use vc_lex::tokens_follow_the_grammar;

/// The context text of a line is that of the grammar: it is read exactly where the line is a context line with this
/// text. So a line has at most one context text.
pub fn context_lines_have_one_text()
    ensures sound { (line text : List ℕ) → context_in_line line ≡ Some text → IsContextLine line text }
    ensures complete { (line text : List ℕ) → IsContextLine line text → context_in_line line ≡ Some text }
{
    tokens_follow_the_grammar();
}
