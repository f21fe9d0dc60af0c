ghost use Rattle.std.specs.Prelude.{◌≡◌, ◌⊎◌, ◌++◌, [], ℕ, List, length, Ok, Err};
ghost use Rattle.vc_lex.specs.Grammar.{IsTokenText, EndsBefore, IsComment};
ghost use Rattle.vc_lex.specs.Marks.{BreaksAt, HasMarks, Mark, marks_of};
ghost use Rattle.vc_lex.specs.Scans.{token_at, Follows};
ghost use Rattle.vc_lex.specs.declared.token.Mode.{Mode};
ghost use Rattle.vc_lex.specs.declared.token.TokenKind.{TokenKind};
ghost use Rattle.vc_lex.specs.declared.scan.Scan.TheVariants.{Bad, End, Found};

/// What begins a text, by the grammar of tokens.
#[tactic(auto, using(crate::proofs::Sound::follows, crate::proofs::Complete::found, crate::proofs::Complete::none_begins, crate::proofs::Complete::end_found))]
pub fn tokens_follow_the_grammar()
    ensures sound { (mode : Mode) (text : List ℕ) → Follows mode text (token_at mode text) }
    ensures found { (kind : TokenKind) (mode : Mode) (text back : List ℕ) → IsTokenText kind mode text → EndsBefore kind back
        → token_at mode (text ++ back) ≡ Found kind (length text) }
    ensures bad { (kind : TokenKind) (mode : Mode) (text back : List ℕ) → token_at mode (text ++ back) ≡ Bad
        → IsTokenText kind mode text → ⊥ }
    ensures end { (mode : Mode) (text : List ℕ) → (text ≡ []) ⊎ IsComment mode text → token_at mode text ≡ End }
{}

/// The tokens of a text are those of the grammar: a list of tokens is read exactly where the text has them, one after the
/// other, and at its end nothing or a comment; and a bad byte is answered exactly where tokens stand before it, and no
/// token and no comment begins there. So a text has at most one list of tokens, or else one first bad byte.
#[tactic(auto, using(crate::proofs::TokenLists::marks_sound, crate::proofs::TokenLists::marks_complete, crate::proofs::TokenLists::break_sound, crate::proofs::TokenLists::break_complete))]
pub fn texts_have_their_tokens()
    ensures sound { (mode : Mode) (text : List ℕ) (ms : List Mark) → marks_of mode text ≡ Ok ms → HasMarks mode text 0 ms }
    ensures complete { (mode : Mode) (text : List ℕ) (ms : List Mark) → HasMarks mode text 0 ms → marks_of mode text ≡ Ok ms }
    ensures broken { (mode : Mode) (text : List ℕ) (bad : ℕ) → marks_of mode text ≡ Err bad
        → (ms : List Mark) × BreaksAt mode text 0 ms bad }
    ensures breaks { (mode : Mode) (text : List ℕ) (ms : List Mark) (bad : ℕ) → BreaksAt mode text 0 ms bad
        → marks_of mode text ≡ Err bad }
{}
