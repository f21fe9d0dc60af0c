ghost use Rattle.std.specs.Prelude.{List, Option, Some};
ghost use Rattle.vc_command.specs.Requests.{Asked};
ghost use Rattle.vc_files.specs.Files.{Bytes, Held};
ghost use Rattle.vc_top.specs.Answers.{Agree, Allows};
ghost use Rattle.vc_top.specs.Outcomes.{Answer};
ghost use Rattle.vc_top.specs.Seen.{seen};

use vc_basic::NminValue;
use vc_context::contexts_have_texts;
use vc_daut::{
    context_lines_have_one_text, readings_exclude_each_other, texts_spell_one_automaton,
};
use vc_exprio::{texts_have_one_answer, texts_spell_one_word};
use vc_files::names_have_one_file;
use vc_label::{alphabets_are_sets, words_are_ordered};
use vc_rat::Fraction;
use vc_search::members_are_few;

/// Over files that tell their bytes, a request allows one answer alone, but for faults of reading
/// and want of memory; and where a number does not fit and a limit is passed in one file, or in
/// what is done with what was read, either may be answered; and a command whose text is open may
/// print any that it allows; and where a step of a standard construction, of the removal of empty
/// labels, or of a product, does not fit, or too many transitions or pairs of states are named, the
/// command may be refused for it or answer. So where the cause of a refusal stands, this refusal is
/// answered, or one of these. A file or an expression that has too many bytes is refused for that
/// alone.
pub fn answers_are_determined()
    ensures { (held : Held) (before after : List Bytes) (request : Option Asked) (a b : Answer)
        → Allows request (seen (Some held) before after) a → Allows request (seen (Some held) before after) b
        → Agree request (seen (Some held) before after) a b }
{
    names_have_one_file();
    contexts_have_texts();
    words_are_ordered();
    texts_spell_one_word();
    texts_have_one_answer::<bool>();
    texts_have_one_answer::<i128>();
    texts_have_one_answer::<Fraction>();
    texts_have_one_answer::<NminValue>();
    alphabets_are_sets();
    members_are_few::<(u32, u32)>();
    context_lines_have_one_text();
    texts_spell_one_automaton::<bool>();
    texts_spell_one_automaton::<i128>();
    texts_spell_one_automaton::<Fraction>();
    texts_spell_one_automaton::<NminValue>();
    readings_exclude_each_other::<bool>();
    readings_exclude_each_other::<i128>();
    readings_exclude_each_other::<Fraction>();
    readings_exclude_each_other::<NminValue>();
}
