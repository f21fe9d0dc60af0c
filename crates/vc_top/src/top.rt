ghost use Rattle.std.specs.Prelude.{◌≡◌, ◌∷◌, [], map, Some, string_bytes};
ghost use Rattle.vc_command.specs.Requests.{HasLimit, request_of};
ghost use Rattle.vc_command.specs.Views.{asked};
ghost use Rattle.vc_files.specs.Files.{Grows};
ghost use Rattle.vc_top.specs.Answers.{Allows, names_of};
ghost use Rattle.vc_top.specs.Delivery.{Delivers, Reports};
ghost use Rattle.vc_top.specs.Commands.{AnswersFile, AnswersFiles, AreWithin};
ghost use Rattle.vc_top.specs.Inputs.{ReadsFile};
ghost use Rattle.vc_top.specs.Outcomes.{OrMemory, Then};
ghost use Rattle.vc_top.specs.Rows.{IsRun, flow};
ghost use Rattle.vc_top.specs.Seen.{seen};
ghost use Rattle.vc_top.specs.Views.{answer_of, left_of, reason_of_words};

use crate::input::read_input;
use crate::message::write_message;
use crate::plan::{FileCommand, FilesCommand, Plan, on_file, on_files, on_texts, plan_of};
use crate::refusal::Refusal;
use crate::status::Status;
use std::alloc::Global;
use vc_basic::NminValue;
use vc_command::{Request, RequestFault, limits_are_in_range, request_of};
use vc_context::contexts_have_texts;
use vc_exprio::{texts_have_one_answer, texts_spell_one_word};
use vc_files::{Files, Sink, faults_of_calls};
use vc_label::{alphabets_are_sets, words_are_ordered};
use vc_rat::Fraction;
use vc_search::members_are_few;

/// The answer of a command to the file of this name.
fn with_file<'w, F: Files>(
    alloc: Global,
    command: FileCommand<'w>,
    files: &mut F,
    file: &'w str,
) -> Result<String, Refusal<'w>>
    ensures held { F.held files.new ≡ F.held files.old }
    ensures faults { Grows (file.now ∷ []) (F.faults files.old) (F.faults files.new) }
    ensures answer { OrMemory (Then (ReadsFile (seen (F.held files.old) (F.faults files.old)
        (F.faults files.new)) file.now) (AnswersFile command.entry)) (answer_of result) }
{
    match read_input(alloc, files, file) {
        Ok(input) => on_file(alloc, command, input),
        Err(refusal) => Err(refusal),
    }
}

/// The answer of a command to the files of these names. The second is read once the first stands.
fn with_files<'w, F: Files>(
    alloc: Global,
    command: FilesCommand,
    files: &mut F,
    first: &'w str,
    second: &'w str,
) -> Result<String, Refusal<'w>>
    requires { AreWithin command }
    ensures held { F.held files.new ≡ F.held files.old }
    ensures faults { Grows (first.now ∷ second.now ∷ []) (F.faults files.old) (F.faults files.new) }
    ensures answer { OrMemory (Then (ReadsFile (seen (F.held files.old) (F.faults files.old)
        (F.faults files.new)) first.now) (λ x. Then (ReadsFile (seen (F.held files.old) (F.faults
        files.old) (F.faults files.new)) second.now) (AnswersFiles command x))) (answer_of result) }
{
    faults_of_calls();
    let left = match read_input(alloc, files, first) {
        Ok(input) => input,
        Err(refusal) => return Err(refusal),
    };
    let right = match read_input(alloc, files, second) {
        Ok(input) => input,
        Err(refusal) => return Err(refusal),
    };
    on_files(alloc, command, &left, &right)
}

/// The answer to a request; one of a command that is not built is `Usage`.
fn answer<'w, F: Files>(
    alloc: Global,
    request: &'w Request,
    files: &mut F,
) -> Result<String, Refusal<'w>>
    requires { HasLimit (asked request.now) }
    ensures held { F.held files.new ≡ F.held files.old }
    ensures faults { Grows (names_of (Some (asked request.now))) (F.faults files.old) (F.faults
        files.new) }
    ensures answer { Allows (Some (asked request.now)) (seen (F.held files.old) (F.faults files.old)
        (F.faults files.new)) (answer_of result) }
{
    match plan_of(request) {
        Plan::Texts(command) => on_texts(alloc, command),
        Plan::File(file, command) => with_file(alloc, command, files, file),
        Plan::Files(first, second, command) => with_files(alloc, command, files, first, second),
    }
}

/// Prints an answer, or nothing for a refusal, which is handed on.
fn deliver<'w, O: Sink>(answer: Result<String, Refusal<'w>>, out: &mut O) -> Result<(), Refusal<'w>>
    ensures { Delivers (answer_of answer.entry) (left_of result) (O.written out.old) (O.written
        out.new) (O.faults out.old) (O.faults out.new) }
{
    match answer {
        Ok(text) => match out.write_all(text.as_bytes()) {
            Ok(()) => Ok(()),
            Err(_) => Err(Refusal::WriteFault),
        },
        Err(reason) => Err(reason),
    }
}

/// The status of what was done; the line of a refusal goes to the sink, whose fault changes no
/// status.
fn report<E: Sink>(done: Result<(), Refusal<'_>>, err: &mut E) -> Status
    ensures { Reports (left_of done.entry) result (E.written err.old) (E.written err.new) (E.faults
        err.old) (E.faults err.new) }
{
    match done {
        Ok(()) => Status::Done,
        Err(refusal) => {
            let _ = write_message(refusal, err);
            refusal.status()
        }
    }
}

/// The status of words that give no request, whose line goes to the sink: `Usage`, or `Memory`
/// where there was none for them.
pub fn refuse<E: Sink>(fault: RequestFault, err: &mut E) -> Status
    ensures { Reports (Some (reason_of_words fault)) result (E.written err.old) (E.written err.new)
        (E.faults err.old) (E.faults err.new) }
{
    match fault {
        RequestFault::Usage => report(Err(Refusal::Usage), err),
        RequestFault::Memory(_) => report(Err(Refusal::Memory), err),
    }
}

/// Does what the words ask, and answers the status.
///
/// The words are those after the program's name. Files are read from `files`, the answer goes to
/// `out` once it stands whole, and on a refusal one line goes to `err`. `context C` prints the
/// canonical text of the context, `expr C E` that of the expression that the identities make of the
/// text, `standard C E` that of its standard automaton, `cat FILE` that of the file's automaton,
/// `proper FILE` that of the file's automaton without empty labels, `trim FILE` that of the file's
/// automaton with its useful states alone, `conjunction A B` and `shuffle A B` those of the
/// products of two automata, over one weight set and over labels of at most one letter on one tape,
/// and `eval FILE WORD` and `eval C E WORD` the coefficient of the file's automaton or of the
/// expression at the word (Sakarovitch, Elements of Automata Theory), each with a line feed at its
/// end. A file over `f2`, `z` or `q` whose automaton has a circuit of empty labels is refused. A
/// request of a command that is not built yet is `Usage`.
pub fn run<F: Files, O: Sink, E: Sink>(
    alloc: Global,
    words: &[String],
    files: &mut F,
    out: &mut O,
    err: &mut E,
) -> Status
    // What is printed and what is told, the cause of each refusal, and the status.
    ensures rows { IsRun (request_of (map string_bytes words.now)) (seen (F.held files.old)
        (F.faults files.old) (F.faults files.new)) result (flow (O.written out.old) (O.written
        out.new) (O.faults out.old) (O.faults out.new)) (flow (E.written err.old) (E.written err.new)
        (E.faults err.old) (E.faults err.new)) }

    // The files keep what they hold, and only a file of the request joins their faults.
    ensures faults { Grows (names_of (request_of (map string_bytes words.now))) (F.faults files.old)
        (F.faults files.new) }
    ensures kept { F.held files.new ≡ F.held files.old }
{
    limits_are_in_range();
    contexts_have_texts();
    words_are_ordered();
    texts_spell_one_word();
    texts_have_one_answer::<bool>();
    texts_have_one_answer::<i128>();
    texts_have_one_answer::<Fraction>();
    texts_have_one_answer::<NminValue>();
    alphabets_are_sets();
    members_are_few::<(u32, u32)>();
    match request_of(alloc, words) {
        Ok(request) => {
            let answer = answer(alloc, &request, files);
            report(deliver(answer, out), err)
        }
        Err(fault) => refuse(fault, err),
    }
}
