ghost use Rattle.std.specs.Prelude.{◌≡◌, ◌∷◌, []};
ghost use Rattle.vc_context.specs.Sets.{tapes_of};
ghost use Rattle.vc_files.specs.Files.{Grows};
ghost use Rattle.vc_top.specs.Inputs.{HasContext, Headed, ReadsBytes, ReadsFile, ReadsLines, ReadsSound, ReadsText, SoundOnly};
ghost use Rattle.vc_top.specs.Outcomes.{OrMemory};
ghost use Rattle.vc_top.specs.Reasons.{in_line, reason_of, syntax};
ghost use Rattle.vc_top.specs.Seen.{seen};
ghost use Rattle.vc_top.specs.Views.{fault_line, fault_reason, input_of, labelled_of, seen_by};

use crate::refusal::{Bound, Place, Refusal};
use std::alloc::Global;
use vc_atoms::{Letters, Nullable, Words};
use vc_aut::{Automaton, automata_are_valid};
use vc_basic::{B, F2, Nmin, Z};
use vc_closure::empty_circuit;
use vc_context::{AnyLabels, Weights, labels_have_tapes};
use vc_daut::{
    DautFault, HeadFault, built_automata_are_spelled, daut_context, read_daut,
    readings_exclude_each_other, refusals_are_additions,
};
use vc_files::{Files, ReadFault};
use vc_label::LabelSet;
use vc_rat::Q;
use vc_ring::{Measure, Semiring, Weighed};
use vc_tuple::Tuple;

/// The greatest number of bytes of a file.
const MOST_BYTES: u64 = 16_777_216;

/// An automaton over these weights, and over any label set.
#[derive(Drop)]
pub(crate) enum AnyOf<S: Semiring> {
    Letters(Automaton<Letters, S>),
    Nullable(Automaton<Nullable, S>),
    Words(Automaton<Words, S>),
    Tuple(Automaton<Tuple, S>),
}

/// The automaton of a file, over any label set and weight set.
#[derive(Drop)]
pub(crate) enum AnyInput {
    B(AnyOf<B>),
    F2(AnyOf<F2>),
    Z(AnyOf<Z>),
    Q(AnyOf<Q>),
    Nmin(AnyOf<Nmin>),
}

/// The refusal of a file that has no context line.
fn head_refusal<'w>(file: &'w str, fault: HeadFault) -> Refusal<'w>
    ensures { reason_of result ≡ syntax (in_line file.now (fault_line fault)) }
{
    match fault {
        HeadFault::Syntax { line } => Refusal::Syntax(Place::Line { file, line }),
    }
}

/// The refusal of a file whose lines were read.
fn refusal_of<'w, V: Drop>(file: &'w str, fault: DautFault<V>) -> Refusal<'w>
    ensures { reason_of result ≡ fault_reason file.now fault }
{
    match fault {
        DautFault::Syntax { line } => Refusal::Syntax(Place::Line { file, line }),
        DautFault::NotALabel { line, .. } => Refusal::NotALabel(Place::Line { file, line }),
        DautFault::Overflow { .. } => Refusal::Overflow,
        DautFault::Limit(limit) => Refusal::Limit(Bound::Of(limit.what)),
        DautFault::Memory(_) => Refusal::Memory,
    }
}

/// Reads the automaton of a file over these labels, which are those of its context.
fn read_over<'w, L: LabelSet, S: Semiring>(
    alloc: Global,
    file: &'w str,
    bytes: &[u8],
    labels: L,
) -> Result<Automaton<L, S>, Refusal<'w>>
    ensures { (f : Headed) → HasContext bytes.now f → f.sets ≡ L.sets labels → OrMemory (ReadsLines
        ⟦<S as Weighed>⟧.texts file.now f.sets f.head) (seen_by (λ a. a) result) }
{
    built_automata_are_spelled::<S::Value>();
    readings_exclude_each_other::<S::Value>();
    refusals_are_additions::<S::Value>();
    match read_daut::<L, S>(alloc, bytes, labels) {
        Ok(automaton) => Ok(automaton),
        Err(fault) => Err(refusal_of(file, fault)),
    }
}

/// The automaton, where no circuit of it is refused.
fn sound<'w, L: LabelSet, S: Semiring>(
    alloc: Global,
    automaton: Automaton<L, S>,
) -> Result<Automaton<L, S>, Refusal<'w>>
    ensures { OrMemory (SoundOnly S.ABSORBS automaton) (seen_by (λ a. a) result) }
{
    if S::ABSORBS {
        return Ok(automaton);
    }
    automata_are_valid(&automaton);
    match empty_circuit(alloc, &automaton) {
        Ok(None) => return Ok(automaton),
        Ok(Some(_)) => return Err(Refusal::EmptyCircuit),
        Err(_) => return Err(Refusal::Memory),
    }
}

/// Reads the automaton of a file over these labels, where no circuit of it is refused.
fn read_sound<'w, L: LabelSet, S: Semiring>(
    alloc: Global,
    file: &'w str,
    bytes: &[u8],
    labels: L,
) -> Result<Automaton<L, S>, Refusal<'w>>
    ensures { (f : Headed) → HasContext bytes.now f → f.sets ≡ L.sets labels → OrMemory (ReadsSound
        ⟦<S as Weighed>⟧.texts S.ABSORBS file.now f.sets f.head) (seen_by (λ a. a) result) }
{
    match read_over(alloc, file, bytes, labels) {
        Ok(automaton) => sound(alloc, automaton),
        Err(refusal) => Err(refusal),
    }
}

/// Reads the automaton of a file over these weights, and over labels that are those of its context.
fn read_any<'w, S: Semiring>(
    alloc: Global,
    file: &'w str,
    bytes: &[u8],
    labels: AnyLabels,
) -> Result<AnyOf<S>, Refusal<'w>>
    ensures { (f : Headed) → HasContext bytes.now f → f.sets ≡ tapes_of labels → OrMemory
        (ReadsSound ⟦<S as Weighed>⟧.texts S.ABSORBS file.now f.sets f.head) (seen_by labelled_of
        result) }
{
    labels_have_tapes();
    match labels {
        AnyLabels::Letters(labels) => match read_sound::<_, S>(alloc, file, bytes, labels) {
            Ok(a) => Ok(AnyOf::Letters(a)),
            Err(refusal) => Err(refusal),
        },
        AnyLabels::Nullable(labels) => match read_sound::<_, S>(alloc, file, bytes, labels) {
            Ok(a) => Ok(AnyOf::Nullable(a)),
            Err(refusal) => Err(refusal),
        },
        AnyLabels::Words(labels) => match read_sound::<_, S>(alloc, file, bytes, labels) {
            Ok(a) => Ok(AnyOf::Words(a)),
            Err(refusal) => Err(refusal),
        },
        AnyLabels::Tuple(labels) => match read_sound::<_, S>(alloc, file, bytes, labels) {
            Ok(a) => Ok(AnyOf::Tuple(a)),
            Err(refusal) => Err(refusal),
        },
    }
}

/// The automaton that the bytes of a file spell.
fn read_text<'w>(alloc: Global, file: &'w str, bytes: &[u8]) -> Result<AnyInput, Refusal<'w>>
    ensures { OrMemory (ReadsText file.now bytes.now) (seen_by input_of result) }
{
    let context = match daut_context(bytes) {
        Ok(context) => context,
        Err(fault) => return Err(head_refusal(file, fault)),
    };
    match context.weights {
        Weights::B => match read_any::<B>(alloc, file, bytes, context.labels) {
            Ok(a) => Ok(AnyInput::B(a)),
            Err(refusal) => Err(refusal),
        },
        Weights::F2 => match read_any::<F2>(alloc, file, bytes, context.labels) {
            Ok(a) => Ok(AnyInput::F2(a)),
            Err(refusal) => Err(refusal),
        },
        Weights::Z => match read_any::<Z>(alloc, file, bytes, context.labels) {
            Ok(a) => Ok(AnyInput::Z(a)),
            Err(refusal) => Err(refusal),
        },
        Weights::Q => match read_any::<Q>(alloc, file, bytes, context.labels) {
            Ok(a) => Ok(AnyInput::Q(a)),
            Err(refusal) => Err(refusal),
        },
        Weights::Nmin => match read_any::<Nmin>(alloc, file, bytes, context.labels) {
            Ok(a) => Ok(AnyInput::Nmin(a)),
            Err(refusal) => Err(refusal),
        },
    }
}

/// The bytes of a file, or why they were not read.
fn load<'w, F: Files>(files: &mut F, name: &'w str) -> Result<Vec<u8>, Refusal<'w>>
    ensures held { F.held files.new ≡ F.held files.old }
    ensures faults { Grows (name.now ∷ []) (F.faults files.old) (F.faults files.new) }
    ensures loaded { OrMemory (ReadsBytes (seen (F.held files.old) (F.faults files.old) (F.faults
        files.new)) name.now) (seen_by (λ v. v.items) result) }
{
    match files.read_all(name, MOST_BYTES) {
        Ok(bytes) => Ok(bytes),
        Err(ReadFault::Failed) => Err(Refusal::ReadFault { file: name }),
        Err(ReadFault::TooLong { .. }) => Err(Refusal::Limit(Bound::Of(Measure::Bytes))),
        Err(ReadFault::Memory(_)) => Err(Refusal::Memory),
    }
}

/// The automaton of a file, over any label set and weight set.
pub(crate) fn read_input<'w, F: Files>(
    alloc: Global,
    files: &mut F,
    file: &'w str,
) -> Result<AnyInput, Refusal<'w>>
    ensures held { F.held files.new ≡ F.held files.old }
    ensures faults { Grows (file.now ∷ []) (F.faults files.old) (F.faults files.new) }
    ensures read { OrMemory (ReadsFile (seen (F.held files.old) (F.faults files.old) (F.faults
        files.new)) file.now) (seen_by input_of result) }
{
    let bytes = load(files, file)?;
    read_text(alloc, file, &bytes)
}
