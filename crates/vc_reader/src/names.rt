ghost use Rattle.std.specs.Prelude.{◌≡◌, ◌<◌, ◌≤◌, [], ℕ, List, true, false, slice_index_or, All, IfOk, OnOk, length, map};
ghost use Rattle.vc_model.specs.Lists.{In, NoRepeat};
ghost use Rattle.std.specs.List.{list_all};
ghost use Rattle.vc_reader.specs.NameSets.{AreMarked, AreNumbers, names_seen};
ghost use Rattle.vc_lines.specs.Names.{is_digit, has_no_zero_in_front, is_number, value_of, line_names, with_name, with_names, AreInOrder};
ghost use Rattle.vc_reader.specs.Keys.{IsKeyOf, IsKeyed};
ghost use Rattle.vc_lex.specs.Views.{seen};
ghost use Rattle.vc_lines.specs.Grammar.{name_of};
ghost use Rattle.vc_reader.specs.Meaning.{number_of};
ghost use Rattle.vc_lines.specs.Views.{line_seen};

use indexmap::IndexSet;
use std::alloc::{AllocError, Global};
use std::marker::Model;
use vc_lex::Token;
use vc_lines::{Line, name_of};
use vc_text::unescape;

/// The names of states, each once; a name is written as it stands in double quotes.
pub(crate) type Names<'t> = IndexSet<&'t [u8]>;

/// The names of states in their order, where the number of a state is the place of its name.
#[derive(Drop)]
pub(crate) struct Numbering<'t> {
    names: Names<'t>,
    /// Only where it is true, each name is the number of its place, and needs no look-up.
    are_places: bool,
}

impl<'t> Model for Numbering<'t> {
    ghost Value = { List (List ℕ) };

    ghost view = { λ n. names_seen n.names };

    ghost invariant = { λ n. n.are_places ≡ true → AreNumbers 0 (names_seen n.names) };
}

impl<'t> Numbering<'t> {
    /// The number of states.
    pub(crate) fn states(&self) -> usize
        ensures { result ≡ length self.now }
    {
        self.names.len()
    }

    /// The number of a state that has a name among these.
    pub(crate) fn number(&self, state: Token<'_>) -> u32
        requires named { In (name_of (seen state)) self.now }
        requires few { length self.now ≤ 1000000 }
        ensures value { result ≡ number_of self.now (name_of (seen state.entry)) }
        ensures below { result < length self.now }
    {
        let name = name_of(state);
        if self.are_places {
            if is_number(name) {
                return value_of(name) as u32;
            }
        }
        match self.names.get_index_of(name) {
            Some(number) => number as u32,
            None => unreachable!(),
        }
    }
}

/// What a name is ordered by: the value of a number, or a number above all of these and the bytes of the name; and the
/// name.
pub type Keyed<'t> = (u64, Vec<u8>, &'t [u8]);

/// A number of 1 to 18 digits is below it.
const NO_NUMBER: u64 = 1_000_000_000_000_000_000;

/// A number of a state below it is marked once it is found.
const MOST_MARKS: usize = 1_000_000;

fn are_digits(name: &[u8]) -> bool
    ensures { result ≡ list_all is_digit name.now }
{
    name.iter().all(|byte| b'0' <= *byte && *byte <= b'9')
}

/// Whether no digit 0 stands in front of other digits.
fn has_no_zero_in_front(name: &[u8]) -> bool
    ensures { result ≡ has_no_zero_in_front name.now }
{
    match name {
        [first, _, ..] => *first != b'0',
        _ => true,
    }
}

pub(crate) fn is_number(name: &[u8]) -> bool
    ensures { result ≡ is_number name.now }
{
    1 <= name.len() && name.len() <= 18 && are_digits(name) && has_no_zero_in_front(name)
}

pub(crate) fn value_of(name: &[u8]) -> u64
    requires { is_number name.now ≡ true }
    ensures value { result ≡ value_of name.now }
    ensures below { result < 1000000000000000000 }
{
    let mut value = 0;
    for digit in name {
        value = value * 10 + (*digit - b'0') as u64;
    }
    value
}

fn key_of(alloc: Global, name: &[u8]) -> Result<(u64, Vec<u8>), AllocError>
    ensures { IfOk result (λ k. IsKeyOf k.0 k.1 name.now) }
{
    if is_number(name) {
        return Ok((value_of(name), Vec::new(alloc)));
    }
    let mut text = Vec::with_capacity(alloc, name.len())?;
    unescape(name, &mut text)?;
    Ok((NO_NUMBER, text))
}

/// The names that were found so far.
#[derive(Drop)]
pub(crate) struct Found<'t> {
    pub(crate) names: Names<'t>,
    /// The place of the value of a number is marked only where the number is among the names.
    marks: Vec<bool>,
}

impl<'t> Found<'t> {
    /// No name yet, of a text with so many bytes.
    pub(crate) fn new(alloc: Global, bytes: usize) -> Result<Found<'t>, AllocError>
        ensures names { IfOk result (λ f. names_seen f.names ≡ []) }
        ensures marked { IfOk result (λ f. AreMarked f.marks.items (names_seen f.names)) }
    {
        let names = IndexSet::new(alloc);
        let marks = no_marks(alloc, bytes.min(MOST_MARKS))?;
        Ok(Found { names, marks })
    }

    /// Adds the names of the states of a line.
    pub(crate) fn add_names(&mut self, line: &Line<'_, 't>) -> Result<(), AllocError>
        requires { AreMarked self.old.marks.items (names_seen self.old.names) }
        ensures names { OnOk result (names_seen self.new.names ≡ with_names (names_seen self.old.names) (line_names (line_seen line.now))) }
        ensures marked { OnOk result (AreMarked self.new.marks.items (names_seen self.new.names)) }
    {
        match line {
            Line::Blank => Ok(()),
            Line::Initial(state, _) => self.add_state(name_of(*state)),
            Line::Final(state, _) => self.add_state(name_of(*state)),
            Line::State(state) => self.add_state(name_of(*state)),
            Line::Moves(from, to, _) => {
                self.add_state(name_of(*from))?;
                self.add_state(name_of(*to))
            }
        }
    }

    /// Adds the name of a state.
    fn add_state(&mut self, name: &'t [u8]) -> Result<(), AllocError>
        requires { AreMarked self.old.marks.items (names_seen self.old.names) }
        ensures names { OnOk result (names_seen self.new.names ≡ with_name (names_seen self.old.names) name.now) }
        ensures marked { OnOk result (AreMarked self.new.marks.items (names_seen self.new.names)) }
    {
        if is_number(name) {
            return self.add_number(name);
        }
        add_name(&mut self.names, name)?;
        Ok(())
    }

    /// Adds a number, and marks the place of its value. Where this is marked, the number is there already.
    fn add_number(&mut self, name: &'t [u8]) -> Result<(), AllocError>
        requires number { is_number name.now ≡ true }
        requires marked { AreMarked self.old.marks.items (names_seen self.old.names) }
        ensures names { OnOk result (names_seen self.new.names ≡ with_name (names_seen self.old.names) name.now) }
        ensures marked { OnOk result (AreMarked self.new.marks.items (names_seen self.new.names)) }
    {
        let value = value_of(name);
        if value >= self.marks.len() as u64 {
            add_name(&mut self.names, name)?;
            return Ok(());
        }
        let place = value as usize;
        if self.marks[place] {
            return Ok(());
        }
        add_name(&mut self.names, name)?;
        self.marks[place] = true;
        Ok(())
    }
}

/// So many places, of which none is marked.
fn no_marks(alloc: Global, count: usize) -> Result<Vec<bool>, AllocError>
    ensures { IfOk result (λ marks. (q : ℕ) → slice_index_or marks.items q false ≡ false) }
{
    vec![in alloc; false; count]
}

fn add_name<'t>(names: &mut Names<'t>, name: &'t [u8]) -> Result<(), AllocError>
    ensures { OnOk result (names_seen names.new ≡ with_name (names_seen names.old) name.now) }
{
    match names.insert(name) {
        Ok(_) => Ok(()),
        Err(_) => Err(AllocError),
    }
}

/// Each name with its key.
fn keyed<'t>(alloc: Global, found: &[&'t [u8]]) -> Result<Vec<Keyed<'t>>, AllocError>
    ensures names { IfOk result (λ v. map (λ p. p.2.now) v.items ≡ map (λ b. b.now) found.now) }
    ensures keys { IfOk result (λ v. All IsKeyed v.items) }
{
    let mut keyed = Vec::with_capacity(alloc, found.len())?;
    for name in found {
        let (rank, text) = key_of(alloc, name)?;
        keyed.push((rank, text, *name))?;
    }
    Ok(keyed)
}

/// The names in their order.
pub(crate) fn in_order<'t>(alloc: Global, found: &Names<'t>) -> Result<Numbering<'t>, AllocError>
    requires { NoRepeat (names_seen found.now) }
    ensures order { IfOk result (λ n. AreInOrder (names_seen found.now) n) }
    ensures count { IfOk result (λ n. length n ≡ length (names_seen found.now)) }
{
    let mut keyed = keyed(alloc, found.as_slice())?;
    keyed.sort()?;
    let mut names = IndexSet::with_capacity(alloc, keyed.len())?;
    for entry in &keyed {
        add_name(&mut names, entry.2)?;
    }
    let are_places = are_numbers(&names);
    Ok(Numbering { names, are_places })
}

/// Whether each name is the number of its place, as in texts that are canonical.
fn are_numbers(names: &Names<'_>) -> bool
    ensures { result ≡ true → AreNumbers 0 (names_seen names.now) }
{
    let mut place = 0;
    let mut rest = names.as_slice();
    while let [name, after @ ..] = rest {
        if !is_number(name) {
            return false;
        }
        if value_of(name) != place {
            return false;
        }
        place += 1;
        rest = after;
    }
    true
}
