//! What a row of a table of calls is, and the lines of refusals that several rows have.

/// The words of a call, and the exit code, the printed text and the line on the error sink that it leaves.
pub(super) type Row = (&'static [&'static str], u8, &'static str, &'static str);

/// Rows that show one thing, with how many bytes each sink takes, and which reads of a call fail, counted from 0.
pub(super) struct Group {
    pub(super) shows: &'static str,
    pub(super) out_takes: u16,
    pub(super) err_takes: u16,
    pub(super) failing: &'static [u64],
    pub(super) rows: &'static [Row],
}

pub(super) const USAGE: &str = "vcsnr: usage: vcsnr COMMAND ARGUMENTS [--limit N] [--order LIST]\n";

pub(super) const RANGE: &str = "vcsnr: value past the range\n";

pub(super) const CIRCUIT: &str = "vcsnr: circuit of empty labels\n";

pub(super) const CONTEXTS: &str = "vcsnr: contexts do not fit\n";

pub(super) const UNWRITTEN: &str = "vcsnr: cannot write\n";

pub(super) const WORD_SYNTAX: &str = "vcsnr: word: not in the grammar\n";

pub(super) const WORD_LABEL: &str = "vcsnr: word: not a label\n";

pub(super) const CONTEXT_SYNTAX: &str = "vcsnr: context: not in the grammar\n";
