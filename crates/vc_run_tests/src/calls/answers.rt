//! Calls that print.

use super::files::{FORTY_STATES, FOUR_TAPES, TWENTY_LETTERS};
use super::rows::{CONTEXT_SYNTAX, Group};

pub(super) const ANSWERS: &[Group] = &[
    Group {
        shows: "a word is evaluated",
        out_takes: 1024,
        err_takes: 128,
        failing: &[],
        rows: &[
            (&["eval", "contains_ab", "aab"], 0, "1\n", ""),
            (&["eval", "contains_ab", "ba"], 0, "0\n", ""),
            (&["eval", "contains_ab", "\\e"], 0, "0\n", ""),
            (&["eval", "contains_ab", " 'aab'\t"], 0, "1\n", ""),
            (&["eval", "contains_ab", "''"], 0, "0\n", ""),
            (&["eval", "gaps", "a"], 0, "1\n", ""),
            (&["eval", "gaps", "_Z_"], 0, "1\n", ""),
            (&["eval", "gaps", "aZ"], 0, "0\n", ""),
            (&["eval", "gaps", "9"], 0, "0\n", ""),
            (&["eval", "no_states", "\\e"], 0, "0\n", ""),
            (&["eval", "no_letters", "\\e"], 0, "1\n", ""),
            (&["eval", "binary_value", "bab"], 0, "5\n", ""),
            (&["eval", "binary_value", "a"], 0, "0\n", ""),
            (
                &["eval", "greatest_cost", "\\e"],
                0,
                "340282366920938463463374607431768211455\n",
                "",
            ),
            (&["eval", "greatest_cost", "b"], 0, "oo\n", ""),
            (&["eval", "halves", "aa"], 0, "1/2\n", ""),
            (&["eval", "halves", "ab"], 0, "-1/2\n", ""),
            (&["eval", "residues", "a"], 0, "0\n", ""),
            (&["eval", "residues", "b"], 0, "1\n", ""),
            (&["eval", "blank_in_entry", "a"], 0, "0\n", ""),
            (&["eval", "blank_line", "a"], 0, "0\n", ""),
            (&["eval", "pairs", "a|\\|xx"], 0, "-2\n", ""),
            (&["eval", "pairs", "aa|\\|xx\\|x"], 0, "4\n", ""),
            (&["eval", "pairs", "\\e|xx"], 0, "1\n", ""),
            (&["eval", "pairs", "a|x"], 0, "0\n", ""),
        ],
    },
    Group {
        shows: "an automaton is printed in its one text",
        out_takes: 1024,
        err_takes: 128,
        failing: &[],
        rows: &[
            (
                &["cat", "greatest_cost"],
                0,
                "context = \"lal_char(ab), nmin\"\n$ -> 0 <340282366920938463463374607431768211455>\n0 -> 1 <1>a\n0 -> $\n1 -> $\n",
                "",
            ),
            (
                &["cat", "gaps"],
                0,
                "context = \"lal_char(9Z_a), b\"\n$ -> 1\n0 -> 1 Z\n0 -> $\n1 -> 0 _, a\n",
                "",
            ),
            (
                &["cat", "halves"],
                0,
                "context = \"lal_char(ab), q\"\n$ -> 0\n0 -> 0 <1/2>a, <-1/2>b\n0 -> $ <2>\n",
                "",
            ),
            (
                &["cat", "equal_entries"],
                0,
                "context = \"lan_char(a), f2\"\n0\n",
                "",
            ),
            (
                &["cat", "realistic"],
                0,
                "context = \"lal_char(ab), b\"\n$ -> 2\n0 -> $\n1 -> 0 a, b\n2 -> 1 b\n2 -> 2 a, b\n",
                "",
            ),
            (
                &["cat", "pairs"],
                0,
                "context = \"lat<lan_char(ab), law_char(x\\|)>, z\"\n$ -> 0\n0 -> 0 \\e|x, <-2>a|\\|x\n0 -> $\n",
                "",
            ),
            (
                &["cat", "words"],
                0,
                "context = \"law_char(ab), z\"\n0 -> 1 \\e, <2>ab\n",
                "",
            ),
        ],
    },
    Group {
        shows: "a context is printed in its one text",
        out_takes: 1024,
        err_takes: 128,
        failing: &[],
        rows: &[
            (
                &["context", "[ab]? x [x-z]* -> nmin"],
                0,
                "lat<lan_char(ab), law_char(xyz)>, nmin\n",
                "",
            ),
            (
                &["context", "letterset<char_letters(ba)>, q"],
                0,
                "lal_char(ab), q\n",
                "",
            ),
            (&["context", "lal_char(ab)"], 5, "", CONTEXT_SYNTAX),
            (&["context", "[ab]"], 5, "", CONTEXT_SYNTAX),
        ],
    },
    Group {
        shows: "there is memory for automata of some size",
        out_takes: 1024,
        err_takes: 128,
        failing: &[],
        rows: &[
            (
                &[
                    "context",
                    "lat<lal_char(abcdefghijklmnopqrst), lan_char(ab), law_char(cd), law_char(ef)>, nmin",
                ],
                0,
                "lat<lal_char(abcdefghijklmnopqrst), lan_char(ab), law_char(cd), law_char(ef)>, nmin\n",
                "",
            ),
            (&["cat", "forty_states"], 0, FORTY_STATES, ""),
            (&["cat", "twenty_letters"], 0, TWENTY_LETTERS, ""),
            (&["cat", "four_tapes"], 0, FOUR_TAPES, ""),
            (
                &[
                    "eval",
                    "forty_states",
                    "aaaaaaaaaaaaaaaaaaaaaaaaaaaaaaaaaaaaaaa",
                ],
                0,
                "1\n",
                "",
            ),
            (
                &[
                    "eval",
                    "forty_states",
                    "bbbbbbbbbbbbbbbbbbbbbbbbbbbbbbbbbbbbbbb",
                ],
                0,
                "549755813888\n",
                "",
            ),
            (
                &[
                    "eval",
                    "forty_states",
                    "aaaaaaaaaaaaaaaaaaaaaaaaaaaaaaaaaaaaaa",
                ],
                0,
                "0\n",
                "",
            ),
        ],
    },
];
