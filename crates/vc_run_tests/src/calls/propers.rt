//! Calls that take away empty labels or useless states, and files with circuits of empty labels.

use super::files::{FORTY_STATES, FOUR_TAPES};
use super::rows::{CIRCUIT, Group, RANGE, USAGE, WORD_LABEL, WORD_SYNTAX};

pub(super) const PROPERS: &[Group] = &[
    Group {
        shows: "the automaton without empty labels has the weights of all their paths",
        out_takes: 1024,
        err_takes: 128,
        failing: &[],
        rows: &[
            (
                &["proper", "costs"],
                0,
                "context = \"lan_char(a), nmin\"\n$ -> 0\n0 -> 1 <5>a\n0 -> $ <3>\n1 -> 1 <2>a\n1 -> $\n",
                "",
            ),
            (
                &["proper", "two_paths"],
                0,
                "context = \"lan_char(a), z\"\n$ -> 0\n0 -> 3 <3>a\n0 -> $ <15>\n1 -> 3 a\n1 -> $ <5>\n2 -> 3 <2>a\n2 -> $ <10>\n3 -> 3 a\n3 -> $ <5>\n",
                "",
            ),
            (
                &["proper", "words"],
                0,
                "context = \"law_char(ab), z\"\n0 -> 1 <2>ab\n",
                "",
            ),
            (
                &["proper", "equal_entries"],
                0,
                "context = \"lan_char(a), f2\"\n0\n",
                "",
            ),
            (&["proper", "forty_states"], 0, FORTY_STATES, ""),
            (&["proper", "four_tapes"], 0, FOUR_TAPES, ""),
        ],
    },
    Group {
        shows: "the useful states stay, in their order",
        out_takes: 1024,
        err_takes: 128,
        failing: &[],
        rows: &[
            (
                &["trim", "useless"],
                0,
                "context = \"lal_char(ab), b\"\n$ -> 0\n0 -> 1 a\n1 -> $\n",
                "",
            ),
            (
                &["trim", "useless_between"],
                0,
                "context = \"lal_char(ab), z\"\n$ -> 0 <3>\n0 -> 1 <2>b\n1 -> $ <-1>\n",
                "",
            ),
            (&["trim", "words"], 0, "context = \"law_char(ab), z\"\n", ""),
            (
                &["trim", "costs"],
                0,
                "context = \"lan_char(a), nmin\"\n$ -> 0\n0 -> 0 <1>\\e\n0 -> 1 <3>\\e\n1 -> 1 <2>a\n1 -> $\n",
                "",
            ),
            (&["trim", "forty_states"], 0, FORTY_STATES, ""),
        ],
    },
    Group {
        shows: "an automaton with empty labels is evaluated",
        out_takes: 512,
        err_takes: 128,
        failing: &[],
        rows: &[
            (&["eval", "costs", "\\e"], 0, "3\n", ""),
            (&["eval", "costs", "aa"], 0, "7\n", ""),
            (&["eval", "two_paths", "\\e"], 0, "15\n", ""),
            (&["eval", "two_paths", "aa"], 0, "15\n", ""),
            (&["eval", "words", "a"], 0, "0\n", ""),
        ],
    },
    Group {
        shows: "a circuit of empty labels is refused where one does not absorb, before the word is read",
        out_takes: 512,
        err_takes: 128,
        failing: &[],
        rows: &[
            (&["cat", "empty_loop"], 8, "", CIRCUIT),
            (&["proper", "empty_loop"], 8, "", CIRCUIT),
            (&["trim", "empty_loop"], 8, "", CIRCUIT),
            (&["eval", "empty_loop", "%"], 8, "", CIRCUIT),
            (&["cat", "empty_pair_loop"], 8, "", CIRCUIT),
            (
                &["cat", "costs"],
                0,
                "context = \"lan_char(a), nmin\"\n$ -> 0\n0 -> 0 <1>\\e\n0 -> 1 <3>\\e\n1 -> 1 <2>a\n1 -> $\n",
                "",
            ),
        ],
    },
    Group {
        shows: "a step of the closure does not fit, and the word is read before it",
        out_takes: 512,
        err_takes: 128,
        failing: &[],
        rows: &[
            (&["proper", "steep"], 9, "", RANGE),
            (&["eval", "steep", "\\e"], 9, "", RANGE),
            (&["eval", "steep", "%"], 5, "", WORD_SYNTAX),
            (&["eval", "steep", "b"], 6, "", WORD_LABEL),
            (
                &["trim", "steep"],
                0,
                "context = \"lan_char(a), z\"\n$ -> 0\n0 -> 1 <170141183460469231731687303715884105727>\\e\n1 -> 2 <2>\\e\n2 -> $\n",
                "",
            ),
            (&["proper", "steep", "--limit", "3"], 2, "", USAGE),
            (&["trim"], 2, "", USAGE),
            (
                &["proper", "not_held"],
                3,
                "",
                "vcsnr: cannot read not_held\n",
            ),
        ],
    },
    Group {
        shows: "a circuit is refused, and the error sink takes nothing",
        out_takes: 512,
        err_takes: 0,
        failing: &[],
        rows: &[(&["cat", "empty_loop"], 8, "", "")],
    },
];
