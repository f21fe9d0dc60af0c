//! Calls that make the standard automaton of an expression.

use super::rows::{CONTEXT_SYNTAX, CONTEXTS, Group, RANGE, UNWRITTEN, WORD_LABEL, WORD_SYNTAX};

const STATES: &str = "vcsnr: limit passed: states\n";

pub(super) const STANDARDS: &[Group] = &[
    Group {
        shows: "the standard automaton of an expression is printed",
        out_takes: 512,
        err_takes: 128,
        failing: &[],
        rows: &[
            (
                &["standard", "lal_char(a), z", "a*a*"],
                0,
                "context = \"lal_char(a), z\"\n$ -> 0\n0 -> 1 a\n0 -> 2 a\n0 -> $\n1 -> 1 a\n1 -> 2 a\n1 -> $\n2 -> 2 a\n2 -> $\n",
                "",
            ),
            (
                &["standard", "lal_char(a), z", "a*a*", "--limit", "3"],
                0,
                "context = \"lal_char(a), z\"\n$ -> 0\n0 -> 1 a\n0 -> 2 a\n0 -> $\n1 -> 1 a\n1 -> 2 a\n1 -> $\n2 -> 2 a\n2 -> $\n",
                "",
            ),
            (
                &["standard", "lal_char(ab), z", "\\z"],
                0,
                "context = \"lal_char(ab), z\"\n$ -> 0\n",
                "",
            ),
            (
                &["standard", "lal_char(ab), z", "<2>(a+b)"],
                0,
                "context = \"lal_char(ab), z\"\n$ -> 0\n0 -> 1 <2>a\n0 -> 2 <2>b\n1 -> $\n2 -> $\n",
                "",
            ),
            (
                &["standard", "[ab]*, q", "('ab'+<1/2>\\e)*"],
                0,
                "context = \"law_char(ab), q\"\n$ -> 0\n0 -> 1 <2>ab\n0 -> $ <2>\n1 -> 1 <2>ab\n1 -> $ <2>\n",
                "",
            ),
            (
                &["standard", "lal_char(a), q", "(<1/2>a*)*"],
                0,
                "context = \"lal_char(a), q\"\n$ -> 0\n0 -> 1 a\n0 -> $ <2>\n1 -> 1 <2>a\n1 -> $ <2>\n",
                "",
            ),
            (
                &["standard", "[ab]?, b", "a&(a+b)"],
                0,
                "context = \"lan_char(ab), b\"\n$ -> 0\n0 -> 1 a\n1 -> $\n2 -> $\n",
                "",
            ),
            (
                &["standard", "[ab] x [x]*, nmin", "<3>(a|'xx')*"],
                0,
                "context = \"lat<lal_char(ab), law_char(x)>, nmin\"\n$ -> 0\n0 -> 1 <3>a|xx\n0 -> $ <3>\n1 -> 1 a|xx\n1 -> $\n",
                "",
            ),
        ],
    },
    Group {
        shows: "an expression is evaluated at a word",
        out_takes: 512,
        err_takes: 128,
        failing: &[],
        rows: &[
            (
                &["eval", "lal_char(a), q", "(<1/2>\\e+a)*", "aa"],
                0,
                "8\n",
                "",
            ),
            (&["eval", "lal_char(a), b", "(\\e)*", "\\e"], 0, "1\n", ""),
            (&["eval", "lal_char(a), z", "a*a*", "aaa"], 0, "4\n", ""),
            (&["eval", "lal_char(a), f2", "a*a*", "aaa"], 0, "0\n", ""),
            (&["eval", "lal_char(ab), z", "ab:ab", "aabb"], 0, "4\n", ""),
            (&["eval", "lal_char(ab), z", "ab:ab", "abab"], 0, "2\n", ""),
            (
                &["eval", "[ab]*, q", "'ab'*<1/3>(a+b)*", "abab"],
                0,
                "1\n",
                "",
            ),
            (
                &["eval", "[ab] x [x]*, nmin", "<3>(a|'xx')*", "aa|xxxx"],
                0,
                "3\n",
                "",
            ),
            (
                &["eval", "[ab] x [x]*, nmin", "<3>(a|'xx')*", "a|x"],
                0,
                "oo\n",
                "",
            ),
            (
                &[
                    "eval",
                    "lal_char(ab), z",
                    "(<170141183460469231731687303715884105727>a+b)(<2>a+b)",
                    "ab",
                ],
                0,
                "170141183460469231731687303715884105727\n",
                "",
            ),
        ],
    },
    Group {
        shows: "the standard automaton of an expression is refused",
        out_takes: 512,
        err_takes: 128,
        failing: &[],
        rows: &[
            (&["standard", "lal_char(ab)", "a+"], 5, "", CONTEXT_SYNTAX),
            (
                &["standard", "lal_char(ab), z", "a+"],
                5,
                "",
                "vcsnr: expression:2: not in the grammar\n",
            ),
            (&["standard", "law_char(ab), z", "a:b"], 11, "", CONTEXTS),
            (
                &["standard", "lal_char(a), z", "a*a*", "--limit=2"],
                10,
                "",
                STATES,
            ),
            (
                &[
                    "standard",
                    "lal_char(a), z",
                    "a:a:a:a:a:a:a:a:a:a:a:a:a:a:a:a:a:a:a:a:a:a:a:a:a:a:a:a:a:a:a:a:a:a:a:a:a:a:a:a:a:a:a:a:a:a:a:a:a:a:a:a:a:a:a:a:a:a:a:a:a:a:a:a:a:a:a:a:a:a",
                    "--limit",
                    "1000000",
                ],
                10,
                "",
                STATES,
            ),
            (
                &[
                    "standard",
                    "lal_char(ab), z",
                    "(<170141183460469231731687303715884105727>\\e+a)(<2>b+a)",
                ],
                9,
                "",
                RANGE,
            ),
            (
                &["eval", "lal_char(ab)", "a+", "a||"],
                5,
                "",
                CONTEXT_SYNTAX,
            ),
            (
                &["eval", "lal_char(ab), z", "a+", "a||"],
                5,
                "",
                "vcsnr: expression:2: not in the grammar\n",
            ),
            (
                &["eval", "lal_char(ab), z", "(\\e)*", "c"],
                7,
                "",
                "vcsnr: star is not defined\n",
            ),
            (
                &[
                    "eval",
                    "lal_char(a), z",
                    "a:a:a:a:a:a:a:a:a:a:a:a:a:a:a:a:a",
                    "a||",
                ],
                5,
                "",
                WORD_SYNTAX,
            ),
            (
                &[
                    "eval",
                    "lal_char(a), z",
                    "a:a:a:a:a:a:a:a:a:a:a:a:a:a:a:a:a",
                    "a|a",
                ],
                6,
                "",
                WORD_LABEL,
            ),
            (
                &[
                    "eval",
                    "lal_char(a), z",
                    "a:a:a:a:a:a:a:a:a:a:a:a:a:a:a:a:a",
                    "a",
                ],
                10,
                "",
                STATES,
            ),
            (
                &[
                    "eval",
                    "lal_char(ab), z",
                    "(<170141183460469231731687303715884105727>\\e+a)(<2>b+a)",
                    "bb",
                ],
                9,
                "",
                RANGE,
            ),
            (
                &[
                    "eval",
                    "lal_char(ab), z",
                    "(<170141183460469231731687303715884105727>a+b)(<2>a+b)",
                    "aa",
                ],
                9,
                "",
                RANGE,
            ),
        ],
    },
    Group {
        shows: "a standard automaton is printed in part where the sink takes no more",
        out_takes: 10,
        err_takes: 128,
        failing: &[],
        rows: &[(
            &["standard", "lal_char(a), z", "a*a*"],
            4,
            "context = ",
            UNWRITTEN,
        )],
    },
    Group {
        shows: "a limit of states is passed, and the error sink takes nothing",
        out_takes: 512,
        err_takes: 0,
        failing: &[],
        rows: &[(
            &["standard", "lal_char(a), z", "a*a*", "--limit", "2"],
            10,
            "",
            "",
        )],
    },
];
