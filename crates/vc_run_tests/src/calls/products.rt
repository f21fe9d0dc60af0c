//! Calls that print a product of the automata of two files.

use super::rows::{CIRCUIT, CONTEXTS, Group, RANGE, UNWRITTEN, USAGE};

/// The conjunction of `binary_value` with itself.
const SQUARE: &str =
    "context = \"lal_char(ab), z\"\n$ -> 0\n0 -> 0 a, b\n0 -> 1 b\n0 -> 2 b\n0 -> 3 b\n1 -> 1 <2>a, <2>b\n1 -> 3 <2>b\n2 -> 2 <2>a, <2>b\n2 -> 3 <2>b\n3 -> 3 <4>a, <4>b\n3 -> $\n";

pub(super) const PRODUCTS: &[Group] = &[
    Group {
        shows: "a product has a state for each accessible pair, in the order in which they are found",
        out_takes: 1024,
        err_takes: 128,
        failing: &[],
        rows: &[
            (
                &["conjunction", "binary_value", "binary_value"],
                0,
                SQUARE,
                "",
            ),
            (
                &["shuffle", "one_word", "one_word"],
                0,
                "context = \"lal_char(ab), z\"\n$ -> 0\n0 -> 1 a\n0 -> 2 a\n1 -> 3 a\n1 -> 4 b\n2 -> 3 a\n2 -> 5 b\n3 -> 6 b\n3 -> 7 b\n4 -> 6 a\n5 -> 7 a\n6 -> 8 b\n7 -> 8 b\n8 -> $\n",
                "",
            ),
            (
                &["shuffle", "two_paths", "two_paths"],
                0,
                "context = \"lan_char(a), z\"\n$ -> 0\n0 -> 1 <3>a\n0 -> 2 <3>a\n0 -> $ <225>\n1 -> 1 a\n1 -> 3 <3>a\n1 -> $ <75>\n2 -> 2 a\n2 -> 3 <3>a\n2 -> $ <75>\n3 -> 3 <2>a\n3 -> $ <25>\n",
                "",
            ),
        ],
    },
    Group {
        shows: "the labels are letters of both, and may be empty where those of one may",
        out_takes: 1024,
        err_takes: 128,
        failing: &[],
        rows: &[
            (
                &["conjunction", "two_paths", "binary_value"],
                0,
                "context = \"lan_char(ab), z\"\n$ -> 0\n0 -> 1 <3>a\n1 -> 1 a\n",
                "",
            ),
            (
                &["conjunction", "binary_value", "two_paths"],
                0,
                "context = \"lan_char(ab), z\"\n$ -> 0\n0 -> 1 <3>a\n1 -> 1 a\n",
                "",
            ),
            (
                &["shuffle", "no_states", "contains_ab"],
                0,
                "context = \"lal_char(ab), b\"\n",
                "",
            ),
        ],
    },
    Group {
        shows: "the limit is passed by one pair more",
        out_takes: 1024,
        err_takes: 128,
        failing: &[],
        rows: &[
            (
                &[
                    "conjunction",
                    "binary_value",
                    "binary_value",
                    "--limit",
                    "4",
                ],
                0,
                SQUARE,
                "",
            ),
            (
                &["conjunction", "binary_value", "binary_value", "--limit=3"],
                10,
                "",
                "vcsnr: limit passed: states\n",
            ),
            (
                &["shuffle", "one_word", "one_word", "--limit", "8"],
                10,
                "",
                "vcsnr: limit passed: states\n",
            ),
            (&["conjunction", "one_word"], 2, "", USAGE),
            (
                &["shuffle", "one_word", "one_word", "--limit", "0"],
                2,
                "",
                USAGE,
            ),
        ],
    },
    Group {
        shows: "contexts that do not fit are refused after both files are read",
        out_takes: 1024,
        err_takes: 128,
        failing: &[],
        rows: &[
            (
                &["conjunction", "contains_ab", "binary_value"],
                11,
                "",
                CONTEXTS,
            ),
            (&["shuffle", "residues", "contains_ab"], 11, "", CONTEXTS),
            (&["conjunction", "words", "words"], 11, "", CONTEXTS),
            (&["conjunction", "binary_value", "words"], 11, "", CONTEXTS),
            (&["shuffle", "pairs", "binary_value"], 11, "", CONTEXTS),
            (&["shuffle", "two_paths", "pairs"], 11, "", CONTEXTS),
            (&["conjunction", "contains_ab", "past_range"], 9, "", RANGE),
            (
                &["conjunction", "words", "not_held"],
                3,
                "",
                "vcsnr: cannot read not_held\n",
            ),
            (
                &["conjunction", "not_held", "empty_loop"],
                3,
                "",
                "vcsnr: cannot read not_held\n",
            ),
            (&["conjunction", "empty_loop", "not_held"], 8, "", CIRCUIT),
            (
                &["shuffle", "cut_off", "not_held"],
                5,
                "",
                "vcsnr: cut_off:3: not in the grammar\n",
            ),
        ],
    },
    Group {
        shows: "a step of a product, or of the removal of empty labels, does not fit",
        out_takes: 1024,
        err_takes: 128,
        failing: &[],
        rows: &[
            (
                &["conjunction", "greatest_cost", "greatest_cost"],
                9,
                "",
                RANGE,
            ),
            (&["shuffle", "greatest_cost", "greatest_cost"], 9, "", RANGE),
            (&["shuffle", "two_paths", "steep"], 9, "", RANGE),
        ],
    },
    Group {
        shows: "the second file cannot be read",
        out_takes: 1024,
        err_takes: 128,
        failing: &[1],
        rows: &[(
            &["conjunction", "one_word", "binary_value"],
            3,
            "",
            "vcsnr: cannot read binary_value\n",
        )],
    },
    Group {
        shows: "the output takes a front of the product",
        out_takes: 27,
        err_takes: 128,
        failing: &[],
        rows: &[(
            &["conjunction", "binary_value", "binary_value"],
            4,
            "context = \"lal_char(ab), z\"",
            UNWRITTEN,
        )],
    },
];
