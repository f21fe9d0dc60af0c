//! Words and files that are refused.

use super::rows::{Group, RANGE, WORD_LABEL, WORD_SYNTAX};

pub(super) const REFUSALS: &[Group] = &[
    Group {
        shows: "a word is refused",
        out_takes: 1024,
        err_takes: 128,
        failing: &[],
        rows: &[
            (&["eval", "contains_ab", "ac"], 6, "", WORD_LABEL),
            (&["eval", "contains_ab", "a\\+"], 6, "", WORD_LABEL),
            (&["eval", "contains_ab", "a|b"], 6, "", WORD_LABEL),
            (&["eval", "contains_ab", "a||"], 5, "", WORD_SYNTAX),
            (&["eval", "contains_ab", "a b"], 5, "", WORD_SYNTAX),
            (&["eval", "contains_ab", "'ab"], 5, "", WORD_SYNTAX),
            (&["eval", "contains_ab", "a # b"], 5, "", WORD_SYNTAX),
            (&["eval", "contains_ab", ""], 5, "", WORD_SYNTAX),
            (&["eval", "greatest_cost", "a"], 9, "", RANGE),
            (&["eval", "pairs", "%"], 5, "", WORD_SYNTAX),
            (&["eval", "pairs", "a"], 6, "", WORD_LABEL),
            (&["eval", "pairs", "a|y"], 6, "", WORD_LABEL),
            (&["eval", "words", "c"], 6, "", WORD_LABEL),
        ],
    },
    Group {
        shows: "a file is refused before the word is read",
        out_takes: 1024,
        err_takes: 128,
        failing: &[],
        rows: &[
            (
                &["eval", "no_entries", "a"],
                5,
                "",
                "vcsnr: no_entries:4: not in the grammar\n",
            ),
            (
                &["eval", "cut_off", "a"],
                5,
                "",
                "vcsnr: cut_off:3: not in the grammar\n",
            ),
            (
                &["eval", "other_weights", "a"],
                5,
                "",
                "vcsnr: other_weights:1: not in the grammar\n",
            ),
            (&["eval", "past_range", "a"], 9, "", RANGE),
            (&["eval", "sum_past_range", "a"], 9, "", RANGE),
            (&["eval", "sum_past_range", "%"], 9, "", RANGE),
            (
                &["eval", "weight_of_z", "a"],
                5,
                "",
                "vcsnr: weight_of_z:2: not in the grammar\n",
            ),
            (
                &["eval", "open_weight", "a"],
                5,
                "",
                "vcsnr: open_weight:2: not in the grammar\n",
            ),
            (
                &["eval", "foreign_letter", "%"],
                6,
                "",
                "vcsnr: foreign_letter:2: not a label\n",
            ),
            (
                &["eval", "foreign_pair", "a"],
                6,
                "",
                "vcsnr: foreign_pair:2: not a label\n",
            ),
            (
                &["eval", "empty", "a"],
                5,
                "",
                "vcsnr: empty:1: not in the grammar\n",
            ),
            (
                &["eval", "not_held", "a"],
                3,
                "",
                "vcsnr: cannot read not_held\n",
            ),
            (&["eval", "-", "a"], 3, "", "vcsnr: cannot read -\n"),
        ],
    },
    Group {
        shows: "a file is refused at its first fault",
        out_takes: 1024,
        err_takes: 128,
        failing: &[],
        rows: &[
            (&["cat", "not_held"], 3, "", "vcsnr: cannot read not_held\n"),
            (
                &["cat", "no_entries"],
                5,
                "",
                "vcsnr: no_entries:4: not in the grammar\n",
            ),
            (
                &["cat", "cut_off"],
                5,
                "",
                "vcsnr: cut_off:3: not in the grammar\n",
            ),
            (
                &["cat", "empty"],
                5,
                "",
                "vcsnr: empty:1: not in the grammar\n",
            ),
            (
                &["cat", "foreign_letter"],
                6,
                "",
                "vcsnr: foreign_letter:2: not a label\n",
            ),
            (&["cat", "sum_past_range"], 9, "", RANGE),
        ],
    },
];
