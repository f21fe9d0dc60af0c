//! Words that ask for nothing that is built.

use super::rows::{Group, USAGE};

pub(super) const USAGES: &[Group] = &[
    Group {
        shows: "words that give no request are `Usage`",
        out_takes: 1024,
        err_takes: 128,
        failing: &[],
        rows: &[
            (&["eval"], 2, "", USAGE),
            (&["eval", "contains_ab", "-ab"], 2, "", USAGE),
            (&["eval", "-contains_ab", "ab"], 2, "", USAGE),
            (&["eval", "contains_ab", "ab", "--limit", "3"], 2, "", USAGE),
            (&["cat", "contains_ab", "--limit", "3"], 2, "", USAGE),
            (&["standard", "lal_char(ab), b"], 2, "", USAGE),
            (&["standard", "[ab], b", "a", "--limit", "0"], 2, "", USAGE),
            (
                &["standard", "[ab], b", "a", "--limit=1000001"],
                2,
                "",
                USAGE,
            ),
            (&["eval", "[ab], b", "a", "a", "--limit", "3"], 2, "", USAGE),
            (&["context", "lal_char(ab), b", "--limit=3"], 2, "", USAGE),
            (&["context", "-lal_char(ab), b"], 2, "", USAGE),
            (&["dog", "contains_ab"], 2, "", USAGE),
            (&[], 2, "", USAGE),
        ],
    },
    Group {
        shows: "a command that is not built is `Usage`, and reads nothing",
        out_takes: 1024,
        err_takes: 128,
        failing: &[],
        rows: &[
            (&["derived", "lal_char(ab), b", "a"], 2, "", USAGE),
            (
                &["compose", "contains_ab", "not_held", "--limit", "3"],
                2,
                "",
                USAGE,
            ),
            (&["compose", "pairs", "pairs"], 2, "", USAGE),
            (&["determinize", "contains_ab", "--limit=3"], 2, "", USAGE),
            (&["quotient", "contains_ab"], 2, "", USAGE),
            (
                &["to-expression", "contains_ab", "--order", "0,1,2"],
                2,
                "",
                USAGE,
            ),
            (&["reduce", "halves"], 2, "", USAGE),
            (&["generate", "3"], 2, "", USAGE),
            (&["generate", "0"], 2, "", USAGE),
        ],
    },
];
