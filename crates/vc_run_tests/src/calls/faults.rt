//! Reads and sinks that fail.

use super::rows::{Group, UNWRITTEN, WORD_LABEL};

pub(super) const FAULTS: &[Group] = &[
    Group {
        shows: "a read that fails is no shorter file",
        out_takes: 1024,
        err_takes: 128,
        failing: &[0],
        rows: &[
            (
                &["eval", "contains_ab", "ab"],
                3,
                "",
                "vcsnr: cannot read contains_ab\n",
            ),
            (
                &["cat", "contains_ab"],
                3,
                "",
                "vcsnr: cannot read contains_ab\n",
            ),
            (&["context", "lal_char(ab), b"], 0, "lal_char(ab), b\n", ""),
        ],
    },
    Group {
        shows: "a sink that takes nothing is a write fault",
        out_takes: 0,
        err_takes: 128,
        failing: &[],
        rows: &[
            (&["eval", "contains_ab", "ab"], 4, "", UNWRITTEN),
            (&["eval", "contains_ab", "ac"], 6, "", WORD_LABEL),
        ],
    },
    Group {
        shows: "a sink keeps the front that it takes",
        out_takes: 10,
        err_takes: 128,
        failing: &[],
        rows: &[
            (&["cat", "contains_ab"], 4, "context = ", UNWRITTEN),
            (&["eval", "contains_ab", "ab"], 0, "1\n", ""),
        ],
    },
    Group {
        shows: "a fault of the error sink changes no status",
        out_takes: 1024,
        err_takes: 7,
        failing: &[],
        rows: &[
            (&["cat", "not_held"], 3, "", "vcsnr: "),
            (&["eval", "contains_ab", "ac"], 6, "", "vcsnr: "),
            (&["eval"], 2, "", "vcsnr: "),
            (&["eval", "contains_ab", "ab"], 0, "1\n", ""),
        ],
    },
    Group {
        shows: "both sinks may fail",
        out_takes: 0,
        err_takes: 0,
        failing: &[],
        rows: &[
            (&["cat", "contains_ab"], 4, "", ""),
            (&["cat", "empty"], 5, "", ""),
        ],
    },
];
