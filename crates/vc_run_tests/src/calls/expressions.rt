//! Calls that read an expression.

use super::rows::{CONTEXT_SYNTAX, CONTEXTS, Group, RANGE, UNWRITTEN};

pub(super) const EXPRESSIONS: &[Group] = &[
    Group {
        shows: "an expression is printed in its one text",
        out_takes: 256,
        err_takes: 128,
        failing: &[],
        rows: &[
            (
                &["expr", "lal_char(ab), z", "a<2>b+\\z+(\\e)(a+(b))"],
                0,
                "<2>(ab)+a+b\n",
                "",
            ),
            (
                &["expr", "lal_char(ab), z", "(<2>a)*b"],
                0,
                "(<2>a)*b\n",
                "",
            ),
            (&["expr", "lal_char(ab), z", "<2>a*b"], 0, "<2>(a*b)\n", ""),
            (&["expr", "lal_char(ab), z", "<2>(a*)<3>"], 0, "<6>a*\n", ""),
            (
                &["expr", "lal_char(ab), z", "a : b & a b + b"],
                0,
                "a:b&ab+b\n",
                "",
            ),
            (
                &["expr", "lal_char(ab), z", "(a:b)&(a+b)"],
                0,
                "(a:b)&(a+b)\n",
                "",
            ),
            (
                &["expr", "lal_char(ab), z", "a&(b&a):\\e"],
                0,
                "a&(b&a)\n",
                "",
            ),
            (&["expr", "lal_char(ab), z", "\\z*"], 0, "\\e\n", ""),
            (&["expr", "[a-d], b", "[^b]*[ca][x-z]"], 0, "\\z\n", ""),
            (&["expr", "[a-d], b", "[^b]*[ca]"], 0, "(a+c+d)*(a+c)\n", ""),
            (&["expr", "[ab]?, f2", "''a<0>+'b'+a+a"], 0, "b+a+a\n", ""),
            (
                &["expr", "[ab]*, q", "'ab'<2/4>b\\e"],
                0,
                "<1/2>('ab'b)\n",
                "",
            ),
            (
                &["expr", "[ab] x [x\\-]*, nmin", "<3>a|'x\\-'+\\e|\\e*"],
                0,
                "<3>a|'x\\-'+\\e*\n",
                "",
            ),
        ],
    },
    Group {
        shows: "an expression is refused at its first fault",
        out_takes: 256,
        err_takes: 128,
        failing: &[],
        rows: &[
            (&["expr", "lal_char(ab)", "a+"], 5, "", CONTEXT_SYNTAX),
            (
                &["expr", "lal_char(ab), z", ""],
                5,
                "",
                "vcsnr: expression:0: not in the grammar\n",
            ),
            (
                &["expr", "lal_char(ab), z", "a+"],
                5,
                "",
                "vcsnr: expression:2: not in the grammar\n",
            ),
            (
                &["expr", "lal_char(ab), z", "a%b"],
                5,
                "",
                "vcsnr: expression:1: not in the grammar\n",
            ),
            (
                &["expr", "lal_char(ab), z", "a<x>"],
                5,
                "",
                "vcsnr: expression:1: not in the grammar\n",
            ),
            (
                &["expr", "lal_char(ab), z", "ac"],
                6,
                "",
                "vcsnr: expression:1: not a label\n",
            ),
            (
                &["expr", "lal_char(ab), z", "a[^c]"],
                6,
                "",
                "vcsnr: expression:1: not a label\n",
            ),
            (
                &["expr", "lal_char(ab), z", "b+a|b&c"],
                6,
                "",
                "vcsnr: expression:2: not a label\n",
            ),
            (
                &["expr", "[ab] x [xy], z", "a|x[a]"],
                6,
                "",
                "vcsnr: expression:3: not a label\n",
            ),
            (&["expr", "law_char(ab), z", "a&b"], 11, "", CONTEXTS),
            (
                &[
                    "expr",
                    "lal_char(ab), z",
                    "\\e*<170141183460469231731687303715884105728>",
                ],
                9,
                "",
                RANGE,
            ),
            (
                &["expr", "lal_char(ab), z", "a(\\e+b)*"],
                7,
                "",
                "vcsnr: star is not defined\n",
            ),
        ],
    },
    Group {
        shows: "the text of an expression is printed in part where the sink takes no more",
        out_takes: 3,
        err_takes: 128,
        failing: &[],
        rows: &[(&["expr", "lal_char(ab), z", "a+b+a"], 4, "a+b", UNWRITTEN)],
    },
];
