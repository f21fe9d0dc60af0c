//! The files of the rows.

/// The names and the bytes of the files.
pub(super) const FILES: &[(&str, &str)] = &[
    (
        "contains_ab",
        "context = \"lal_char(ab), b\"\n$ -> 0\n0 -> 0 a, b\n0 -> 1 a\n1 -> 2 b\n2 -> 2 a, b\n2 -> $",
    ),
    (
        "gaps",
        "context = \"lal_char(a_Z9), b\"\n$ -> 7\n7 -> 3 a, a, _\n3 -> 7 Z\n3 -> $\n3 -> $\n$ -> 7\n",
    ),
    ("no_states", "context = \"lal_char(a), b\""),
    (
        "no_letters",
        "context = \"lal_char(), b\"\n$ -> 0\n0 -> $\n",
    ),
    (
        "no_entries",
        "context = \"lal_char(ab), b\"\n$ -> 0\n0 -> 0 a, b\n0 -> 1\n",
    ),
    ("cut_off", "context = \"lal_char(ab), b\"\n$ -> 0\n0 -> "),
    (
        "binary_value",
        "context = \"lal_char(ab), z\"\n$ -> 0\n0 -> 0 a, b\n0 -> 1 b\n1 -> 1 <2>a, <2>b\n1 -> $",
    ),
    (
        "greatest_cost",
        "context = \"lal_char(ab), nmin\"\n$ -> 0 <340282366920938463463374607431768211455>\n0 -> 1 <1>a\n0 -> 1 <oo>b\n0 -> $\n1 -> $",
    ),
    (
        "halves",
        "context = \"lal_char(ab), q\"\n$ -> 0\n0 -> 0 <1/2>a, <-2/4>b\n0 -> $ <6/3>\n",
    ),
    (
        "residues",
        "context = \"lal_char(ab), f2\"\n$ -> 0 <1>\n0 -> 1 a, a, <1>b\n1 -> $\n",
    ),
    (
        "past_range",
        "context = \"lal_char(a), z\"\n$ -> 0 <170141183460469231731687303715884105728>\n",
    ),
    (
        "sum_past_range",
        "context = \"lal_char(a), z\"\n0 -> $ <170141183460469231731687303715884105727>\n0 -> $\n",
    ),
    ("other_weights", "context = \"lal_char(ab), r\"\n$ -> 0\n"),
    ("weight_of_z", "context = \"lal_char(ab), b\"\n$ -> 0 <2>\n"),
    ("open_weight", "context = \"lal_char(ab), z\"\n0 -> 0 <2a\n"),
    (
        "blank_in_entry",
        "context = \"lal_char(ab), z\"\n0 -> 0 <2> a\n",
    ),
    (
        "foreign_letter",
        "context = \"lal_char(ab), b\"\n0 -> 1 c\n",
    ),
    (
        "equal_entries",
        "context = \"lan_char(a), f2\"\n0 -> 0 \\e, \\e\n",
    ),
    (
        "pairs",
        "context = [ab]? x [x\\|]* -> z\n0 -> 0 <-2>a|\\|x, \\e|'x'\n$ -> 0\n0 -> $\n",
    ),
    ("foreign_pair", "context = [ab]? x [x]* -> z\n0 -> 0 c|x\n"),
    ("words", "context = [ab]*, z\n1 -> 10 ab, \\e, ab\n"),
    (
        "costs",
        "context = \"lan_char(a), nmin\"\n$ -> 0\n0 -> 0 <1>\\e\n0 -> 1 <3>\\e\n1 -> 1 <2>a\n1 -> $",
    ),
    (
        "two_paths",
        "context = \"lan_char(a), z\"\n$ -> 0\n0 -> 1 \\e\n0 -> 2 \\e\n1 -> 3 \\e\n2 -> 3 <2>\\e\n3 -> 3 a\n3 -> $ <5>\n",
    ),
    (
        "steep",
        "context = \"lan_char(a), z\"\n$ -> 0\n0 -> 1 <170141183460469231731687303715884105727>\\e\n1 -> 2 <2>\\e\n2 -> $\n",
    ),
    ("empty_loop", "context = \"lan_char(a), f2\"\n0 -> 0 \\e"),
    (
        "empty_pair_loop",
        "context = [ab]? x [x]* -> q\n0 -> 1 \\e|\\e\n1 -> 0 <1/2>\\e|\\e, a|x\n",
    ),
    (
        "useless",
        "context = \"lal_char(ab), b\"\n$ -> 0\n0 -> 1 a\n0 -> 2 b\n1 -> $",
    ),
    (
        "useless_between",
        "context = \"lal_char(ab), z\"\n$ -> 1 <3>\n0 -> 1 a\n1 -> 3 <2>b\n1 -> 4 a\n2 -> 3 a\n3 -> $ <-1>\n",
    ),
    (
        "one_word",
        "context = \"lal_char(ab), z\"\n$ -> 0\n0 -> 1 a\n1 -> 2 b\n2 -> $\n",
    ),
    ("blank_line", "context = \"lal_char(ab), b\"\n\n$ -> 0\n"),
    ("empty", ""),
    ("realistic", REALISTIC),
    ("forty_states", FORTY_STATES),
    ("twenty_letters", TWENTY_LETTERS),
    ("four_tapes", FOUR_TAPES),
];

/// A file with a comment, quoted names and classes.
pub(super) const REALISTIC: &str =
    "# b in the last place but one\ncontext = \"letterset<char_letters(ab)>, b\"\n$ -> \"start\"\n\"start\" -> \"start\" [ab]   // stay\n\"start\" -> seen b\nseen -> \"end\" [^]\n\"end\" -> $\n";

/// A chain of forty states, in its canonical text.
pub(super) const FORTY_STATES: &str =
    "context = \"lal_char(ab), z\"\n$ -> 0\n0 -> 1 a, <2>b\n1 -> 2 a, <2>b\n2 -> 3 a, <2>b\n3 -> 4 a, <2>b\n4 -> 5 a, <2>b\n5 -> 6 a, <2>b\n6 -> 7 a, <2>b\n7 -> 8 a, <2>b\n8 -> 9 a, <2>b\n9 -> 10 a, <2>b\n10 -> 11 a, <2>b\n11 -> 12 a, <2>b\n12 -> 13 a, <2>b\n13 -> 14 a, <2>b\n14 -> 15 a, <2>b\n15 -> 16 a, <2>b\n16 -> 17 a, <2>b\n17 -> 18 a, <2>b\n18 -> 19 a, <2>b\n19 -> 20 a, <2>b\n20 -> 21 a, <2>b\n21 -> 22 a, <2>b\n22 -> 23 a, <2>b\n23 -> 24 a, <2>b\n24 -> 25 a, <2>b\n25 -> 26 a, <2>b\n26 -> 27 a, <2>b\n27 -> 28 a, <2>b\n28 -> 29 a, <2>b\n29 -> 30 a, <2>b\n30 -> 31 a, <2>b\n31 -> 32 a, <2>b\n32 -> 33 a, <2>b\n33 -> 34 a, <2>b\n34 -> 35 a, <2>b\n35 -> 36 a, <2>b\n36 -> 37 a, <2>b\n37 -> 38 a, <2>b\n38 -> 39 a, <2>b\n39 -> $\n";

/// Labels of twenty letters, in a canonical text.
pub(super) const TWENTY_LETTERS: &str =
    "context = \"law_char(ab), q\"\n$ -> 0 <1/3>\n0 -> 1 abbabaabbaababbabaab, <-2/7>babababababababababa\n1 -> $\n";

/// Labels over four tapes, in a canonical text.
pub(super) const FOUR_TAPES: &str =
    "context = \"lat<lal_char(a), lan_char(bc), law_char(d), lal_char(ef)>, nmin\"\n$ -> 0\n0 -> 0 a|\\e|dd|f, <3>a|b|\\e|e\n0 -> 1 <2>a|c|ddd|e\n1 -> $ <5>\n";
