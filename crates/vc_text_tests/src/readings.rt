//! Tests of `vc_reader`: daut files that are read.

use std::test::Fail;
use vc_atoms::Letters;
use vc_basic::Z;
use vc_label::Alphabet;
use vc_reader::{DautFault, read_daut};

#[test]
fn states_are_numbered_by_their_names(rt: HostRuntime) -> Result<(), Fail> {
    let labels = Letters::new(Alphabet::new().with(b'a').with(b'b'));
    let file = b"# b in the last place but one\n\
        context = \"letterset<char_letters(ab)>, z\"\n\
        $ -> \"start\"\n\
        \"start\" -> \"start\" [ab]   // stay\n\
        \"start\" -> seen <2>b, b\n\
        seen -> \"end\" [^]\n\
        \"end\" -> $\r\n";
    let aut = read_daut::<Letters, Z>(rt.alloc(), file, labels)?;
    assert_eq!(rt; aut.states(), 3);
    assert_eq!(rt; aut.initial_weight(2), 1);
    assert_eq!(rt; aut.final_weight(0), 1);
    let from_start = aut.transitions_from(2);
    assert_eq!(rt; from_start.len(), 3);
    assert_eq!(rt; (from_start[1].to, from_start[1].weight), (1, 3));
    assert_eq!(rt; aut.transitions_from(1).len(), 2);
    Ok(())
}

#[test]
fn the_first_bad_line_is_named(rt: HostRuntime) -> Result<(), Fail> {
    let labels = Letters::new(Alphabet::new().with(b'a').with(b'b'));
    let file = b"context = lal_char(ab), z\n0 -> 1 c\n0 -> 1\n0 -> ";
    match read_daut::<Letters, Z>(rt.alloc(), file, labels) {
        Err(DautFault::Syntax { line }) => assert_eq!(rt; line, 3),
        _ => assert!(rt; false),
    }
    match read_daut::<Letters, Z>(rt.alloc(), &file[..35], labels) {
        Err(DautFault::NotALabel { line, from, to }) => {
            assert_eq!(rt; (line, from, to), (2, 7, 8))
        }
        _ => assert!(rt; false),
    }
    Ok(())
}
