//! The longest spellings at the fronts of texts.

use lexing::{Automaton, without_mark};
use std::test::Fail;

static COLUMNS: [u8; 131] = [
    3, 3, 3, 3, 3, 3, 3, 3, 3, 3, 3, 3, 3, 3, 3, 3, 3, 3, 3, 3, 3, 3, 3, 3, 3, 3, 3, 3, 3, 3, 3, 3,
    3, 3, 3, 3, 3, 3, 3, 3, 3, 3, 3, 3, 3, 3, 2, 3, 1, 1, 1, 1, 1, 1, 1, 1, 1, 1, 3, 3, 3, 3, 3, 3,
    3, 3, 3, 3, 3, 3, 3, 3, 3, 3, 3, 3, 3, 3, 3, 3, 3, 3, 3, 3, 3, 3, 3, 3, 3, 3, 3, 3, 3, 3, 3, 3,
    3, 3, 3, 3, 3, 3, 3, 3, 3, 3, 3, 3, 3, 3, 3, 3, 3, 3, 3, 3, 3, 3, 3, 3, 3, 3, 3, 3, 3, 3, 3, 3,
    3, 3, 3,
];

// From the row at 4 on: 0 is a whole number, 1 a decimal, 2 a point, 3 two points. The columns after the word are a
// digit, a point and any other symbol.
static ROWS: [u16; 28] = [
    0, 0, 0, 0, 0, 8, 20, 0, 1, 8, 12, 0, 0, 16, 0, 0, 2, 16, 0, 0, 3, 0, 24, 0, 4, 0, 0, 0,
];

fn numbers() -> Automaton<'static> {
    Automaton::new(&COLUMNS, &ROWS, 4, 4)
}

#[test]
fn takes_the_longest_spelling(rt: HostRuntime) -> Result<(), Fail> {
    let rows = [
        ("12.5x", 1, "12.5", "x"),
        ("12x", 0, "12", "x"),
        ("...", 3, "..", "."),
        // It goes back to the last spelling.
        ("1..2", 0, "1", "..2"),
    ];
    for (text, word, front, rest) in rows {
        let piece = numbers().next_piece(text).ok_or("no spelling")?;
        assert!(rt;
            piece.word == word && piece.text == front && piece.rest == rest,
            "{text}"
        );
    }
    assert!(rt; numbers().next_piece("x1").is_none() && numbers().next_piece("").is_none());
    // One mark is passed over.
    assert!(rt; without_mark("\u{feff}\u{feff}a") == "\u{feff}a");
    assert!(rt; without_mark("a\u{feff}") == "a\u{feff}");
    Ok(())
}
