//! How deep brackets nest: 64 may be open at once, and what is closed before it is opened doesn't count.

use crate::answer::{Answer, answer_of};
use crate::text::{Times, text_of};
use std::test::Fail;

#[test]
fn at_most_64_are_open(rt: HostRuntime) -> Result<(), Fail> {
    let texts: [(&[Times<'_>], Answer); 12] = [
        // the 63 parentheses and the brace before them are 64
        (
            &[
                ("fn main() { ", 1),
                ("(", 63),
                ("1", 1),
                (")", 63),
                (" }", 1),
            ],
            Answer::Tree,
        ),
        (
            &[
                ("fn main() { ", 1),
                ("(", 64),
                ("1", 1),
                (")", 64),
                (" }", 1),
            ],
            Answer::Nesting(1, 76),
        ),
        (&[("fn main() { ", 1), ("(", 65)], Answer::Nesting(1, 76)),
        (&[("fn main() { ", 1), ("(", 63)], Answer::Syntax(1, 76)),
        (
            &[("fn main() {\n", 1), ("if a {", 63), ("}", 63), ("}", 1)],
            Answer::Tree,
        ),
        (
            &[("fn main() {\n", 1), ("if a {", 64), ("}", 64), ("}", 1)],
            Answer::Nesting(2, 384),
        ),
        (&[("fn main() {", 1), ("{}", 100)], Answer::Syntax(1, 12)),
        (
            &[("fn main() {", 1), (" f();", 100), (" }", 1)],
            Answer::Tree,
        ),
        // square brackets don't count
        (&[("[", 100)], Answer::Syntax(1, 1)),
        // the count never goes below 0
        (&[(")", 3), ("(", 64)], Answer::Syntax(1, 1)),
        (&[(")", 3), ("(", 65)], Answer::Nesting(1, 68)),
        (
            &[("}", 1), ("(", 64), (")", 1), ("((", 1)],
            Answer::Nesting(1, 68),
        ),
    ];
    for (pieces, expected) in texts {
        let text = text_of(rt.alloc(), pieces)?;
        assert_eq!(rt; answer_of(rt.alloc(), &text), expected, "{text:?}");
    }
    Ok(())
}
