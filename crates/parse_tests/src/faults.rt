//! Texts with their answers: a tree, or the first fault.

use crate::answer::{Answer, answer_of, name_twice};
use std::alloc::Global;
use std::process::Abort;
use std::test::Fail;

fn all_are<A: Abort>(rt: &A, alloc: Global, texts: &[(&str, Answer)]) {
    for (text, expected) in texts {
        assert_eq!(rt; answer_of(alloc, text), *expected, "{text:?}");
    }
}

#[test]
fn items_begin_as_written(rt: HostRuntime) {
    let texts = [
        ("pub #[inline] fn f() {}", Answer::Syntax(1, 5)),
        ("pub use a;", Answer::Syntax(1, 5)),
        ("#[inline] const A: i64 = 1;", Answer::Syntax(1, 11)),
        ("#[inline] mod m {}", Answer::Syntax(1, 11)),
        ("#[inline] #[inline] fn f() {}", Answer::Syntax(1, 11)),
        ("#[inline] pub const A: i64 = 1;", Answer::Syntax(1, 15)),
        ("#[inline] pub mod m {}", Answer::Syntax(1, 15)),
        ("#[inline] pub fn f() {}", Answer::Tree),
        ("#[inline] fn f() {}", Answer::Tree),
        ("#[f] fn f() {}", Answer::Syntax(1, 3)),
        ("use a;", Answer::Syntax(1, 1)),
        ("f() {}", Answer::Syntax(1, 1)),
        ("fn return() {}", Answer::Syntax(1, 4)),
        ("fn println() {}", Answer::Syntax(1, 4)),
        ("fn f{}", Answer::Syntax(1, 5)),
        ("fn f() -> {}", Answer::Syntax(1, 11)),
        ("fn f(x) {}", Answer::Syntax(1, 7)),
        ("fn f(x: f) {}", Answer::Syntax(1, 9)),
        ("const A = 1;", Answer::Syntax(1, 9)),
        ("mod m { mod n {} }", Answer::Syntax(1, 9)),
        ("mod m { pub mod n {} }", Answer::Syntax(1, 13)),
        ("mod m { fn f() {} } }", Answer::Syntax(1, 21)),
        ("fn f() {} ;", Answer::Syntax(1, 11)),
        ("fn f(a: i64,) {}", Answer::Tree),
        ("fn f(,) {}", Answer::Syntax(1, 6)),
        ("fn f(a: i64,,) {}", Answer::Syntax(1, 13)),
    ];
    all_are(&rt, rt.alloc(), &texts);
}

#[test]
fn statements_are_as_written(rt: HostRuntime) {
    let texts = [
        ("fn main() { return }", Answer::Syntax(1, 20)),
        ("fn main() { return; }", Answer::Tree),
        ("fn f() { let 1 = 2; }", Answer::Syntax(1, 14)),
        ("fn f() { let mut = 1; }", Answer::Syntax(1, 18)),
        ("fn f() { let x + 1; }", Answer::Syntax(1, 16)),
        ("fn f() { let x = 1 }", Answer::Syntax(1, 20)),
        ("fn f() { x = 1; }", Answer::Tree),
        ("fn f() { x == 1; }", Answer::Tree),
        ("fn f() { m::x = 1; }", Answer::Syntax(1, 15)),
        ("fn f() { crate::x = 1; }", Answer::Syntax(1, 19)),
        ("fn f() { crate::m::x = 1; }", Answer::Syntax(1, 22)),
        ("fn f() { (x) = 1; }", Answer::Syntax(1, 14)),
        ("fn f() { x + = 1; }", Answer::Syntax(1, 14)),
        ("fn f() { x = y = 1; }", Answer::Syntax(1, 16)),
        ("fn f() { ; }", Answer::Syntax(1, 10)),
        ("fn f() { fn g() {} }", Answer::Syntax(1, 10)),
        ("fn f() { match a {} }", Answer::Syntax(1, 10)),
        ("fn f() { println(\"{}\", 1); }", Answer::Syntax(1, 17)),
        ("fn f() { println!(1, 2); }", Answer::Syntax(1, 19)),
        ("fn f() { println!(\"{}\"); }", Answer::Syntax(1, 23)),
        ("fn f() { println!(\"{}\", 1,); }", Answer::Syntax(1, 26)),
        ("fn f() { if a {} else x }", Answer::Syntax(1, 23)),
        ("fn f() { if a {} else {} else {} }", Answer::Syntax(1, 26)),
        ("fn f() { while {} }", Answer::Syntax(1, 16)),
    ];
    all_are(&rt, rt.alloc(), &texts);
}

#[test]
fn a_tail_stands_in_a_function_alone(rt: HostRuntime) {
    let texts = [
        ("fn f() -> i64 { 1 }", Answer::Tree),
        ("fn f() -> i64 { if a {} 1 }", Answer::Tree),
        ("fn f() { if a { 1 } }", Answer::Syntax(1, 19)),
        ("fn f() { while a { 1 } }", Answer::Syntax(1, 22)),
        ("fn f() { if a {} else { 1 } }", Answer::Syntax(1, 27)),
        ("fn f() { if a {} else if b { 1 } }", Answer::Syntax(1, 32)),
        ("fn f() { 1 2 }", Answer::Syntax(1, 12)),
        ("fn f() { 1 let x = 2; }", Answer::Syntax(1, 12)),
        ("fn f() { (if) }", Answer::Syntax(1, 11)),
    ];
    all_are(&rt, rt.alloc(), &texts);
}

#[test]
fn expressions_are_as_written(rt: HostRuntime) {
    let texts = [
        ("fn f() { a < b < c; }", Answer::Syntax(1, 16)),
        ("fn f() { a == b != c; }", Answer::Syntax(1, 17)),
        ("fn f() { (a < b) == (c < d); }", Answer::Tree),
        ("fn f() { --x; }", Answer::Syntax(1, 11)),
        ("fn f() { !!x; }", Answer::Syntax(1, 11)),
        ("fn f() { !-x; }", Answer::Syntax(1, 11)),
        ("fn f() { a + --x; }", Answer::Syntax(1, 15)),
        ("fn f() { a - -x; }", Answer::Tree),
        ("fn f() { f(a)(b); }", Answer::Syntax(1, 14)),
        ("fn f() { (f)(b); }", Answer::Syntax(1, 13)),
        ("fn f() { 1(b); }", Answer::Syntax(1, 11)),
        ("fn f() { f(a,); }", Answer::Tree),
        ("fn f() { f(,); }", Answer::Syntax(1, 12)),
        ("fn f() { f(a,,); }", Answer::Syntax(1, 14)),
        ("fn f() { f(a b); }", Answer::Syntax(1, 14)),
        ("fn f() { () }", Answer::Syntax(1, 11)),
        ("fn f() { (a,) }", Answer::Syntax(1, 12)),
        ("fn f() { a b; }", Answer::Syntax(1, 12)),
        ("fn f() { a && || b; }", Answer::Syntax(1, 15)),
        ("fn f() { a * * b; }", Answer::Syntax(1, 14)),
        ("fn f() { a::b::c; }", Answer::Syntax(1, 14)),
        ("fn f() { crate::a::b::c; }", Answer::Syntax(1, 21)),
        ("fn f() { crate; }", Answer::Syntax(1, 15)),
        ("fn f() { a::crate; }", Answer::Syntax(1, 13)),
        ("fn f() { a::1; }", Answer::Syntax(1, 13)),
        ("fn f() { \"{}\"; }", Answer::Syntax(1, 10)),
    ];
    all_are(&rt, rt.alloc(), &texts);
}

#[test]
fn a_text_that_ends_in_the_middle_fails_at_its_end(rt: HostRuntime) {
    let texts = [
        ("", Answer::Tree),
        (" \n// nothing", Answer::Tree),
        ("fn", Answer::Syntax(1, 3)),
        ("pub", Answer::Syntax(1, 4)),
        ("#[inline]", Answer::Syntax(1, 10)),
        ("const A: i64 = 1", Answer::Syntax(1, 17)),
        ("fn f() {", Answer::Syntax(1, 9)),
        ("fn f() { 1", Answer::Syntax(1, 11)),
        ("fn f() { 1 ", Answer::Syntax(1, 12)),
        ("fn f() {\n", Answer::Syntax(2, 1)),
        ("fn f() {\n  f(1, // the rest", Answer::Syntax(2, 19)),
        ("mod m {", Answer::Syntax(1, 8)),
        ("mod m { fn f() {}", Answer::Syntax(1, 18)),
        ("fn f() { if a {}", Answer::Syntax(1, 17)),
    ];
    all_are(&rt, rt.alloc(), &texts);
}

#[test]
fn names_are_defined_once(rt: HostRuntime) {
    let texts = [
        ("fn f() {} fn f() {}", Answer::Twice(1, 14)),
        ("fn f() {} fn f() {} fn f() {}", Answer::Twice(1, 14)),
        ("mod m { fn ab() {} pub fn ab() {} }", Answer::Twice(1, 27)),
        ("mod m { fn f() {} } mod n { fn f() {} }", Answer::Tree),
        ("mod m { fn f() {} } fn f() {}", Answer::Tree),
        ("mod m {} pub mod m {}", Answer::Twice(1, 18)),
        ("fn f() {} const f: i64 = 1;", Answer::Twice(1, 17)),
        ("const f: i64 = 1;\nfn f() {}", Answer::Twice(2, 4)),
        ("mod f {} fn f() {}", Answer::Tree),
        ("fn f() {} mod f { fn f() {} }", Answer::Tree),
        ("fn f() {} fn F() {}", Answer::Tree),
        (
            "fn f(a: i64, a: i64) { let a = 1; let a = 2; }",
            Answer::Tree,
        ),
        (
            "fn f() {} fn f() {} mod m {} mod m {}",
            Answer::Twice(1, 14),
        ),
        (
            "mod m {} mod m {} fn f() {} fn f() {}",
            Answer::Twice(1, 14),
        ),
        (
            "mod m {} fn f() {} mod n {} fn f() {} mod m {}",
            Answer::Twice(1, 32),
        ),
        (
            "mod m {} mod m { fn f() {} fn f() {} }",
            Answer::Twice(1, 14),
        ),
        (
            "mod m { fn f() {} } mod m { fn f() {} }",
            Answer::Twice(1, 25),
        ),
        (
            "mod m { fn f() {} fn f() {} } mod m {}",
            Answer::Twice(1, 22),
        ),
    ];
    all_are(&rt, rt.alloc(), &texts);
}

#[test]
fn the_first_kind_of_fault_is_given(rt: HostRuntime) {
    let texts = [
        ("fn f() {} fn f() {} } $", Answer::Lexing(1, 23)),
        ("fn f( <- )", Answer::Lexing(1, 7)),
        ("fn f() {} fn f() {} }", Answer::Syntax(1, 21)),
        ("mod m {} mod m { 1 }", Answer::Syntax(1, 18)),
        ("fn f() {}\nfn f() {", Answer::Syntax(2, 9)),
    ];
    all_are(&rt, rt.alloc(), &texts);
}

#[test]
fn a_name_twice_is_told(rt: HostRuntime) -> Result<(), Fail> {
    for text in [
        "fn ab() {} const ab: i64 = 1; mod m {} mod m {}",
        "mod ab {} mod ab { fn f() {} fn f() {} }",
        "mod m { fn ab() {} fn ab() {} }",
    ] {
        let name = name_twice(rt.alloc(), text).ok_or("no name")?;
        assert_eq!(rt; name.as_slice(), b"ab".as_slice(), "{text:?}");
    }
    Ok(())
}
