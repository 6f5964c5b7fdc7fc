//! Texts with their trees: each form of the grammar once, with the places of some.

use crate::answer::tree_of;
use crate::print::Printed;
use crate::print_statement::printed;
use rs_tree::Token;
use std::alloc::{AllocError, Global};
use std::process::Abort;
use std::test::Fail;

/// The printed tree of a text, or nothing where it has none.
fn print(alloc: Global, text: &str, places: bool) -> Result<String, AllocError> {
    match tree_of(alloc, text) {
        Ok(tree) => printed(alloc, &tree, places),
        Err(_) => String::from_str(alloc, "no tree"),
    }
}

fn all_are<A: Abort>(rt: &A, alloc: Global, texts: &[(&str, &str)]) -> Result<(), Fail> {
    for (text, expected) in texts {
        let tree = print(alloc, text, false)?;
        assert_eq!(rt; tree.as_str(), *expected, "{text:?}");
    }
    Ok(())
}

/// What stands in a function's braces, with what it is printed as.
fn bodies_are<A: Abort>(rt: &A, alloc: Global, bodies: &[(&str, &str)]) -> Result<(), Fail> {
    for (body, expected) in bodies {
        let text = format!(in alloc; "fn f() {{ {body} }}")?;
        let expected = format!(in alloc; "(fn f () unit {expected})")?;
        let tree = print(alloc, &text, false)?;
        assert_eq!(rt; tree.as_str(), expected.as_str(), "{text:?}");
    }
    Ok(())
}

#[test]
fn items(rt: HostRuntime) -> Result<(), Fail> {
    let texts = [
        ("", ""),
        ("mod m {}", "(mod m)"),
        (
            "pub mod m { fn f() {} pub const A: bool = true; } fn g() {}",
            "(mod m)(fn m::f () unit)(pub const m::A bool true)(fn g () unit)",
        ),
        (
            "fn f() {} mod a {} mod b { fn f() {} }",
            "(mod a)(mod b)(fn f () unit)(fn b::f () unit)",
        ),
        ("const A: i64 = 1_000;", "(const A i64 1000)"),
        ("pub const B: bool = false;", "(pub const B bool false)"),
        ("pub fn f() {}", "(pub fn f () unit)"),
        ("fn f(a: i64) -> i64 { a }", "(fn f (a i64) i64 (tail a))"),
        (
            "#[inline] fn f(a: bool, b: i64) -> bool { a }",
            "(inline fn f (a bool b i64) bool (tail a))",
        ),
        (
            "#[inline] pub fn f(a: i64, b: bool,) {}",
            "(pub inline fn f (a i64 b bool) unit)",
        ),
    ];
    all_are(&rt, rt.alloc(), &texts)
}

#[test]
fn statements(rt: HostRuntime) -> Result<(), Fail> {
    let bodies = [
        ("let x = 1;", "(let x 1)"),
        ("let mut x: i64 = 1;", "(let mut x i64 1)"),
        ("let x: bool = true;", "(let x bool true)"),
        ("x = a + 1;", "(= x (arith a (+ 1)))"),
        ("x == 1;", "(eval (== x 1))"),
        ("return;", "(return)"),
        ("return a;", "(return a)"),
        ("f();", "(eval (call f))"),
        ("a; b", "(eval a) (tail b)"),
        ("while a { b; c = 1; }", "(while a (eval b) (= c 1))"),
        ("while a {} 1", "(while a) (tail 1)"),
        ("if a {}", "(if (a))"),
        (
            "if a { b; } else { c; }",
            "(if (a (eval b)) (else (eval c)))",
        ),
        (
            "if a { b; } else if c { d; } else if e {} else { g; }",
            "(if (a (eval b)) (c (eval d)) (e) (else (eval g)))",
        ),
        ("if a {} else if b {}", "(if (a) (b))"),
        ("if a { if b {} else {} }", "(if (a (if (b) (else))))"),
        ("if a {} (b)", "(if (a)) (tail (group b))"),
        (
            "while a { while b { return; } }",
            "(while a (while b (return)))",
        ),
        ("println!(\"{}\", a + 1);", "(print (arith a (+ 1)))"),
    ];
    bodies_are(&rt, rt.alloc(), &bodies)
}

#[test]
fn expressions(rt: HostRuntime) -> Result<(), Fail> {
    let bodies = [
        ("9223372036854775807", "(tail 9223372036854775807)"),
        ("true", "(tail true)"),
        ("false", "(tail false)"),
        ("a || b || c", "(tail (or a b c))"),
        ("a || b && c || d", "(tail (or a (and b c) d))"),
        ("a && b && c == d", "(tail (and a b (== c d)))"),
        ("a != b", "(tail (!= a b))"),
        ("a < b", "(tail (< a b))"),
        ("a > b", "(tail (> a b))"),
        ("a <= b", "(tail (<= a b))"),
        ("a >= b", "(tail (>= a b))"),
        (
            "a + 1 < b * 2",
            "(tail (< (arith a (+ 1)) (arith b (* 2))))",
        ),
        ("a + b - c", "(tail (arith a (+ b) (- c)))"),
        ("a * b + c", "(tail (arith (arith a (* b)) (+ c)))"),
        (
            "a + b * c - d / e % g",
            "(tail (arith a (+ (arith b (* c))) (- (arith d (/ e) (% g)))))",
        ),
    ];
    bodies_are(&rt, rt.alloc(), &bodies)
}

#[test]
fn operands(rt: HostRuntime) -> Result<(), Fail> {
    let bodies = [
        ("-1", "(tail (- 1))"),
        ("-a + b", "(tail (arith (- a) (+ b)))"),
        ("a - -b", "(tail (arith a (- (- b))))"),
        ("!a && b", "(tail (and (! a) b))"),
        ("-f(1)", "(tail (- (call f 1)))"),
        ("!(a || b)", "(tail (! (group (or a b))))"),
        ("(a)", "(tail (group a))"),
        (
            "((a + b) * c)",
            "(tail (group (arith (group (arith a (+ b))) (* c))))",
        ),
        ("m::x", "(tail m::x)"),
        ("crate::x", "(tail crate::x)"),
        ("crate::m::x", "(tail crate::m::x)"),
        ("f()", "(tail (call f))"),
        ("m::f(a, 1 + 2)", "(tail (call m::f a (arith 1 (+ 2))))"),
        ("crate::f(a,)", "(tail (call crate::f a))"),
        (
            "crate::m::f(g(a), b)",
            "(tail (call crate::m::f (call g a) b))",
        ),
    ];
    bodies_are(&rt, rt.alloc(), &bodies)
}

#[test]
fn places(rt: HostRuntime) -> Result<(), Fail> {
    let texts = [
        (
            "mod m {\n  pub fn g(ab: i64) -> i64 {\n    let c = ab + 1;\n    return c;\n  }\n}\n",
            "(mod m)@2:3(pub fn m::g@0:7 (ab@0:9 i64) i64 \
             (let c@1:9 (arith ab@1:13@1:13 (+ 1@1:18))@1:13) (return@2:5 c@2:12@2:12))",
        ),
        (
            "// first\nconst A: i64 =\n -f(1) * 2;",
            "@2:1(const A@0:6 i64 (arith (- (call f@1:3 1@1:5)@1:3)@1:2 (* 2@1:10))@1:2)",
        ),
        (
            " fn f() {} #[inline] fn g() { x = (a); m::y }",
            "@1:2(fn f@0:3 () unit)@1:12(inline fn g@0:13 () unit \
             (= x@0:19 (group a@0:24@0:24)@0:23) (tail m::y@0:28@0:28))",
        ),
    ];
    for (text, expected) in texts {
        let tree = print(rt.alloc(), text, true)?;
        assert_eq!(rt; tree.as_str(), expected, "{text:?}");
    }
    Ok(())
}

fn tokens(alloc: Global, all: &[Token]) -> Result<String, AllocError> {
    let mut out = Printed {
        text: String::new(alloc),
        places: true,
    };
    for token in all {
        out.name(token.text.as_slice())?;
        out.place(token.at)?;
        out.add(" ")?;
    }
    let Printed { text, .. } = out;
    Ok(text)
}

#[test]
fn items_have_their_tokens(rt: HostRuntime) -> Result<(), Fail> {
    let text = "const A: bool = true; mod m {\n fn f() {\n} // f\n}\n";
    let tree = tree_of(rt.alloc(), text)?;
    let items = tree.items.as_slice();
    assert_eq!(rt; items.len(), 2);
    let first = tokens(rt.alloc(), items[0].item.tokens.as_slice())?;
    assert_eq!(rt;
        first.as_str(),
        "const@0:0 A@0:6 :@0:7 bool@0:9 =@0:14 true@0:16 ;@0:20 "
    );
    let second = tokens(rt.alloc(), items[1].item.tokens.as_slice())?;
    assert_eq!(rt; second.as_str(), "fn@0:0 f@0:3 (@0:4 )@0:5 {@0:7 }@1:1 ");
    Ok(())
}
