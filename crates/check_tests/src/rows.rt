//! Texts with the lines of their items.

use crate::text::lines_of;
use rs_tree::Const;
use std::test::Fail;

#[test]
fn lines_of_texts(rt: HostRuntime) -> Result<(), Fail> {
    let good = Const::Int(1);
    let rows = [
        // a last expression of another type, and a call without its argument
        (
            "fn f(a: i64) -> bool { a }\nfn main() { f(); }",
            good,
            "error[E103] 1:24: expected bool, found i64\nerror[E104] 2:13: expected 1 arguments, found 0\n",
        ),
        // lines count from 1 in the text
        (
            "fn main() { let a = 1; println!(\"{}\", 2); }",
            good,
            "warning[W201] 1:17: unused variable `a`\n",
        ),
        (
            "\nfn main() { let a = 1; println!(\"{}\", 2); }",
            good,
            "warning[W201] 2:17: unused variable `a`\n",
        ),
        // what is private or nowhere, as a value, a call and an assigned name
        (
            "mod m { fn p() {} } fn f() { m::p(); x; y = 1; crate::m::q(); m::p; }",
            good,
            "error[E102] 1:30: `m::p` is private\nerror[E101] 1:38: cannot find `x`\nerror[E101] 1:41: cannot find `y`\nerror[E101] 1:48: cannot find `crate::m::q`\nerror[E102] 1:63: `m::p` is private\n",
        ),
        // a local that a block hides is found again after it, and a block's locals end with it
        (
            "fn f(a: bool) -> bool { if a { let a = 1; println!(\"{}\", a + 1); } a }",
            good,
            "",
        ),
        (
            "fn f(a: bool) -> bool { while a { let b = 1; b; } b; let a = 2; a == 2 }",
            good,
            "error[E101] 1:51: cannot find `b`\n",
        ),
        // a parameter twice: the first is hidden
        (
            "fn f(a: i64, a: bool) -> bool { a }",
            good,
            "warning[W201] 1:6: unused variable `a`\nerror[E115] 1:14: parameter `a` twice\n",
        ),
        // an assignment isn't a read, and asks the type also where it may not stand
        (
            "fn f(a: i64) { a = 1; let mut b = 2; b = true; let c = 3; c = b; }",
            good,
            "warning[W201] 1:6: unused variable `a`\nerror[E105] 1:16: cannot assign to `a`\nerror[E103] 1:42: expected i64, found bool\nwarning[W201] 1:52: unused variable `c`\nerror[E105] 1:59: cannot assign to `c`\n",
        ),
        // calls of no function, whose arguments are looked at, and a function as a value
        (
            "const A: i64 = 1; fn f(a: i64) { a(zz); A(); f; }",
            good,
            "error[E106] 1:34: `a` is not a function\nerror[E101] 1:36: cannot find `zz`\nerror[E106] 1:41: `A` is not a function\nerror[E107] 1:46: `f` is a function\n",
        ),
        // constants: a call, other types, and no value
        (
            "const A: bool = f(zz);\nfn f() {}",
            Const::Bad,
            "error[E111] 1:17: call in a constant\nerror[E101] 1:19: cannot find `zz`\n",
        ),
        (
            "const A: i64 = 1 + true;\nconst B: bool = 1;",
            Const::Bad,
            "error[E103] 1:20: expected i64, found bool\nerror[E103] 2:17: expected bool, found i64\n",
        ),
        (
            "const A: i64 = A;",
            Const::Cycle,
            "error[E108] 1:7: cycle in constant `A`\n",
        ),
        (
            "const A: i64 = 1;",
            Const::Overflow,
            "error[E109] 1:7: constant `A` overflows\n",
        ),
        (
            "const A: i64 = 1;",
            Const::DivZero,
            "error[E110] 1:7: constant `A` divides by zero\n",
        ),
        // ends without a value
        (
            "fn f() -> i64 {}\nfn g(a: bool) -> i64 { if a { return 1; } }\nfn h(a: bool) -> i64 { while a { return 1; } }\nfn k(a: bool) -> i64 { if a { return 1; } else if a { return 2; } else { return 3; } }\nfn n(a: bool) -> i64 { if a { return 1; } else { } }",
            good,
            "error[E112] 1:4: missing value at the end of `f`\nerror[E112] 2:4: missing value at the end of `g`\nerror[E112] 3:4: missing value at the end of `h`\nerror[E112] 5:4: missing value at the end of `n`\n",
        ),
        // the root's `main`, and another
        (
            "fn main(_a: i64) -> bool { true }\nmod m { fn main(_a: i64) {} }",
            good,
            "error[E114] 1:4: `main` takes nothing and gives nothing\n",
        ),
        // names of constants of the own module, and of another; of lines at one place the lower number comes first
        (
            "const A: i64 = 1;\nfn f(A: i64) { let A = A; }\nmod m { fn f(A: i64) { A; } }",
            good,
            "error[E117] 2:6: `A` is a constant\nerror[E117] 2:20: `A` is a constant\nwarning[W201] 2:20: unused variable `A`\n",
        ),
        // what has no value
        (
            "fn g() {}\nfn f() {\n  let x = g();\n  println!(\"{}\", g());\n  g() == g();\n  return 1;\n}",
            good,
            "warning[W201] 3:7: unused variable `x`\nerror[E103] 3:11: expected a value, found ()\nerror[E103] 4:18: expected a value, found ()\nerror[E103] 5:3: expected a value, found ()\nerror[E103] 6:10: expected (), found i64\n",
        ),
        // conditions, returns and a declared variable
        (
            "fn f(a: i64) -> bool { let b: bool = 1 + true; while a {} if b {} else if 1 {} return; return a; }",
            good,
            "error[E103] 1:42: expected i64, found bool\nerror[E103] 1:54: expected bool, found i64\nerror[E103] 1:75: expected bool, found i64\nerror[E103] 1:80: expected bool, found ()\nerror[E103] 1:95: expected bool, found i64\n",
        ),
        // arguments and operands; above a fault nothing is asked
        (
            "fn g(a: i64, b: bool) -> i64 { if b { return a; } 1 }\nfn f() -> i64 { g(true, 1); g(zz, 1); g(true); !g(1, true); -true; 1 + g(zz, true) }",
            good,
            "error[E103] 2:19: expected i64, found bool\nerror[E103] 2:25: expected bool, found i64\nerror[E101] 2:31: cannot find `zz`\nerror[E103] 2:35: expected bool, found i64\nerror[E104] 2:39: expected 2 arguments, found 1\nerror[E103] 2:49: expected bool, found i64\nerror[E103] 2:62: expected i64, found bool\nerror[E101] 2:74: cannot find `zz`\n",
        ),
        // a variable's own value doesn't see it, `_` keeps a name from being asked, and a variable without a type asks nothing
        (
            "fn f() { let a = 1; let a = a; let _b = 2; let c = zz; c + true; }",
            good,
            "warning[W201] 1:25: unused variable `a`\nerror[E101] 1:52: cannot find `zz`\nerror[E103] 1:60: expected i64, found bool\n",
        ),
    ];
    for (text, value, expected) in rows {
        let lines = lines_of(rt.alloc(), text, value).ok_or("no tree")?;
        assert_eq!(rt; lines.as_str(), expected, "{text:?}");
    }
    Ok(())
}
