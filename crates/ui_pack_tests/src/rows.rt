// Packages, and what is said of each, worked out by hand.
use crate::words::{Ask, outcome};
use std::alloc::Global;
use std::test::Fail;
use ui_base::NoMemory;
use ui_taken::Taken;

// The first case, sources and what is said of them split by `|`, that comes out otherwise. Cases stand behind a `#`.
fn failing(alloc: Global, ask: Ask, cases: &str) -> Result<Option<String>, NoMemory> {
    for case in cases.split('#') {
        if let Some((sources, wanted)) = case.split_once('|') {
            let found = outcome(alloc, ask, sources)?;
            if found.as_str() != wanted {
                return Ok(Some(format!(in alloc; "{sources}: {found}")?));
            }
        }
    }
    Ok(None)
}

// Where constants alone are taken.
const CONSTANTS: &str = "#~a\npackage p\n|taken\
    #~a\npackage p\nimport \"x\"\nimport (\n n \"y\"\n _ \"z\"\n)\n|taken\
    #~a\npackage p\nconst (\n a, b = iota, -1\n c, _\n)\nconst s string = \"\" + (x.S)\nconst t (p.T) = !true\n|taken\
    #~a\npackage p\nconst a = 1\n~b\npackage p\nvar v int\n|1:2:1\
    #~a\npackage p\ntype t int\n|0:2:1\
    #~a\npackage p\nfunc f() {}\n|0:2:1\
    #~a\npackage p\nfunc (t T) m() {}\n|0:2:1\
    #~a\npackage p\nconst a []int = 1\n|0:2:9\
    #~a\npackage p\nconst a T[int] = 1\n|0:2:9\
    #~a\npackage p\nconst a, b = 1, f(T{})\n|0:2:17\
    #~a\npackage p\nconst a = (1 + x[2]) << T{}\n|0:2:16\
    #~a\npackage p\nconst a = (x).y\n|0:2:11\
    #~a\npackage p\nconst (\n a = 1\n b T[int] = f()\n)\n|0:4:4";

// Where all declarations are taken that the checks know.
const DECLARATIONS: &str =
    "#~a\npackage p\ntype (\n A = *[2 + n]map[string]func(x int, y ...) T\n)\n|unread: Outside\
    #~a\npackage p\ntype (\n A = *[2 + n]map[string]func(x int) (T, p.T)\n B struct{ f, g []int }\n C interface{}\n)\n|taken\
    #~a\npackage p\nvar (\n x, y int\n z struct{}\n)\nfunc f(a int, b []T) {}\n|taken\
    #~a\npackage p\ntype (\n A int\n B[T any] int\n)\n|0:4:2\
    #~a\npackage p\ntype B[T any] int\n|0:2:1\
    #~a\npackage p\ntype B T[int]\n|0:2:8\
    #~a\npackage p\ntype B [f(1)]T[int]\n|0:2:9\
    #~a\npackage p\ntype B interface{ M(); int }\n|0:2:19\
    #~a\npackage p\nvar x = 1\n|0:2:1\
    #~a\npackage p\nvar (\n x int\n y = 1\n)\n|0:4:2\
    #~a\npackage p\nvar x int = 1\n|0:2:13\
    #~a\npackage p\nfunc f() { f() }\n|0:2:10\
    #~a\npackage p\nfunc f() int {}\n|0:2:14\
    #~a\npackage p\nfunc f() T[int] {}\n|0:2:10\
    #~a\npackage p\nfunc f[P any]() {}\n|0:2:1\
    #~a\npackage p\nfunc (t T) m() {}\n|0:2:1";

// Clashes of names.
const NAMES: &str =
    "#~a\npackage p\nconst a, _ = 1, 2\nvar b, _ int\ntype c = d\nfunc f(a int) (b, _, _ int) {}\nfunc init() {}\nfunc init() {}\n|a b c f \
    #~a\npackage _\n|a:1:9 PackageName \
    #~a\npackage p\nconst a = 1\nconst a = 1\n~b\npackage q\n|a:3:7 Redeclared a\
    #~a\npackage p\n~b\npackage q\nimport \"x\"\nimport \"x\"\n|b:1:9 PackageName \
    #~a\npackage p\nimport \"x\"\nimport _ \"x\"\nimport x \"y\"\n|a:4:8 Redeclared x\
    #~a\npackage p\nimport \"x\"\n~b\npackage p\nimport \"x\"\nconst x = 1\n|b:3:7 Redeclared x\
    #~a\npackage p\nimport \"y/z\"\nimport (\n z \"x\"\n q \"x\"\n)\n|a:5:2 Redeclared q\
    #~a\npackage p\nconst x = 1\n~b\npackage p\nimport \"x\"\n|b:2:8 Redeclared x\
    #~a\npackage p\nimport \"x\"\n~b\npackage p\nconst x = 1\n|b:2:7 Redeclared x\
    #~a\npackage p\ntype t struct{ a, b int; c struct{ _, _, d, d int }; a int }\n|a:2:45 Redeclared d\
    #~a\npackage p\ntype t func(a, b int) (c, a int)\n|a:2:27 Redeclared a\
    #~a\npackage p\nfunc f(a []int, b func(a int) struct{ a, a int }) {}\n|a:2:42 Redeclared a\
    #~a\npackage p\nvar v, v map[struct{ a, a int }]int\n|a:2:8 Redeclared v\
    #~a\npackage p\nconst init = 1\n|a:2:7 MainShape \
    #~a\npackage p\nimport \"i\"\n|a:2:8 MainShape \
    #~a\npackage p\nimport init \"x\"\n|a:2:8 MainShape \
    #~a\npackage p\nfunc init() int {}\n|a:2:6 MainShape \
    #~a\npackage p\nfunc main(a int) {}\n|main \
    #~a\npackage main\nfunc main() {}\nfunc main() {}\n|a:3:6 Redeclared main\
    #~a\npackage main\nfunc main(a, a int) {}\n|a:2:6 MainShape \
    #~a\npackage main\ntype main int\n|a:2:6 MainShape ";

// What is declared.
const ITEMS: &str =
    "#~a\npackage p\nconst (\n a, b T = 1, 2\n c, _\n d, e, f\n)\n|0 a const 3:11 0 true; 0 b const 3:14 0 true; 0 c const 3:11 1 true; 0 _ const 3:14 1 true; 0 d miscounted 5:2 2; 0 e miscounted 5:2 2; 0 f miscounted 5:2 2; \
    #~a\npackage p\nconst (\n a\n b = 1\n c T = 2\n d\n)\n|0 a miscounted 3:2 0; 0 b const 4:6 1 false; 0 c const 5:8 2 true; 0 d const 5:8 3 true; \
    #~a\npackage p\nconst a, b = 1\n~b\npackage p\ntype a = T\ntype (\n b T\n)\nvar x, y int\nvar z = 1\nfunc f() {}\nfunc (t T) m() {}\n|0 a miscounted 2:7 0; 0 b miscounted 2:7 0; 1 a alias 2:10; 1 b type 4:4; 1 x var 6:10; 1 y var 6:10; 1 z var; 1 f func; ";

// Cycles, and the order of nodes: those of the k-th declaration are 2k and 2k + 1.
const NODES: &str = "#~a\npackage p\ntype T struct{ next *T }\n|0 1 \
    #~a\npackage p\nconst a = b + 1\nconst b = 2\n|2 3 0 1 \
    #~a\npackage p\nconst z = 1\nconst a, b = c, 1\n~b\npackage p\nconst c = -a\n|cycle 1\
    #~a\npackage p\ntype A = B\ntype B C\ntype C A\n|cycle 0\
    #~a\npackage p\ntype A = []B\ntype B struct{ a A }\n|2 0 1 3 \
    #~a\npackage p\ntype A = []A\n|cycle 0\
    #~a\npackage p\ntype T [n]int\nconst n T = 1\n|cycle 0\
    #~a\npackage p\nvar v [n]T\nconst n = 1\ntype T U\ntype U int\n|2 3 4 0 1 6 7 5 \
    #~a\npackage p\nconst _ = a\nconst a = x.a + (-a)\n|cycle 1\
    #~a\npackage p\nconst _ = b\nconst b = _\nfunc f(t T) {}\nfunc init() {}\ntype T int\n|2 3 0 1 6 7 8 4 5 9 ";

// Imports that are used. The package of `y/z` is named `q`.
const USED: &str = "#~a\npackage p\nimport \"x\"\nconst a = x.N\n|used\
    #~a\npackage p\nimport _ \"x\"\n|used\
    #~a\npackage p\nimport \"x\"\nconst a = 1\n|a:2:8 UnusedImport x\
    #~a\npackage p\nimport n \"x\"\nconst a = x.N\n|a:2:10 UnusedImport x\
    #~a\npackage p\nimport (\n \"x\"\n n \"y/z\"\n)\nvar v n.T\n|a:3:2 UnusedImport x\
    #~a\npackage p\nimport \"y/z\"\nvar v []*q.T\n|used\
    #~a\npackage p\nimport \"y/z\"\nvar v z.T\n|a:2:8 UnusedImport y/z\
    #~a\npackage p\nimport \"x\"\n~b\npackage p\nimport \"x\"\nconst a = x.N\n|a:2:8 UnusedImport x\
    #~a\npackage p\nimport \"x\"\nconst a = q.x\ntype T struct{ x int }\n|a:2:8 UnusedImport x\
    #~a\npackage p\nimport a \"x\"\nimport b \"x\"\nconst c = a.N\n|a:3:10 UnusedImport x\
    #~a\npackage p\nimport \"x\"\ntype A = map[string][1 + -x.N]struct{ f int }\n|used\
    #~a\npackage p\nimport \"x\"\ntype A = map[string]struct{ f func(x.T) }\n|used\
    #~a\npackage p\nimport \"x\"\ntype A = func() (int, x.T)\n|used\
    #~a\npackage p\nimport \"x\"\nfunc f(a []x.T) {}\n|used\
    #~a\npackage p\nimport \"x\"\nconst a x.T = 1\n|used\
    #~a\npackage p\nimport \"x\"\nconst (\n a, b = 1, (2 << x.N)\n c, d\n)\n|used";

#[test]
fn forms(rt: HostRuntime) -> Result<(), Fail> {
    let ask = Ask::Form(Taken::Constants);
    assert_eq!(rt; failing(rt.alloc(), ask, CONSTANTS)?, None);
    let ask = Ask::Form(Taken::Declarations);
    assert_eq!(rt; failing(rt.alloc(), ask, DECLARATIONS)?, None);
    Ok(())
}

#[test]
fn names(rt: HostRuntime) -> Result<(), Fail> {
    assert_eq!(rt; failing(rt.alloc(), Ask::Names, NAMES)?, None);
    Ok(())
}

#[test]
fn items(rt: HostRuntime) -> Result<(), Fail> {
    assert_eq!(rt; failing(rt.alloc(), Ask::Items, ITEMS)?, None);
    Ok(())
}

#[test]
fn used(rt: HostRuntime) -> Result<(), Fail> {
    assert_eq!(rt; failing(rt.alloc(), Ask::Used, USED)?, None);
    Ok(())
}

#[test]
fn nodes(rt: HostRuntime) -> Result<(), Fail> {
    assert_eq!(rt; failing(rt.alloc(), Ask::Nodes, NODES)?, None);
    Ok(())
}
