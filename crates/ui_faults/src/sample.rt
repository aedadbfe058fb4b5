//! The sample program: three files that the grammar takes.

use crate::files::read;
use std::test::Fail;

const LIST: &str = "package list

type Node[T any] struct {
\tValue T
\tNext  *Node[T]
}

type List[T any] struct {
\thead *Node[T]
\tsize int
}

func (l *List[T]) Push(v T) {
\tl.head = &Node[T]{Value: v, Next: l.head}
\tl.size++
}

func (l *List[T]) Len() int { return l.size }

func Each[T any](l *List[T], f func(T)) {
\tfor n := l.head; n != nil; n = n.Next {
\t\tf(n.Value)
\t}
}
";

const TEXT: &str = "package text

type Kind int

const (
\tWord Kind = iota
\tNumber
)

type Token interface {
\tKind() Kind
\tText() string
}

type word struct{ s string }

func (w word) Kind() Kind   { return Word }
func (w word) Text() string { return w.s }

type Failure struct{ At int }

func (f *Failure) Error() string { return \"bad input\" }

func Read(s string) (Token, error) {
\tfor i, c := range s {
\t\tswitch {
\t\tcase c >= 'a' && c <= 'z', c == '_':
\t\tdefault:
\t\t\treturn nil, &Failure{At: i}
\t\t}
\t}
\treturn word{s}, nil
}
";

const MAIN: &str = "package main

import (
\t\"list\"
\t\"text\"
)

func Words(in []string) (*list.List[text.Token], error) {
\tout := &list.List[text.Token]{}
\tfor _, s := range in {
\t\tt, err := text.Read(s)
\t\tif err != nil {
\t\t\treturn nil, err
\t\t}
\t\tout.Push(t)
\t}
\treturn out, nil
}

func main() {
\tl, err := Words([]string{\"go\", \"x1\"})
\tif err == nil && l.Len() > 0 {
\t\treturn
\t}
}
";

// How many imports and declarations each has.
#[test]
fn is_read(rt: HostRuntime) -> Result<(), Fail> {
    for (text, imports, declarations) in [(LIST, 0, 5), (TEXT, 0, 9), (MAIN, 1, 2)] {
        match read(&rt, rt.alloc(), text.as_bytes())? {
            Ok(file) => {
                assert_eq!(rt; file.imports.len(), imports);
                assert_eq!(rt; file.decls.len(), declarations);
            }
            Err(fault) => panic!(rt; "{fault:?}"),
        }
    }
    Ok(())
}
