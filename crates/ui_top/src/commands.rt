// The commands.
ghost use Rattle.std.specs.Prelude.{◌≡◌, ℕ, None, Some, option_map};
ghost use Rattle.ui_store.specs.Views.{SourceView};
ghost use Rattle.ui_top.specs.Invocations.{command_as};
ghost use Rattle.ui_top.specs.Ends.{EndsBy};
ghost use Rattle.ui_top.specs.Outcome.{Command, Build, Dump, command_at, command_of, words_of};
ghost use Rattle.ui_top.specs.Outcome.{usage};
ghost use Rattle.ui_top.specs.Scene.{scene, Runs, RunsUsage, Completes};

use crate::answers::answer_all;
use crate::report::{report, report_answers, say};
use crate::status::Status;
use std::alloc::Global;
use std::sync::ledger::Ledger;
use ui_base::is_path;
use ui_build::{Stop, build, dump};
use ui_exports::Package;
use ui_steps::Steps;
use ui_store::{Sink, Source, Store};

// A command with its operands.
#[derive(Clone, Copy)]
enum Invocation<'a> {
    /// A package and those below it are built, and the queries answered from its linked file.
    Build(&'a str, &'a [String]),
    /// The queries are answered from the linked file of a package as it is.
    Dump(&'a str, &'a [String]),
}

// Answers the queries by what a package exports, or says what stopped the command before.
fn answer_by<O: Sink, E: Sink>(
    alloc: Global,
    exported: Result<Package, Stop>,
    queries: &[String],
    out: &mut O,
    err: &mut E,
) -> Status
    ensures { EndsBy exported (words_of queries.now)
        (O.told out.old) (O.told out.new) (E.told err.old) (E.told err.new) result }
{
    match exported {
        Ok(package) => {
            let answered = answer_all(alloc, &package, queries, out);
            report_answers(answered, err)
        }
        Err(stop) => report(&stop, err),
    }
}

// Builds a package and those below it, and answers the queries from its linked file.
fn run_build<S: Store, O: Sink, E: Sink>(
    alloc: Global,
    path: &str,
    queries: &[String],
    store: &mut S,
    out: &mut O,
    err: &mut E,
) -> Status
    ensures { (input : SourceView) (steps : ℕ) → Runs (Build path.now (words_of queries.now))
        (scene (S.told store.old) input (O.told out.old) (E.told err.old) steps)
        (scene (S.told store.new) input (O.told out.new) (E.told err.new) steps) result }
{
    let exported = build(alloc, store, path);
    answer_by(alloc, exported, queries, out, err)
}

// Answers the queries from the linked file of a package as it is.
fn run_dump<S: Store, O: Sink, E: Sink>(
    alloc: Global,
    path: &str,
    queries: &[String],
    store: &mut S,
    out: &mut O,
    err: &mut E,
) -> Status
    ensures { (input : SourceView) (steps : ℕ) → Runs (Dump path.now (words_of queries.now))
        (scene (S.told store.old) input (O.told out.old) (E.told err.old) steps)
        (scene (S.told store.new) input (O.told out.new) (E.told err.new) steps) result }
{
    let exported = dump(alloc, store, path);
    answer_by(alloc, exported, queries, out, err)
}

// What a word asks for that a path and queries follow.
fn command_at<'a>(word: &str, path: &'a str, queries: &'a [String]) -> Option<Invocation<'a>>
    ensures { option_map command_as result ≡ command_at word.now path.now (words_of queries.now) }
{
    match word {
        "build" => Some(Invocation::Build(path, queries)),
        "dump" => Some(Invocation::Dump(path, queries)),
        _ => None,
    }
}

// What the words ask for.
#[tactic(auto, unfolding(crate::specs::Outcome::command_of))]
fn command_of(words: &[String]) -> Option<Invocation<'_>>
    ensures { option_map command_as result ≡ command_of (words_of words.now) }
{
    let [word, path, queries @ ..] = words else {
        return None;
    };
    if !is_path(path.as_bytes()) {
        return None;
    }
    command_at(word.as_str(), path.as_str(), queries)
}

/// The line of words that spell no command.
const USAGE: &[u8] =
    b"usage: goui build PATH [QUERY]... | compile PATH | link PATH | dump PATH [QUERY]... | ask PATH | frame NAME | gen N\n";

/// Does what the words say, over a store, a source and two sinks: answers go to `out`, and a
/// fault's one line to `err`.
///
/// The commands so far are `build PATH QUERY...`, of packages of constants that are sums, and `dump
/// PATH QUERY...`, which answers from a linked file alone.
pub fn run<S: Store, I: Source, O: Sink, E: Sink, L: Ledger>(
    alloc: Global,
    words: &[String],
    store: &mut S,
    input: &mut I,
    out: &mut O,
    err: &mut E,
    steps: &mut Steps<L>,
) -> Status
    // Words that spell no command.
    ensures usage { command_of (words_of words.now) ≡ None → RunsUsage
        (scene (S.told store.old) (I.told input.old) (O.told out.old) (E.told err.old) steps.old)
        (scene (S.told store.new) (I.told input.new) (O.told out.new) (E.told err.new) steps.new)
        result }
    // The outcome by the sources alone, or by the file that is dumped, and the cause of each other
    // end.
    ensures runs { (c : Command) → command_of (words_of words.now) ≡ Some c → Runs c
        (scene (S.told store.old) (I.told input.old) (O.told out.old) (E.told err.old) steps.old)
        (scene (S.told store.new) (I.told input.new) (O.told out.new) (E.told err.new) steps.new)
        result }
    // Where no device fails, the outcome is reached unless memory runs out.
    ensures completes { (c : Command) → command_of (words_of words.now) ≡ Some c → Completes c
        (scene (S.told store.old) (I.told input.old) (O.told out.old) (E.told err.old) steps.old)
        (scene (S.told store.new) (I.told input.new) (O.told out.new) (E.told err.new) steps.new)
        result }
{
    match command_of(words) {
        Some(Invocation::Build(path, queries)) => run_build(alloc, path, queries, store, out, err),
        Some(Invocation::Dump(path, queries)) => run_dump(alloc, path, queries, store, out, err),
        None => {
            say(err, USAGE, b"", b"");
            Status::Usage
        }
    }
}
