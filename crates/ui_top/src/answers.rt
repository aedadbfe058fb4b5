// The answers to the queries.
ghost use Rattle.std.specs.Prelude.{◌≡◌, ◌≤◌, IfOk, OnErr, IsErrOf, Some, None, option_map};
ghost use Rattle.ui_store.specs.Causes.{Rose};
ghost use Rattle.ui_store.specs.Told.{more};
ghost use Rattle.ui_store.specs.Sinks.{Partly};
ghost use Rattle.ui_top.specs.Answers.{answer, answer_about, answers, are_answered, asked_name};
ghost use Rattle.ui_top.specs.Answers.{named, no_such, show, value_of};
ghost use Rattle.ui_top.specs.Outcome.{words_of};

use itoa::Buffer;
use std::alloc::{AllocError, Global};
use ui_exports::Package;
use ui_forms::is_ascii_name;
use ui_store::{Sink, put_all};

/// Why the answers were not written to their end.
#[derive(Clone, Copy, Debug, PartialEq, Eq)]
pub enum Unanswered {
    /// A fault of the sink.
    OutFault,
    NoMemory,
}

// The answer to a query: its text, and whether it is none of the refusals.
#[derive(Drop)]
struct Answer {
    text: Vec<u8>,
    is_answered: bool,
}

// A name, where it is one.
fn named(name: &[u8]) -> Option<&[u8]>
    ensures { option_map (λ n. n.now) result ≡ named name.now }
{
    if is_ascii_name(name) {
        Some(name)
    } else {
        None
    }
}

// The name that a query `decl NAME` asks for.
#[tactic(auto, unfolding(crate::specs::Answers::asked_name))]
fn asked_name(query: &[u8]) -> Option<&[u8]>
    ensures { option_map (λ n. n.now) result ≡ asked_name query.now }
{
    match query.strip_prefix(b"decl ") {
        Some(name) => named(name),
        None => None,
    }
}

// The text of a constant.
fn show(alloc: Global, path: &[u8], name: &[u8], value: u128) -> Result<Vec<u8>, AllocError>
    ensures { IfOk result (λ text. text.items ≡ show path.now name.now value) }
{
    let mut digits = Buffer::new();
    let mut text = b"const ".to_vec(alloc)?;
    text.extend_from_slice(path)?;
    text.extend_from_slice(b".")?;
    text.extend_from_slice(name)?;
    text.extend_from_slice(b" untyped int = ")?;
    text.extend_from_slice(digits.format(value).as_bytes())?;
    text.extend_from_slice(b"\n")?;
    Ok(text)
}

// The refusal of a name that the package lacks.
fn no_such(alloc: Global, path: &[u8], name: &[u8]) -> Result<Vec<u8>, AllocError>
    ensures { IfOk result (λ text. text.items ≡ no_such path.now name.now) }
{
    let mut text = b"refused: NoSuch ".to_vec(alloc)?;
    text.extend_from_slice(path)?;
    text.extend_from_slice(b".")?;
    text.extend_from_slice(name)?;
    text.extend_from_slice(b"\n")?;
    Ok(text)
}

// The answer about a name.
fn answer_about(alloc: Global, of: &Package, name: &[u8]) -> Result<Answer, AllocError>
    ensures text { IfOk result
        (λ a. a.text.items ≡ (answer_about of.now.path name.now (value_of of.now name.now)).0) }
    ensures answered { IfOk result
        (λ a. a.is_answered ≡ (answer_about of.now.path name.now (value_of of.now name.now)).1) }
{
    match of.value(name) {
        Some(value) => {
            let text = show(alloc, of.path(), name, value)?;
            let is_answered = true;
            Ok(Answer { text, is_answered })
        }
        None => {
            let text = no_such(alloc, of.path(), name)?;
            let is_answered = false;
            Ok(Answer { text, is_answered })
        }
    }
}

// The answer to one query.
#[tactic(auto, unfolding(crate::specs::Answers::answer))]
fn answer_to(alloc: Global, of: &Package, query: &[u8]) -> Result<Answer, AllocError>
    ensures text { IfOk result (λ a. a.text.items ≡ (answer of.now query.now).0) }
    ensures answered { IfOk result (λ a. a.is_answered ≡ (answer of.now query.now).1) }
{
    match asked_name(query) {
        Some(name) => {
            let answer = answer_about(alloc, of, name)?;
            Ok(answer)
        }
        None => {
            let text = b"refused: Form\n".to_vec(alloc)?;
            let is_answered = false;
            Ok(Answer { text, is_answered })
        }
    }
}

/// Writes the answers to the queries, in order, and says whether none is a refusal.
pub fn answer_all<O: Sink>(
    alloc: Global,
    of: &Package,
    queries: &[String],
    out: &mut O,
) -> Result<bool, Unanswered>
    ensures all { IfOk result (λ all. all ≡ are_answered of.now (words_of queries.now)) }
    ensures written { IfOk result
        (λ _. (O.told out.new).written ≡ more (O.told out.old).written
        (answers of.now (words_of queries.now))) }
    ensures part { OnErr result
        (Partly (O.told out.old).written (O.told out.new).written
        (answers of.now (words_of queries.now))) }
    ensures later { (O.told out.old).faults ≤ (O.told out.new).faults }
    ensures fault { IsErrOf result Unanswered.OutFault →
        Rose (O.told out.old).faults (O.told out.new).faults }
{
    let mut all = true;
    for query in queries {
        let Ok(answer) = answer_to(alloc, of, query.as_bytes()) else {
            return Err(Unanswered::NoMemory);
        };
        match put_all(out, &answer.text) {
            Ok(()) => all &= answer.is_answered,
            Err(_) => return Err(Unanswered::OutFault),
        }
    }
    Ok(all)
}
