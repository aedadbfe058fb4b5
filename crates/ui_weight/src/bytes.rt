//! The bytes of names.
ghost use Rattle.std.specs.Prelude.{◌≡◌, ◌+◌, length, map};
ghost use Rattle.ui_weight.specs.Weight as spec;
ghost use Rattle.ui_weight.specs.Weight.{counted};
ghost use Rattle.ui_weight.specs.Parts.{own_texts};

use ui_types::{Field, Method, Name, Text, TypeNode, Value};

/// How many bytes a text has.
pub(crate) fn text_bytes(text: &Text) -> u64
    ensures { result ≡ counted (length text.now) }
{
    text.bytes().len() as u64
}

/// How many bytes a name has.
pub(crate) fn name_bytes(name: &Name) -> u64
    ensures { result ≡ counted (spec.name_bytes name.now) }
{
    text_bytes(&name.path).saturating_add(text_bytes(&name.name))
}

// How many bytes the names of fields have.
fn field_bytes(fields: &[Field]) -> u64
    ensures { result ≡ counted (spec.names_bytes (map (λ f. f.name) fields.now)) }
{
    let mut count = 0u64;
    for field in fields {
        count = count.saturating_add(name_bytes(&field.name));
    }
    count
}

// How many bytes the names of methods have.
fn method_bytes(methods: &[Method]) -> u64
    ensures { result ≡ counted (spec.names_bytes (map (λ m. m.name) methods.now)) }
{
    let mut count = 0u64;
    for method in methods {
        count = count.saturating_add(name_bytes(&method.name));
    }
    count
}

/// How many bytes the names have that stand in a node itself.
pub(crate) fn own_bytes(node: &TypeNode) -> u64
    ensures { result ≡ counted (own_texts node.now) }
{
    match node {
        TypeNode::Named { name, args: _ } => name_bytes(name),
        TypeNode::Struct(fields) => field_bytes(fields.items()),
        TypeNode::Iface {
            methods,
            comparable: _,
            unions: _,
        } => method_bytes(methods.items()),
        _ => 0,
    }
}

/// How many bytes a constant's text has.
pub(crate) fn value_bytes(value: &Value) -> u64
    ensures { result ≡ counted (spec.value_weight value.now) }
{
    match value {
        Value::Str(text) => text_bytes(text),
        Value::Whole(_) | Value::Truth(_) => 0,
    }
}
