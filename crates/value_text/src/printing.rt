//! Types and values as texts, written.

ghost use Rattle.std.specs.Prelude.{◌≡◌, ◌++◌, ◌*◌, OnOk, IfOk, IsTrue, length, string_bytes, encode_utf8};
ghost use Rattle.value_model.specs.Kinds.{kind_fits};
ghost use Rattle.value_model.specs.Views.{kind_of, kinds_view, tree_of, trees_view};
ghost use Rattle.value_text.specs.Texts.{type_text, types_text, escaped, hex_byte_text, hex_text, value_text};
ghost use Rattle.value_text.specs.Texts.{values_text};

use hex::encode_to_slice;
use std::alloc::{AllocError, Global};
use std::fmt::Write;
use value_model::{Node, Value, ValueType};

/// Writes the text of a type.
#[cycle(type_texts)]
fn push_type(out: &mut String, value_type: &ValueType) -> Result<(), AllocError>
    ensures { OnOk result (string_bytes out.new ≡ string_bytes out.old ++ type_text (kind_of value_type.now)) }
{
    match value_type {
        ValueType::Bool => out.push_str("bool"),
        ValueType::U8 => out.push_str("u8"),
        ValueType::U16 => out.push_str("u16"),
        ValueType::U32 => out.push_str("u32"),
        ValueType::U64 => out.push_str("u64"),
        ValueType::I8 => out.push_str("i8"),
        ValueType::I16 => out.push_str("i16"),
        ValueType::I32 => out.push_str("i32"),
        ValueType::I64 => out.push_str("i64"),
        ValueType::Text => out.push_str("text"),
        ValueType::Bytes => out.push_str("bytes"),
        ValueType::List(item) => {
            out.push_str("list<")?;
            push_type(out, item)?;
            out.push_str(">")
        }
        ValueType::Fields(members) => {
            out.push_str("{")?;
            push_types(out, members.as_slice())?;
            out.push_str("}")
        }
    }
}

/// Writes the texts of members, with commas between them.
#[cycle(type_texts)]
fn push_types(out: &mut String, members: &[ValueType]) -> Result<(), AllocError>
    ensures { OnOk result (string_bytes out.new ≡ string_bytes out.old ++ types_text (kinds_view members.now)) }
{
    let Some((first, others)) = members.split_first() else {
        return Ok(());
    };
    push_type(out, first)?;
    for member in others {
        out.push_str(",")?;
        push_type(out, member)?;
    }
    Ok(())
}

/// Writes a character of a text value.
fn push_escaped_char(out: &mut String, c: char) -> Result<(), AllocError>
    ensures { OnOk result (string_bytes out.new ≡ string_bytes out.old ++ escaped (encode_utf8 c)) }
{
    if c == '"' {
        return out.push_str("\\\"");
    }
    if c == '\\' {
        return out.push_str("\\\\");
    }
    if c == '\n' {
        return out.push_str("\\n");
    }
    out.push(c)
}

/// Writes the characters of a text value.
fn push_escaped(out: &mut String, text: &str) -> Result<(), AllocError>
    ensures { OnOk result (string_bytes out.new ≡ string_bytes out.old ++ escaped text.now) }
{
    for c in text.chars() {
        push_escaped_char(out, c)?;
    }
    Ok(())
}

/// Writes a byte in two digits.
fn push_hex_byte(out: &mut String, byte: u8) -> Result<(), AllocError>
    ensures { OnOk result (string_bytes out.new ≡ string_bytes out.old ++ hex_byte_text byte) }
{
    write!(out, "{byte:02x}")
}

/// Appends `bytes` to `out` in two lower-case hexadecimal digits each; the error says that memory ran out.
pub fn push_hex(out: &mut String, bytes: &[u8]) -> Result<(), AllocError>
    ensures { OnOk result (string_bytes out.new ≡ string_bytes out.old ++ hex_text bytes.now) }
{
    for byte in bytes {
        push_hex_byte(out, *byte)?;
    }
    Ok(())
}

/// Spells bytes in two lower-case hexadecimal digits each, where there is room for just these.
pub fn spell_hex(out: &mut [u8], bytes: &[u8])
    requires { length out.old ≡ 2 * length bytes.now }
    ensures { out.new ≡ hex_text bytes.now }
{
    let _ = encode_to_slice(bytes, out);
}

/// Writes the text of a node.
#[cycle(value_texts)]
fn push_node(out: &mut String, node: &Node) -> Result<(), AllocError>
    ensures { OnOk result (string_bytes out.new ≡ string_bytes out.old ++ value_text (tree_of node.now)) }
{
    match node {
        Node::Bool(true) => out.push_str("bool:true"),
        Node::Bool(false) => out.push_str("bool:false"),
        Node::U8(n) => write!(out, "u8:{n}"),
        Node::U16(n) => write!(out, "u16:{n}"),
        Node::U32(n) => write!(out, "u32:{n}"),
        Node::U64(n) => write!(out, "u64:{n}"),
        Node::I8(n) => write!(out, "i8:{n}"),
        Node::I16(n) => write!(out, "i16:{n}"),
        Node::I32(n) => write!(out, "i32:{n}"),
        Node::I64(n) => write!(out, "i64:{n}"),
        Node::Text(text) => {
            out.push_str("text:\"")?;
            push_escaped(out, text.as_str())?;
            out.push_str("\"")
        }
        Node::Bytes(bytes) => {
            out.push_str("bytes:")?;
            push_hex(out, bytes.as_slice())
        }
        Node::List(item, items) => {
            out.push_str("list<")?;
            push_type(out, item)?;
            out.push_str(">[")?;
            push_nodes(out, items.as_slice())?;
            out.push_str("]")
        }
        Node::Fields(members) => {
            out.push_str("{")?;
            push_nodes(out, members.as_slice())?;
            out.push_str("}")
        }
    }
}

/// Writes the texts of items or members, with commas between them.
#[cycle(value_texts)]
fn push_nodes(out: &mut String, nodes: &[Node]) -> Result<(), AllocError>
    ensures { OnOk result (string_bytes out.new ≡ string_bytes out.old ++ values_text (trees_view nodes.now)) }
{
    let Some((first, others)) = nodes.split_first() else {
        return Ok(());
    };
    push_node(out, first)?;
    for node in others {
        out.push_str(",")?;
        push_node(out, node)?;
    }
    Ok(())
}

/// The text of a type; each group of fields in it must have 1 to 32 members. The error says that memory ran out.
pub fn print_type(alloc: Global, value_type: &ValueType) -> Result<String, AllocError>
    requires { IsTrue (kind_fits (kind_of value_type.now)) }
    ensures { IfOk result (λ text. string_bytes text ≡ type_text (kind_of value_type.now)) }
{
    let mut text = String::new(alloc);
    push_type(&mut text, value_type)?;
    Ok(text)
}

/// Appends the text of a value to `out`; the error says that memory ran out.
pub fn push_value(out: &mut String, value: &Value) -> Result<(), AllocError>
    ensures { OnOk result (string_bytes out.new ≡ string_bytes out.old ++ value_text value.now) }
{
    push_node(out, value.node())
}

/// The text of a value; the error says that memory ran out.
pub fn print_value(alloc: Global, value: &Value) -> Result<String, AllocError>
    ensures { IfOk result (λ text. string_bytes text ≡ value_text value.now) }
{
    let mut text = String::new(alloc);
    push_value(&mut text, value)?;
    Ok(text)
}
