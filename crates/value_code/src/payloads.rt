//! Writing the payloads of nodes.

ghost use Rattle.std.specs.Int.{w32, to_le_bytes};
ghost use Rattle.std.specs.Prelude.{[], ◌∷◌, ◌≡◌, ◌++◌, ◌<◌, ◌≤◌, ◌^◌, OnOk, length};
ghost use Rattle.value_model.specs.Encoding.{payload, payloads};
ghost use Rattle.value_model.specs.Validity.{AllTyped, IsTyped};
ghost use Rattle.value_model.specs.Views.{tree_of, trees_view};

use std::alloc::AllocError;
use value_model::Node;

/// Writes the payload of a node after what is written.
#[cycle(put_payload)]
pub(crate) fn put_payload(node: &Node, out: &mut Vec<u8>) -> Result<(), AllocError>
    requires typed { IsTyped (tree_of node.now) }
    requires short { length (payload (tree_of node.now)) ≤ 65536 }
    ensures { OnOk result (out.new.items ≡ out.old.items ++ payload (tree_of node.now)) }
{
    match node {
        Node::Bool(truth) => put_byte(if *truth { 1 } else { 0 }, out),
        Node::U8(number) => out.extend_from_slice(&number.to_le_bytes()),
        Node::U16(number) => out.extend_from_slice(&number.to_le_bytes()),
        Node::U32(number) => out.extend_from_slice(&number.to_le_bytes()),
        Node::U64(number) => out.extend_from_slice(&number.to_le_bytes()),
        Node::I8(number) => out.extend_from_slice(&number.to_le_bytes()),
        Node::I16(number) => out.extend_from_slice(&number.to_le_bytes()),
        Node::I32(number) => out.extend_from_slice(&number.to_le_bytes()),
        Node::I64(number) => out.extend_from_slice(&number.to_le_bytes()),
        Node::Text(text) => put_counted(text.as_str().as_bytes(), out),
        Node::Bytes(bytes) => put_counted(bytes.as_slice(), out),
        Node::List(_, items) => {
            put_length(items.len(), out)?;
            put_payloads(items.as_slice(), out)
        }
        Node::Fields(members) => put_payloads(members.as_slice(), out),
    }
}

#[cycle(put_payload)]
fn put_payloads(nodes: &[Node], out: &mut Vec<u8>) -> Result<(), AllocError>
    requires typed { AllTyped (trees_view nodes.now) }
    requires short { length (payloads (trees_view nodes.now)) ≤ 65536 }
    ensures { OnOk result (out.new.items ≡ out.old.items ++ payloads (trees_view nodes.now)) }
{
    for node in nodes {
        put_payload(node, out)?;
    }
    Ok(())
}

fn put_counted(bytes: &[u8], out: &mut Vec<u8>) -> Result<(), AllocError>
    requires { length bytes.now < 2 ^ 32 }
    ensures { OnOk result
        (out.new.items ≡ out.old.items ++ (to_le_bytes w32 (length bytes.now) ++ bytes.now)) }
{
    put_length(bytes.len(), out)?;
    out.extend_from_slice(bytes)
}

fn put_length(length: usize, out: &mut Vec<u8>) -> Result<(), AllocError>
    requires { length < 2 ^ 32 }
    ensures { OnOk result (out.new.items ≡ out.old.items ++ to_le_bytes w32 length) }
{
    out.extend_from_slice(&(length as u32).to_le_bytes())
}

/// Writes a byte after what is written.
pub(crate) fn put_byte(byte: u8, out: &mut Vec<u8>) -> Result<(), AllocError>
    ensures { OnOk result (out.new.items ≡ out.old.items ++ byte ∷ []) }
{
    out.push(byte)?;
    Ok(())
}
