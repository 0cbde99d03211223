//! The fields that frames are made of, besides those of entries.

ghost use Rattle.std.specs.Prelude.{◌≡◌, ◌==◌, ◌<◌, ◌+◌, ◌^◌, length, List, ℕ, Result};
ghost use Rattle.rk_entry.specs.Steps.{Gives};
ghost use Rattle.rk_entry.specs.Numbers.{HasRoom, Gains};
ghost use Rattle.rk_entry.specs.declared.error.DecodeError.{DecodeError};
ghost use Rattle.rk_message.specs.Fields.{node_bytes, node_kind, node_number, read_node, node_of, tenure_bytes, read_tenure, token_bytes, read_token, read_any_range, counted_bytes, read_bytes, read_last_count, read_last_bytes, elements_bytes, list_bytes, read_list, read_last_list};
ghost use Rattle.std.specs.List.{AllByRecursion, sum_by};

use crate::handover::Tenure;
use rk_entry::fields::{
    put_end, put_u8, put_u16, put_u32, put_u64, read_end, read_u8, read_u16, read_u32, read_u64,
};
use rk_entry::{BAD_BODY_LENGTH, BAD_NUMBER, DecodeError, END_BYTES};
use rk_types::{Ended, Listed, Node, Range, Token};
use std::alloc::Global;

/// The number of the kind of a client.
pub const CLIENT: u8 = 1;

/// The number of the kind of the coordinator.
pub const COORDINATOR: u8 = 2;

/// The number of the kind of a master.
pub const MASTER: u8 = 3;

/// The number of the kind of a backup.
pub const BACKUP: u8 = 4;

/// Bytes of a node: its kind and its number.
pub const NODE_BYTES: u32 = 1 + 4;

/// Bytes of a body before its fields: the sender and the receiver.
pub const NODES_BYTES: u32 = NODE_BYTES + NODE_BYTES;

/// Bytes of a tenure: the tablet and the term.
pub const TENURE_BYTES: u32 = 4 + 8;

/// Bytes of a token: the bucket and the items that are passed over.
pub const TOKEN_BYTES: u32 = 2 + 4;

/// Bytes of a range: the table, the first hash and the last.
pub const RANGE_BYTES: u32 = 3 * 8;

/// Bytes of the count before a list or before bytes.
pub const COUNT_BYTES: u32 = 4;

/// A node, and the bytes after it. A kind that there is not, a coordinator with a number other than 0, and a master or
/// a backup with a number above 255 are `Bad(BAD_NUMBER)`.
#[tactic(auto, unfolding(crate::specs::Fields::read_node))]
pub fn read_node(bytes: &[u8]) -> Result<(Node, &[u8]), DecodeError>
    ensures { Gives (λ x. (x.0, x.1.now)) result (read_node bytes.now) }
{
    let (kind, rest) = read_u8(bytes)?;
    if kind < CLIENT || kind > BACKUP {
        return Err(DecodeError::Bad(BAD_NUMBER));
    }
    let (number, rest) = read_u32(rest)?;
    let node = node_of(kind, number).ok_or(DecodeError::Bad(BAD_NUMBER))?;
    Ok((node, rest))
}

// The node of this kind with this number, if there is one.
fn node_of(kind: u8, number: u32) -> Option<Node>
    ensures { result ≡ node_of kind number }
{
    match kind {
        CLIENT => Some(Node::Client(number)),
        COORDINATOR if number == 0 => Some(Node::Coordinator),
        MASTER if number < 256 => Some(Node::Master(number as u8)),
        BACKUP if number < 256 => Some(Node::Backup(number as u8)),
        _ => None,
    }
}

/// A tenure, and the bytes after it.
#[tactic(auto, unfolding(crate::specs::Fields::read_tenure))]
pub fn read_tenure(bytes: &[u8]) -> Result<(Tenure, &[u8]), DecodeError>
    ensures { Gives (λ x. (x.0, x.1.now)) result (read_tenure bytes.now) }
{
    let (tablet, rest) = read_u32(bytes)?;
    let (term, rest) = read_u64(rest)?;
    Ok((Tenure { tablet, term }, rest))
}

/// A token, and the bytes after it.
#[tactic(auto, unfolding(crate::specs::Fields::read_token))]
pub fn read_token(bytes: &[u8]) -> Result<(Token, &[u8]), DecodeError>
    ensures { Gives (λ x. (x.0, x.1.now)) result (read_token bytes.now) }
{
    let (bucket, rest) = read_u16(bytes)?;
    let (skip, rest) = read_u32(rest)?;
    Ok((Token { bucket, skip }, rest))
}

/// Any range, and the bytes after it.
#[tactic(auto, unfolding(crate::specs::Fields::read_any_range))]
pub fn read_any_range(bytes: &[u8]) -> Result<(Range, &[u8]), DecodeError>
    ensures { Gives (λ x. (x.0, x.1.now)) result (read_any_range bytes.now) }
{
    let (table, rest) = read_u64(bytes)?;
    let (first, rest) = read_u64(rest)?;
    let (last, rest) = read_u64(rest)?;
    Ok((Range { table, first, last }, rest))
}

/// Puts a node at the end.
#[tactic(auto, unfolding(crate::specs::Fields::node_bytes))]
pub fn put_node(into: &mut Vec<u8>, node: &Node)
    requires { HasRoom into.old NODE_BYTES }
    ensures { Gains into.old into.new (node_bytes node.now) NODE_BYTES }
{
    let (kind, number) = match node {
        Node::Client(number) => (CLIENT, *number),
        Node::Coordinator => (COORDINATOR, 0),
        Node::Master(number) => (MASTER, *number as u32),
        Node::Backup(number) => (BACKUP, *number as u32),
    };
    put_u8(into, kind);
    put_u32(into, number);
}

/// Puts a tenure at the end.
#[tactic(auto, unfolding(crate::specs::Fields::tenure_bytes))]
pub fn put_tenure(into: &mut Vec<u8>, tenure: &Tenure)
    requires { HasRoom into.old TENURE_BYTES }
    ensures { Gains into.old into.new (tenure_bytes tenure.now) TENURE_BYTES }
{
    put_u32(into, tenure.tablet);
    put_u64(into, tenure.term);
}

/// Puts a token at the end.
#[tactic(auto, unfolding(crate::specs::Fields::token_bytes))]
pub fn put_token(into: &mut Vec<u8>, token: &Token)
    requires { HasRoom into.old TOKEN_BYTES }
    ensures { Gains into.old into.new (token_bytes token.now) TOKEN_BYTES }
{
    put_u16(into, token.bucket);
    put_u32(into, token.skip);
}

/// Whether a body of `body` bytes has `first` bytes and `count` more.
pub fn is_whole(body: u32, first: u32, count: u32) -> bool
    ensures { result ≡ (first + count == body) }
{
    first as u64 + count as u64 == body as u64
}

/// The count of the bytes that end a body of `body` bytes, of which `first` are not these. Another body is
/// `Bad(BAD_BODY_LENGTH)`.
#[tactic(auto, unfolding(crate::specs::Fields::read_last_count))]
pub fn read_last_count(first: u32, body: u32, bytes: &[u8]) -> Result<(u32, &[u8]), DecodeError>
    ensures { Gives (λ x. (x.0, x.1.now)) result (read_last_count first body bytes.now) }
{
    let (count, rest) = read_u32(bytes)?;
    if !is_whole(body, first, count) {
        return Err(DecodeError::Bad(BAD_BODY_LENGTH));
    }
    Ok((count, rest))
}

/// So many bytes as they are, and the bytes after them.
#[tactic(auto, unfolding(crate::specs::Fields::read_bytes))]
pub fn read_bytes(
    alloc: Global,
    count: u32,
    bytes: &[u8],
) -> Result<(Listed<u8>, &[u8]), DecodeError>
    ensures { Gives (λ x. (x.0, x.1.now)) result (read_bytes count bytes.now) }
{
    if bytes.len() < count as usize {
        return Err(DecodeError::Cut);
    }
    let (front, rest) = bytes.split_at(count as usize);
    Ok((Listed::from_vec(Vec::from_slice(alloc, front)?), rest))
}

/// The bytes that end a body of `body` bytes, after their count; `first` bytes of the body are not these. Another body
/// is `Bad(BAD_BODY_LENGTH)`.
#[tactic(auto, unfolding(crate::specs::Fields::read_last_bytes))]
pub fn read_last_bytes(
    alloc: Global,
    first: u32,
    body: u32,
    bytes: &[u8],
) -> Result<(Listed<u8>, &[u8]), DecodeError>
    ensures { Gives (λ x. (x.0, x.1.now)) result (read_last_bytes first body bytes.now) }
{
    let (count, rest) = read_last_count(first, body, bytes)?;
    read_bytes(alloc, count, rest)
}

/// Puts bytes after their count at the end.
#[tactic(auto, unfolding(crate::specs::Fields::counted_bytes))]
pub fn put_bytes(into: &mut Vec<u8>, bytes: &[u8])
    requires few { length bytes.now < 2 ^ 32 }
    requires room { HasRoom into.old (COUNT_BYTES + length bytes.now) }
    ensures { Gains into.old into.new (counted_bytes bytes.now) (COUNT_BYTES + length bytes.now) }
{
    put_u32(into, bytes.len() as u32);
    into.extend_from_slice(bytes).unwrap();
}

/// What may be an element of a list within a frame.
pub trait Element: Sized + Drop {
    ghost spelled: { Self → List ℕ };

    ghost count: { Self → ℕ };

    ghost IsLawful: { Self → Type 0 };

    ghost read_as: { List ℕ → Result (Self × List ℕ) DecodeError };

    /// An element, and the bytes after it.
    fn read(alloc: Global, bytes: &[u8]) -> Result<(Self, &[u8]), DecodeError>
        ensures { Gives (λ x. (x.0, x.1.now)) result (read_as bytes.now) };

    /// Puts a lawful element at the end.
    fn put(&self, into: &mut Vec<u8>)
        requires lawful { IsLawful self.now }
        requires room { HasRoom into.old (count self.now) }
        ensures { Gains into.old into.new (spelled self.now) (count self.now) };
}

impl Element for Ended {
    ghost use Rattle.rk_entry.specs.declared.kind.TheConstants.{END_BYTES};
    ghost use Rattle.rk_entry.specs.Ends.{end_bytes, read_end, IsLawfulEnd};

    ghost spelled = { end_bytes };

    ghost count = { λ end. END_BYTES };

    ghost IsLawful = { IsLawfulEnd };

    ghost read_as = { read_end 0 };

    fn read(_alloc: Global, bytes: &[u8]) -> Result<(Ended, &[u8]), DecodeError> {
        read_end(0, bytes)
    }

    fn put(&self, into: &mut Vec<u8>) {
        put_end(into, self);
    }
}

/// So many elements, one after the other, and the bytes after them.
pub fn read_list<T: Element>(
    alloc: Global,
    count: u32,
    bytes: &[u8],
) -> Result<(Listed<T>, &[u8]), DecodeError>
    ensures { Gives (λ x. (x.0, x.1.now)) result (read_list T.read_as count bytes.now) }
{
    let mut elements = Listed::new(alloc);
    let mut rest = bytes;
    'elements: for _ in 0..count {
        let (element, after) = T::read(alloc, rest)?;
        elements.push(element)?;
        rest = after;
    }
    Ok((elements, rest))
}

/// A list after its count that ends a body of `body` bytes: `first` that are not its elements', and `each` of each
/// element. Another body is `Bad(BAD_BODY_LENGTH)`.
#[tactic(auto, unfolding(crate::specs::Fields::read_last_list))]
pub fn read_last_list<T: Element>(
    alloc: Global,
    first: u32,
    each: u32,
    body: u32,
    bytes: &[u8],
) -> Result<(Listed<T>, &[u8]), DecodeError>
    ensures { Gives (λ x. (x.0, x.1.now)) result (read_last_list T.read_as first each body bytes.now) }
{
    let (count, rest) = read_u32(bytes)?;
    if body as u64 != first as u64 + each as u64 * count as u64 {
        return Err(DecodeError::Bad(BAD_BODY_LENGTH));
    }
    read_list(alloc, count, rest)
}

/// Puts lawful elements at the end, one after the other.
#[tactic(auto, unfolding(crate::specs::Fields::elements_bytes))]
pub fn put_elements<T: Element>(into: &mut Vec<u8>, elements: &[T])
    requires lawful { AllByRecursion T.IsLawful elements.now }
    requires room { HasRoom into.old (sum_by T.count elements.now) }
    ensures { Gains into.old into.new (elements_bytes T.spelled elements.now) (sum_by T.count elements.now) }
{
    'elements: for element in elements {
        element.put(into);
    }
}

/// Puts a list of lawful elements after its count at the end.
#[tactic(auto, unfolding(crate::specs::Fields::list_bytes))]
pub fn put_list<T: Element>(into: &mut Vec<u8>, elements: &[T])
    requires few { length elements.now < 2 ^ 32 }
    requires lawful { AllByRecursion T.IsLawful elements.now }
    requires room { HasRoom into.old (COUNT_BYTES + sum_by T.count elements.now) }
    ensures { Gains into.old into.new (list_bytes T.spelled elements.now) (COUNT_BYTES + sum_by T.count elements.now) }
{
    put_u32(into, elements.len() as u32);
    put_elements(into, elements);
}
