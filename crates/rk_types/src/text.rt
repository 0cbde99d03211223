ghost use Rattle.std.specs.Prelude.{◌≡◌, ◌≢◌, ◌≤◌, Some, None, length, IfOk, IfErr, MatchResult};
ghost use Rattle.rk_types.specs.Text.{bad_byte, key_fault, text_fault, value_fault};
ghost use Rattle.rk_types.specs.declared.text.TextError.TheVariants.{NoMemory as no_memory};

use crate::memory::NoMemory;
use smallvec::SmallVec;
use std::alloc::{AllocError, AllocFailed, Global};
use std::cmp::Ordering;
use std::marker::Model;
use thiserror::Error;

/// The most bytes that a key has; the fewest are 1.
pub const LONGEST_KEY: usize = 250;

/// The most bytes that a value has; the fewest are 0.
pub const LONGEST_VALUE: usize = 65_000;

/// The least byte that a key or a value may hold, `!`.
pub const FIRST_TEXT_BYTE: u8 = 0x21;

/// The greatest byte that a key or a value may hold, `~`.
pub const LAST_TEXT_BYTE: u8 = 0x7e;

// As many bytes of a key or a value as this need no memory of their own.
const BYTES_INLINE: usize = 16;

/// Why bytes are no key or no value.
#[derive(Clone, Copy, Debug, PartialEq, Eq, Error)]
pub enum TextError {
    /// There are this many bytes, which is too few or too many.
    #[error("a length of {0} bytes is out of range")]
    Length(usize),
    /// The byte at this place, counted from 0, is no printed character, and none before it is wrong.
    #[error("the byte at place {0} is no printed character")]
    Byte(usize),
    /// Memory ran out.
    #[error("out of memory")]
    NoMemory,
}

impl From<AllocError> for TextError {
    ghost from_gives = { λ _ e. e ≡ no_memory };

    fn from(_error: AllocError) -> TextError {
        TextError::NoMemory
    }
}

// The place of the first byte that no key and no value may hold.
fn first_bad_byte(bytes: &[u8]) -> Option<usize>
    ensures { result ≡ bad_byte bytes.now }
{
    bytes
        .iter()
        .position(|byte| *byte < FIRST_TEXT_BYTE || *byte > LAST_TEXT_BYTE)
}

// Whether these are `shortest` to `longest` bytes of text, or what is wrong with them.
fn check(bytes: &[u8], shortest: usize, longest: usize) -> Result<(), TextError>
    ensures { MatchResult result (λ _. text_fault shortest longest bytes.now ≡ None) (λ e. text_fault shortest longest bytes.now ≡ Some e) }
{
    if bytes.len() < shortest || bytes.len() > longest {
        return Err(TextError::Length(bytes.len()));
    }
    match first_bad_byte(bytes) {
        Some(place) => Err(TextError::Byte(place)),
        None => Ok(()),
    }
}

/// The name of a record: 1 to 250 printed characters other than the blank.
pub struct Key {
    bytes: SmallVec<u8, BYTES_INLINE>,
}

impl Model for Key {
    ghost use Rattle.std.specs.Prelude.{◌≡◌, List, ℕ, None};
    ghost use Rattle.rk_types.specs.Text.{key_fault};

    ghost Value = { List ℕ };

    ghost view = { λ key. key.bytes.items };

    ghost invariant = { λ key. key_fault key.bytes.items ≡ None };
}

impl Key {
    /// The key with these bytes. `Length` gives how many there are if they are too few or too many, and else
    /// `Byte` the first place of a byte that is no printed character.
    pub fn new(alloc: Global, bytes: &[u8]) -> Result<Key, TextError>
        ensures key { IfOk result (λ key. key ≡ bytes.now) }
        ensures lawful { IfOk result (λ _. key_fault bytes.now ≡ None) }
        ensures refused { IfErr result (λ e. e ≢ TextError.NoMemory → key_fault bytes.now ≡ Some e) }
    {
        check(bytes, 1, LONGEST_KEY)?;
        Ok(Key {
            bytes: SmallVec::from_slice(alloc, bytes)?,
        })
    }

    /// The bytes of the key.
    pub fn bytes(&self) -> &[u8]
        ensures value { result.now ≡ self.now }
        ensures lawful { key_fault self.now ≡ None }
    {
        self.bytes.as_slice()
    }

    /// A key of its own with the same bytes.
    pub fn duplicate(&self) -> Result<Key, NoMemory>
        ensures { IfOk result (λ key. key ≡ self.now) }
    {
        Ok(Key {
            bytes: SmallVec::from_slice(*self.bytes.allocator(), self.bytes())?,
        })
    }
}

/// What a record holds: 0 to 65,000 printed characters other than the blank.
pub struct Value {
    bytes: SmallVec<u8, BYTES_INLINE>,
}

impl Model for Value {
    ghost use Rattle.std.specs.Prelude.{◌≡◌, List, ℕ, None};
    ghost use Rattle.rk_types.specs.Text.{value_fault};

    ghost Value = { List ℕ };

    ghost view = { λ value. value.bytes.items };

    ghost invariant = { λ value. value_fault value.bytes.items ≡ None };
}

impl Value {
    /// The value with these bytes. `Length` gives how many there are if they are too many, and else `Byte` the
    /// first place of a byte that is no printed character.
    pub fn new(alloc: Global, bytes: &[u8]) -> Result<Value, TextError>
        ensures value { IfOk result (λ value. value ≡ bytes.now) }
        ensures lawful { IfOk result (λ _. value_fault bytes.now ≡ None) }
        ensures refused { IfErr result (λ e. e ≢ TextError.NoMemory → value_fault bytes.now ≡ Some e) }
    {
        check(bytes, 0, LONGEST_VALUE)?;
        Ok(Value {
            bytes: SmallVec::from_slice(alloc, bytes)?,
        })
    }

    /// The bytes of the value.
    pub fn bytes(&self) -> &[u8]
        ensures value { result.now ≡ self.now }
        ensures lawful { value_fault self.now ≡ None }
    {
        self.bytes.as_slice()
    }

    /// A value of its own with the same bytes.
    pub fn duplicate(&self) -> Result<Value, NoMemory>
        ensures { IfOk result (λ value. value ≡ self.now) }
    {
        Ok(Value {
            bytes: SmallVec::from_slice(*self.bytes.allocator(), self.bytes())?,
        })
    }
}

// No derive, so that to drop a key is a call in proofs, and no cases of where its bytes are.
impl Drop for Key {
    fn drop(self) {
        let Key { bytes: _ } = self;
    }
}

impl PartialEq for Key {
    ghost use Rattle.std.specs.Prelude.{bytes_eq};
    ghost use Rattle.std.proofs.Common.{rules};
    ghost use Rattle.std.specs.Cmp.Rules.{comparing};

    ghost eq = { bytes_eq };

    ghost laws = { Prim.search (comparing, rules) };

    fn eq(&self, other: &Key) -> bool {
        self.bytes() == other.bytes()
    }
}

impl Eq for Key {
    ghost use Rattle.std.proofs.Common.{rules};
    ghost use Rattle.std.specs.Cmp.Rules.{comparing};

    ghost laws = { Prim.search (comparing, rules) };
}

// No derive, so that to drop a value is a call in proofs, and no cases of where its bytes are.
impl Drop for Value {
    fn drop(self) {
        let Value { bytes: _ } = self;
    }
}

impl PartialEq for Value {
    ghost use Rattle.std.specs.Prelude.{bytes_eq};
    ghost use Rattle.std.proofs.Common.{rules};
    ghost use Rattle.std.specs.Cmp.Rules.{comparing};

    ghost eq = { bytes_eq };

    ghost laws = { Prim.search (comparing, rules) };

    fn eq(&self, other: &Value) -> bool {
        self.bytes() == other.bytes()
    }
}

impl Eq for Value {
    ghost use Rattle.std.proofs.Common.{rules};
    ghost use Rattle.std.specs.Cmp.Rules.{comparing};

    ghost laws = { Prim.search (comparing, rules) };
}

impl Ord for Key {
    ghost use Rattle.std.specs.Ordering.{nat_cmp};
    ghost use Rattle.std.specs.Cmp.Lexicographic.{slice_cmp};
    ghost use Rattle.std.proofs.Common.{rules};
    ghost use Rattle.std.specs.Cmp.Rules.{comparing};

    ghost cmp = { slice_cmp nat_cmp };

    ghost total = { Prim.search (comparing, rules) };

    ghost matches_partial_cmp = { Prim.search (comparing, rules) };

    ghost matches_eq = { Prim.search (comparing, rules) };

    fn cmp(&self, other: &Key) -> Ordering {
        self.bytes().cmp(other.bytes())
    }
}

impl PartialOrd for Key {
    ghost use Rattle.std.specs.Ordering.{nat_cmp, as_partial_cmp};
    ghost use Rattle.std.specs.Cmp.Lexicographic.{slice_cmp};
    ghost use Rattle.std.proofs.Common.{rules};
    ghost use Rattle.std.specs.Cmp.{partial_order_from_own_ties};
    ghost use Rattle.std.specs.Cmp.Rules.{comparing};

    ghost partial_cmp = { as_partial_cmp (slice_cmp nat_cmp) };

    ghost laws = { partial_order_from_own_ties (Prim.search (comparing, rules)) (Prim.search (comparing, rules)) };

    fn partial_cmp(&self, other: &Key) -> Option<Ordering> {
        Some(self.cmp(other))
    }
}
