//! Changes of the text of one slot.

use crate::kind::Kind;

/// A change of one slot.
#[derive(Clone, Copy, Debug)]
pub enum Change {
    /// Pushes the character onto the text, if its format has it.
    PushChar(char),
    /// Changes the bytes, in any format.
    Edit(Edit),
    /// Changes the bytes of a text in the format `Bytes`.
    EditBytes(ByteEdit),
    /// Changes the format.
    Convert(Conversion),
    /// Replaces the text by a clone that was made sendable and taken back. No thread is started.
    ThroughSend,
    /// Drops the slot. Its number isn't used again.
    Drop,
}

/// A change of a text's bytes, which keeps its format.
#[derive(Clone, Copy, Debug)]
pub enum Edit {
    /// Drops a number of bytes from the front.
    PopFront(u32),
    /// Drops a number of bytes from the back.
    PopBack(u32),
    /// Removes all bytes.
    Clear,
    /// Reserves spare capacity for a number of bytes.
    Reserve(u32),
}

/// A change that only a text in the format `Bytes` allows, since any bytes are valid there.
#[derive(Clone, Copy, Debug)]
pub enum ByteEdit {
    /// Pushes a number of zeros.
    PushZeros(u32),
    /// Sets the byte at an index.
    WriteByte(u32, u8),
}

/// A change of a text's format, which keeps its bytes.
#[derive(Clone, Copy, Debug)]
pub enum Conversion {
    /// To another format, if the bytes are valid in it.
    Reinterpret(Kind),
    /// To a larger format.
    ToSuperset(Kind),
    /// To a smaller format, if the bytes are valid in it.
    ToSubset(Kind),
}
