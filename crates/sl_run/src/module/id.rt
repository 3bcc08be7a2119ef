//! The ids of a module that writes one buffer, in the order in which its words first mention them.

/// The entry point's function.
pub const ENTRY_POINT: u32 = 1;

/// The variable that holds the dispatch id.
pub const DISPATCH_ID: u32 = 2;

/// The variable of the buffer.
pub const BUFFER: u32 = 3;

/// The type of the buffer's elements, one after another.
pub const ARRAY: u32 = 4;

/// The type of the buffer: a block whose one member is the array.
pub const BLOCK: u32 = 5;

/// The type of unsigned numbers.
pub const UINT: u32 = 6;

/// The type of the dispatch id.
pub const UINT3: u32 = 7;

/// The type of a pointer to the dispatch id.
pub const UINT3_POINTER: u32 = 8;

/// The type of signed numbers.
pub const INT: u32 = 9;

/// The type of a pointer to the buffer's block.
pub const BLOCK_POINTER: u32 = 10;

/// The type with no value.
pub const VOID: u32 = 11;

/// The type of the entry point's function.
pub const VOID_FUNCTION: u32 = 12;

/// The type of a pointer to the index's variable.
pub const UINT_POINTER: u32 = 13;

/// The type of a test's result.
pub const BOOL: u32 = 14;

/// The type of a pointer to an element.
pub const INT_POINTER: u32 = 15;

/// The constant 0, which names the block's one member.
pub const ZERO: u32 = 16;

/// The constant that is written.
pub const VALUE: u32 = 17;

/// The first label of the function.
pub const START: u32 = 18;

/// The variable of the index.
pub const INDEX_VARIABLE: u32 = 19;

/// The dispatch id as it was read.
pub const VECTOR: u32 = 20;

/// Its first component.
pub const COMPONENT: u32 = 21;

/// The index as the test reads it.
pub const TESTED_INDEX: u32 = 22;

/// The number of the buffer's elements.
pub const LENGTH: u32 = 23;

/// Whether the index is below that number.
pub const WITHIN: u32 = 24;

/// The label behind the write.
pub const MERGE: u32 = 25;

/// The label of the write.
pub const INNER: u32 = 26;

/// The index as the write reads it.
pub const INDEX: u32 = 27;

/// The pointer to the element.
pub const ELEMENT: u32 = 28;

/// One more than the last id.
pub const BOUND: u32 = 29;
