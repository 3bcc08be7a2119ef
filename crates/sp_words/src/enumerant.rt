//! The enumerants in use, by number. Each is named by its kind and its own name, since two kinds
//! may share a name (the titles are those of sections of SPIR-V 1.5, 3, "Binary Form").

/// `GLCompute` ("Execution Model").
pub const EXECUTION_MODEL_GL_COMPUTE: u32 = 5;

/// `Logical` ("Addressing Model").
pub const ADDRESSING_MODEL_LOGICAL: u32 = 0;

/// `GLSL450` ("Memory Model").
pub const MEMORY_MODEL_GLSL450: u32 = 1;

/// `LocalSize` ("Execution Mode").
pub const EXECUTION_MODE_LOCAL_SIZE: u32 = 17;

/// `Input` ("Storage Class").
pub const STORAGE_CLASS_INPUT: u32 = 1;

/// `Function` ("Storage Class").
pub const STORAGE_CLASS_FUNCTION: u32 = 7;

/// `StorageBuffer` ("Storage Class").
pub const STORAGE_CLASS_STORAGE_BUFFER: u32 = 12;

/// `Block` ("Decoration").
pub const DECORATION_BLOCK: u32 = 2;

/// `ArrayStride` ("Decoration").
pub const DECORATION_ARRAY_STRIDE: u32 = 6;

/// `BuiltIn` ("Decoration").
pub const DECORATION_BUILT_IN: u32 = 11;

/// `NonWritable` ("Decoration").
pub const DECORATION_NON_WRITABLE: u32 = 24;

/// `Binding` ("Decoration").
pub const DECORATION_BINDING: u32 = 33;

/// `DescriptorSet` ("Decoration").
pub const DECORATION_DESCRIPTOR_SET: u32 = 34;

/// `Offset` ("Decoration").
pub const DECORATION_OFFSET: u32 = 35;

/// `GlobalInvocationId` ("BuiltIn").
pub const BUILT_IN_GLOBAL_INVOCATION_ID: u32 = 28;

/// `None` ("Selection Control").
pub const SELECTION_CONTROL_NONE: u32 = 0;

/// `None` ("Function Control").
pub const FUNCTION_CONTROL_NONE: u32 = 0;

/// `Shader` ("Capability").
pub const CAPABILITY_SHADER: u32 = 1;
