//! The opcodes in use, by number (SPIR-V 1.5, 3, "Instructions").

/// `OpName`, one of the "Debug Instructions".
pub const NAME: u16 = 5;

/// `OpMemoryModel`, one of the "Mode-Setting Instructions".
pub const MEMORY_MODEL: u16 = 14;

/// `OpEntryPoint`, one of the "Mode-Setting Instructions".
pub const ENTRY_POINT: u16 = 15;

/// `OpExecutionMode`, one of the "Mode-Setting Instructions".
pub const EXECUTION_MODE: u16 = 16;

/// `OpCapability`, one of the "Mode-Setting Instructions".
pub const CAPABILITY: u16 = 17;

/// `OpTypeVoid`, one of the "Type-Declaration Instructions".
pub const TYPE_VOID: u16 = 19;

/// `OpTypeBool`, one of the "Type-Declaration Instructions".
pub const TYPE_BOOL: u16 = 20;

/// `OpTypeInt`, one of the "Type-Declaration Instructions".
pub const TYPE_INT: u16 = 21;

/// `OpTypeVector`, one of the "Type-Declaration Instructions".
pub const TYPE_VECTOR: u16 = 23;

/// `OpTypeRuntimeArray`, one of the "Type-Declaration Instructions".
pub const TYPE_RUNTIME_ARRAY: u16 = 29;

/// `OpTypeStruct`, one of the "Type-Declaration Instructions".
pub const TYPE_STRUCT: u16 = 30;

/// `OpTypePointer`, one of the "Type-Declaration Instructions".
pub const TYPE_POINTER: u16 = 32;

/// `OpTypeFunction`, one of the "Type-Declaration Instructions".
pub const TYPE_FUNCTION: u16 = 33;

/// `OpConstantTrue`, one of the "Constant-Creation Instructions".
pub const CONSTANT_TRUE: u16 = 41;

/// `OpConstantFalse`, one of the "Constant-Creation Instructions".
pub const CONSTANT_FALSE: u16 = 42;

/// `OpConstant`, one of the "Constant-Creation Instructions".
pub const CONSTANT: u16 = 43;

/// `OpConstantNull`, one of the "Constant-Creation Instructions".
pub const CONSTANT_NULL: u16 = 46;

/// `OpFunction`, one of the "Function Instructions".
pub const FUNCTION: u16 = 54;

/// `OpFunctionParameter`, one of the "Function Instructions".
pub const FUNCTION_PARAMETER: u16 = 55;

/// `OpFunctionEnd`, one of the "Function Instructions".
pub const FUNCTION_END: u16 = 56;

/// `OpFunctionCall`, one of the "Function Instructions".
pub const FUNCTION_CALL: u16 = 57;

/// `OpVariable`, one of the "Memory Instructions".
pub const VARIABLE: u16 = 59;

/// `OpLoad`, one of the "Memory Instructions".
pub const LOAD: u16 = 61;

/// `OpStore`, one of the "Memory Instructions".
pub const STORE: u16 = 62;

/// `OpAccessChain`, one of the "Memory Instructions".
pub const ACCESS_CHAIN: u16 = 65;

/// `OpArrayLength`, one of the "Memory Instructions".
pub const ARRAY_LENGTH: u16 = 68;

/// `OpDecorate`, one of the "Annotation Instructions".
pub const DECORATE: u16 = 71;

/// `OpMemberDecorate`, one of the "Annotation Instructions".
pub const MEMBER_DECORATE: u16 = 72;

/// `OpCompositeConstruct`, one of the "Composite Instructions".
pub const COMPOSITE_CONSTRUCT: u16 = 80;

/// `OpCompositeExtract`, one of the "Composite Instructions".
pub const COMPOSITE_EXTRACT: u16 = 81;

/// `OpBitcast`, one of the "Conversion Instructions".
pub const BITCAST: u16 = 124;

/// `OpSNegate`, one of the "Arithmetic Instructions".
pub const SIGNED_NEGATE: u16 = 126;

/// `OpIAdd`, one of the "Arithmetic Instructions".
pub const INTEGER_ADD: u16 = 128;

/// `OpISub`, one of the "Arithmetic Instructions".
pub const INTEGER_SUBTRACT: u16 = 130;

/// `OpIMul`, one of the "Arithmetic Instructions".
pub const INTEGER_MULTIPLY: u16 = 132;

/// `OpUDiv`, one of the "Arithmetic Instructions".
pub const UNSIGNED_DIVIDE: u16 = 134;

/// `OpSDiv`, one of the "Arithmetic Instructions".
pub const SIGNED_DIVIDE: u16 = 135;

/// `OpUMod`, one of the "Arithmetic Instructions".
pub const UNSIGNED_MODULO: u16 = 137;

/// `OpSRem`, one of the "Arithmetic Instructions".
pub const SIGNED_REMAINDER: u16 = 138;

/// `OpLogicalEqual`, one of the "Relational and Logical Instructions".
pub const LOGICAL_EQUAL: u16 = 164;

/// `OpLogicalNotEqual`, one of the "Relational and Logical Instructions".
pub const LOGICAL_NOT_EQUAL: u16 = 165;

/// `OpLogicalOr`, one of the "Relational and Logical Instructions".
pub const LOGICAL_OR: u16 = 166;

/// `OpLogicalAnd`, one of the "Relational and Logical Instructions".
pub const LOGICAL_AND: u16 = 167;

/// `OpLogicalNot`, one of the "Relational and Logical Instructions".
pub const LOGICAL_NOT: u16 = 168;

/// `OpSelect`, one of the "Relational and Logical Instructions".
pub const SELECT: u16 = 169;

/// `OpIEqual`, one of the "Relational and Logical Instructions".
pub const INTEGER_EQUAL: u16 = 170;

/// `OpINotEqual`, one of the "Relational and Logical Instructions".
pub const INTEGER_NOT_EQUAL: u16 = 171;

/// `OpUGreaterThan`, one of the "Relational and Logical Instructions".
pub const UNSIGNED_GREATER_THAN: u16 = 172;

/// `OpSGreaterThan`, one of the "Relational and Logical Instructions".
pub const SIGNED_GREATER_THAN: u16 = 173;

/// `OpUGreaterThanEqual`, one of the "Relational and Logical Instructions".
pub const UNSIGNED_GREATER_THAN_EQUAL: u16 = 174;

/// `OpSGreaterThanEqual`, one of the "Relational and Logical Instructions".
pub const SIGNED_GREATER_THAN_EQUAL: u16 = 175;

/// `OpULessThan`, one of the "Relational and Logical Instructions".
pub const UNSIGNED_LESS_THAN: u16 = 176;

/// `OpSLessThan`, one of the "Relational and Logical Instructions".
pub const SIGNED_LESS_THAN: u16 = 177;

/// `OpULessThanEqual`, one of the "Relational and Logical Instructions".
pub const UNSIGNED_LESS_THAN_EQUAL: u16 = 178;

/// `OpSLessThanEqual`, one of the "Relational and Logical Instructions".
pub const SIGNED_LESS_THAN_EQUAL: u16 = 179;

/// `OpShiftRightLogical`, one of the "Bit Instructions".
pub const SHIFT_RIGHT_LOGICAL: u16 = 194;

/// `OpShiftRightArithmetic`, one of the "Bit Instructions".
pub const SHIFT_RIGHT_ARITHMETIC: u16 = 195;

/// `OpShiftLeftLogical`, one of the "Bit Instructions".
pub const SHIFT_LEFT_LOGICAL: u16 = 196;

/// `OpBitwiseOr`, one of the "Bit Instructions".
pub const BITWISE_OR: u16 = 197;

/// `OpBitwiseXor`, one of the "Bit Instructions".
pub const BITWISE_XOR: u16 = 198;

/// `OpBitwiseAnd`, one of the "Bit Instructions".
pub const BITWISE_AND: u16 = 199;

/// `OpNot`, one of the "Bit Instructions".
pub const BITWISE_NOT: u16 = 200;

/// `OpLoopMerge`, one of the "Control-Flow Instructions".
pub const LOOP_MERGE: u16 = 246;

/// `OpSelectionMerge`, one of the "Control-Flow Instructions".
pub const SELECTION_MERGE: u16 = 247;

/// `OpLabel`, one of the "Control-Flow Instructions".
pub const LABEL: u16 = 248;

/// `OpBranch`, one of the "Control-Flow Instructions".
pub const BRANCH: u16 = 249;

/// `OpBranchConditional`, one of the "Control-Flow Instructions".
pub const BRANCH_CONDITIONAL: u16 = 250;

/// `OpReturn`, one of the "Control-Flow Instructions".
pub const RETURN: u16 = 253;

/// `OpReturnValue`, one of the "Control-Flow Instructions".
pub const RETURN_VALUE: u16 = 254;
