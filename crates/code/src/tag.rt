// The tags: the first byte of each instruction, in document 01's order. Each group has one width.
// They are bytes and no enum: what is matched is a byte of the code, which may be any, and it is looked up just once.

// Width 1.
pub const UNIT: u8 = 0x01;

pub const FALSE: u8 = 0x02;

pub const TRUE: u8 = 0x03;

pub const POP: u8 = 0x04;

pub const TICK: u8 = 0x05;

pub const CHECKPOINT: u8 = 0x06;

pub const RETURN: u8 = 0x07;

pub const THROW: u8 = 0x08;

pub const ITER_INIT: u8 = 0x09;

pub const ITER_DROP: u8 = 0x0a;

pub const INTERPOLATE_START: u8 = 0x0b;

pub const INTERPOLATE_APPEND: u8 = 0x0c;

pub const INTERPOLATE_END: u8 = 0x0d;

pub const POP_HANDLER: u8 = 0x0e;

pub const IS_SHARED: u8 = 0x0f;

pub const MAKE_FN_PTR: u8 = 0x10;

pub const LOAD_THIS: u8 = 0x11;

pub const LOAD_THIS_SHARED: u8 = 0x12;

pub const REQUIRE_THIS: u8 = 0x13;

pub const ASSIGN_THIS: u8 = 0x14;

// Width 2.
pub const ROTATE: u8 = 0x15;

pub const CURRY: u8 = 0x16;

pub const CALL_FN_PTR: u8 = 0x17;

pub const CALL_FN_PTR_CAPTURE: u8 = 0x18;

pub const CALL_FN_PTR_METHOD: u8 = 0x19;

pub const CALL_FN_PTR_ON_THIS: u8 = 0x1a;

// Width 3.
pub const UNWIND_TO: u8 = 0x1b;

pub const STATEMENT: u8 = 0x1c;

pub const SHARE: u8 = 0x1d;

pub const SHARE_NAMED: u8 = 0x1e;

pub const LOAD_SHARED: u8 = 0x1f;

pub const LOAD_SHARED_NAMED: u8 = 0x20;

pub const STORE_SHARED: u8 = 0x21;

pub const ASSIGN_THIS_OP: u8 = 0x22;

pub const MAKE_CLOSURE: u8 = 0x23;

pub const LOAD_CONST: u8 = 0x24;

pub const LOAD_LOCAL: u8 = 0x25;

pub const LOAD_NAMED: u8 = 0x26;

pub const STORE_LOCAL: u8 = 0x27;

pub const STORE_CONST: u8 = 0x28;

pub const DECLARE_LOCAL: u8 = 0x29;

pub const DECLARE_CONST: u8 = 0x2a;

pub const DECLARE_GLOBAL_CONST: u8 = 0x2b;

pub const CHAIN: u8 = 0x2c;

pub const MAKE_ARRAY: u8 = 0x2d;

pub const MAKE_MAP: u8 = 0x2e;

pub const CHECK_ARRAY_SIZE: u8 = 0x2f;

pub const CHECK_MAP_SIZE: u8 = 0x30;

pub const SWITCH: u8 = 0x31;

pub const CUSTOM_SYNTAX: u8 = 0x32;

pub const ASSIGN_NAMED: u8 = 0x33;

pub const IMPORT: u8 = 0x4f;

// Width 4.
pub const CALL: u8 = 0x34;

pub const CALL_THIS_REF: u8 = 0x35;

pub const CALL_FN_PTR_ON_LOCAL: u8 = 0x36;

pub const CALL_FN_PTR_ON_NAMED: u8 = 0x37;

// Width 5.
pub const JUMP: u8 = 0x38;

pub const JUMP_IF_TRUE: u8 = 0x39;

pub const JUMP_IF_FALSE: u8 = 0x3a;

pub const SKIP_IF_NOT_UNIT: u8 = 0x3b;

pub const ITER_NEXT: u8 = 0x3c;

pub const PUSH_HANDLER: u8 = 0x3d;

pub const EXPORT_LOCAL: u8 = 0x3e;

pub const EXPORT_NAMED: u8 = 0x3f;

pub const ASSIGN_LOCAL: u8 = 0x40;

pub const ASSIGN_NAMED_OP: u8 = 0x41;

// Width 6.
pub const CALL_OP: u8 = 0x42;

pub const CALL_LOCAL_REF: u8 = 0x43;

pub const CALL_NAMED_REF: u8 = 0x44;

// Width 7.
pub const ITER_NEXT_INDEXED: u8 = 0x45;

pub const PUSH_HANDLER_VAR: u8 = 0x46;

pub const ASSIGN_LOCAL_OP: u8 = 0x47;
