//! The kinds of messages: the byte that stands behind a message's length.

pub const KIND_LIST: u8 = 0x01;

pub const KIND_FETCH: u8 = 0x02;

pub const KIND_STAGE_CLEAR: u8 = 0x03;

pub const KIND_STAGE_OPEN: u8 = 0x04;

pub const KIND_STAGE_APPEND: u8 = 0x05;

pub const KIND_STAGE_KEEP: u8 = 0x06;

pub const KIND_PLACE: u8 = 0x07;

pub const KIND_MAKE_DIR: u8 = 0x08;

pub const KIND_MAKE_LINK: u8 = 0x09;

pub const KIND_REMOVE: u8 = 0x0a;

pub const KIND_SET_EXEC: u8 = 0x0b;

pub const KIND_LISTED: u8 = 0x81;

pub const KIND_HELD: u8 = 0x82;

pub const KIND_PIECE: u8 = 0x83;

pub const KIND_CHANGED: u8 = 0x84;

pub const KIND_TOO_LARGE: u8 = 0x85;

pub const KIND_CLEARED: u8 = 0x86;

pub const KIND_OPENED: u8 = 0x87;

pub const KIND_NOT_STAGED: u8 = 0x88;

pub const KIND_KEPT: u8 = 0x89;

pub const KIND_DIGEST_DIFFERS: u8 = 0x8a;

pub const KIND_DONE: u8 = 0x8b;

pub const KIND_NO_PARENT: u8 = 0x8c;

pub const KIND_DIFFERS: u8 = 0x8d;

pub const KIND_NOT_EMPTY: u8 = 0x8e;

pub const KIND_NO_EXEC: u8 = 0x8f;

pub const KIND_FULL: u8 = 0x90;

pub const KIND_FAILED: u8 = 0x91;

pub const KIND_NO_MEMORY: u8 = 0x92;

pub const KIND_TOO_LONG: u8 = 0x93;

pub const KIND_NO_LINK: u8 = 0x94;
