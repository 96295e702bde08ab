//! The codes of types of units (DWARF 5, 7.5.1), and of what the columns of a line table hold (7.22).

pub const DW_UT_COMPILE: u8 = 0x01;

pub const DW_UT_TYPE: u8 = 0x02;

pub const DW_UT_PARTIAL: u8 = 0x03;

pub const DW_LNCT_PATH: u64 = 0x01;

pub const DW_LNCT_DIRECTORY_INDEX: u64 = 0x02;
