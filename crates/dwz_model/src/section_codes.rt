//! The codes of sections in faults.

/// The file itself.
pub const WHOLE_FILE: u8 = 0;

/// `.debug_info`
pub const DEBUG_INFO: u8 = 1;

/// `.debug_abbrev`
pub const DEBUG_ABBREV: u8 = 2;

/// `.debug_str`
pub const DEBUG_STR: u8 = 3;

/// `.debug_line_str`
pub const DEBUG_LINE_STR: u8 = 4;

/// `.debug_str_offsets`
pub const DEBUG_STR_OFFSETS: u8 = 5;

/// `.debug_line`
pub const DEBUG_LINE: u8 = 6;

/// `.debug_loclists`
pub const DEBUG_LOCLISTS: u8 = 7;

/// `.debug_aranges`
pub const DEBUG_ARANGES: u8 = 8;

/// `.debug_sup`
pub const DEBUG_SUP: u8 = 9;
