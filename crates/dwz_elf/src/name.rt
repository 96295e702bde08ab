//! The names of sections.
//!
//! No name is read past 24 bytes. Where the last name of the table ends is looked for once, from the back, and a name that begins before
//! that place ends: so many sections that name one long text cost no time.

ghost use Rattle.std.specs.Prelude.{◌≡◌, ℕ, ◌+◌, ◌<◌, ◌≤◌, IfSome, length, drop, take, nat_lt, is_some, nat_eq, codes};
ghost use Rattle.std.specs.List.{list_any, starts_with};
ghost use Rattle.std.specs.Str.{bytes_eq};
ghost use Rattle.dwz_def_reading.specs.ElfNames;
ghost use Rattle.dwz_elf.specs.Names.{IsNamesEnd, is_called};

use dwz_def_reading::{Header, Name, Section};

// More bytes than each name has that says something.
const LONG: usize = 24;

// The code of a section with that name.
fn code_of(name: &[u8]) -> u8
    ensures { result ≡ ElfNames.code_of name.now }
{
    if name == b".debug_info".as_slice() {
        return 1;
    }
    if name == b".debug_abbrev".as_slice() {
        return 2;
    }
    if name == b".debug_str".as_slice() {
        return 3;
    }
    if name == b".debug_line_str".as_slice() {
        return 4;
    }
    if name == b".debug_str_offsets".as_slice() {
        return 5;
    }
    if name == b".debug_line".as_slice() {
        return 6;
    }
    if name == b".debug_loclists".as_slice() {
        return 7;
    }
    if name == b".debug_aranges".as_slice() {
        return 8;
    }
    if name == b".debug_sup".as_slice() {
        return 9;
    }
    0
}

// Whether a section with that name can't be kept.
fn is_index(name: &[u8]) -> bool
    ensures { result ≡ list_any (bytes_eq name.now) ElfNames.index_names }
{
    name == b".debug_sup".as_slice()
        || name == b".gnu_debugaltlink".as_slice()
        || name == b".debug_names".as_slice()
        || name == b".gdb_index".as_slice()
        || name == b".debug_pubnames".as_slice()
        || name == b".debug_pubtypes".as_slice()
        || name == b".debug_gnu_pubnames".as_slice()
        || name == b".debug_gnu_pubtypes".as_slice()
        || name == b".debug_types".as_slice()
        || name == b".debug_cu_index".as_slice()
        || name == b".debug_tu_index".as_slice()
}

// Whether a section with that name holds debug information.
fn is_debug(name: &[u8]) -> bool
    ensures { result ≡ starts_with nat_eq name.now (codes ".debug_") }
{
    name.starts_with(b".debug_")
}

/// How many bytes of the name table there are up to the last zero byte: a name that begins among them ends, and no other.
pub(crate) fn names_end(table: &[u8]) -> usize
    ensures { IsNamesEnd table.now result }
{
    let mut end = table.len();
    while end > 0 && table[end - 1] != 0 {
        end -= 1;
    }
    end
}

// The first bytes of the name at the front, which ends.
fn front_of(rest: &[u8]) -> &[u8]
    ensures { IfSome (ElfNames.section_name_in rest.now) (λ name. result.now ≡ take LONG name) }
{
    for i in 0..LONG {
        if i >= rest.len() {
            return rest;
        }
        if rest[i] == 0 {
            return &rest[..i];
        }
    }
    &rest[..LONG]
}

// What the name at a place of the name table says. `end` is the end of the last name.
fn name_of(table: &[u8], end: usize, at: usize) -> Name
    requires { IsNamesEnd table.now end }
    ensures { result ≡ ElfNames.known_name (ElfNames.name_at table.now at) }
{
    if at >= end {
        return Name {
            ends: false,
            code: 0,
            is_debug: false,
            is_index: false,
        };
    }
    let front = front_of(&table[at..]);
    Name {
        ends: true,
        code: code_of(front),
        is_debug: is_debug(front),
        is_index: is_index(front),
    }
}

/// A section header, with what the name says that it refers to. `end` is the end of the last name.
pub(crate) fn section_of(table: &[u8], end: usize, header: &Header) -> Section
    requires { IsNamesEnd table.now end }
    ensures { result ≡ ElfNames.section_named table.now header.now }
{
    Section {
        header: *header,
        name: name_of(table, end, header.name as usize),
    }
}

/// Whether a section has that name, which is short. The table is the one that its header refers to.
pub(crate) fn has_name(table: &[u8], section: &Section, name: &[u8]) -> bool
    requires { length name.now < 24 }
    ensures { section.now ≡ ElfNames.section_named table.now section.now.header
        → result ≡ is_called name.now (ElfNames.name_at table.now section.now.header.name) }
{
    let Some(rest) = table.get(section.header.name as usize..) else {
        return false;
    };
    section.name.ends && front_of(rest) == name
}
