//! Sections of files.

ghost use Rattle.std.specs.Prelude.{◌≡◌, ◌<◌, Some, codes, length, slice_get};
ghost use Rattle.std.specs.Option.{option_map};
ghost use Rattle.dwz_graph_view.specs.Sections.{has_named, section_at};

use dwz_graph::Graph;

/// The bytes of the section with a code (`DEBUG_INFO` and so on) of the file with a number, from 0. None exactly where the file has no such
/// section.
pub fn section<'a>(graph: &Graph<'a>, file: u32, code: u8) -> Option<&'a [u8]>
    requires { file < length graph.now.given }
    ensures { option_map (λ s. s.now) result ≡ section_at graph.now.given file code }
{
    let contents = graph.contents();
    let bytes = contents[file as usize].as_slice();
    let elf = &graph.file(file).elf;
    match elf.section(code) {
        None => None,
        Some(_) => Some(elf.content(bytes, code)),
    }
}

/// Whether the file with a number, from 0, has a section with a name of fewer than 24 bytes, as `.debug_types`, that has a content in the
/// file.
pub fn has_section(graph: &Graph, file: u32, name: &[u8]) -> bool
    requires there { file < length graph.now.given }
    requires short { length name.now < 24 }
    ensures { Some result ≡ option_map (has_named name.now) (slice_get graph.now.given file) }
{
    let contents = graph.contents();
    let bytes = contents[file as usize].as_slice();
    graph.file(file).elf.has_section(bytes, name)
}

/// Whether the file with a number, from 0, has a section `.debug_macro` that has a content in the file.
pub fn has_macro(graph: &Graph, file: u32) -> bool
    requires { file < length graph.now.given }
    ensures { Some result ≡ option_map (has_named (codes ".debug_macro")) (slice_get graph.now.given file) }
{
    has_section(graph, file, b".debug_macro")
}
