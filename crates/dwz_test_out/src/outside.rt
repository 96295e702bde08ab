//! Files on a disk, and the console: what is done to them, step by step, and what is then seen of them. Files and consoles in memory are
//! those of the rows of `dwz_test_rows`.

use crate::expect::holds;
use dwz_outside::{Console, DiskFiles, Files, GetErr, StdConsole};
use std::alloc::Global;
use std::fs::Permissions;
use std::os::unix::fs::PermissionsExt;
use std::process::Abort;
use std::{fs, process, rt};

/// What is done to a file on a disk, or seen of it.
#[derive(Clone, Copy)]
enum OnDisk {
    Write(&'static [u8]),
    SetMode(u32),
    /// With what a get gives. None: it fails.
    Got(Option<&'static [u8]>),
    /// With whether a put is done.
    Puts(&'static [u8], bool),
    Exists(bool),
    /// Its permission bits.
    HasMode(u32),
    /// They are those of the file whose path has this ending behind.
    HasModeOf(&'static str),
    /// Gives it a second hard link, whose path has this ending behind.
    Link(&'static str),
    /// In its place a name that is no text, of which neither a put nor a get is done.
    NoText,
}

use OnDisk::{Exists, Got, HasMode, HasModeOf, Link, NoText, Puts, SetMode, Write};

/// Steps in a folder, whose name has this ending. A step says what it shows, and how the path goes on behind the folder.
struct Folder {
    ending: &'static str,
    /// The longest path that can be put.
    longest: &'static str,
    steps: &'static [(&'static str, &'static str, OnDisk)],
}

/// A name that has no room for the ending of a temporary file.
const LONG: &str =
    "/nnnnnnnnnnnnnnnnnnnnnnnnnnnnnnnnnnnnnnnnnnnnnnnnnnnnnnnnnnnnnnnnnnnnnnnnnnnnnnnnnnnnnnnnnnnnnnnnnnnnnnnnnnnnnnnnnnnnnnnnnnnnnnnnnnnnnnnnnnnnnnnnnnnnnnnnnnnnnnnnnnnnnnnnnnnnnnnnnnnnnnnnnnnnnnnnnnnnnnnnnnnnnnnnnnnnnnnnnnnnnnnnnnnnnnnnnnnnnnnnnnnnnnnnnn";

const FOLDERS: &[Folder] = &[
    Folder {
        ending: "names",
        longest: LONG,
        steps: &[
            ("written", "/a", Write(b"old")),
            ("got", "/a", Got(Some(b"old"))),
            ("by another name", "/./a", Puts(b"lost", false)),
            ("still there", "/a", Got(Some(b"old"))),
            ("by its name", "/a", Puts(b"new", true)),
            ("replaced, by another name", "/./a", Puts(b"newer", true)),
            ("put there", "/a", Got(Some(b"newer"))),
            ("a long name", LONG, Puts(b"long", true)),
            ("which is there", LONG, Got(Some(b"long"))),
        ],
    },
    Folder {
        ending: "put",
        longest: "/a",
        steps: &[
            ("missing", "/a", Got(None)),
            ("put", "/a", Puts(b"first", true)),
            ("got", "/a", Got(Some(b"first"))),
            ("a second link", "/a", Link("-link")),
            ("replaced", "/a", Puts(b"no", true)),
            ("got again", "/a", Got(Some(b"no"))),
            ("keeps what was", "/a-link", Got(Some(b"first"))),
            ("nothing beside it", "/a.dwz-tmp", Exists(false)),
            ("too long", "/ab", Puts(b"long", false)),
            ("not put", "/ab", Exists(false)),
            ("not text", "", NoText),
            ("a folder", "", Puts(b"a folder", false)),
            ("removed after the fault", ".dwz-tmp", Exists(false)),
        ],
    },
    Folder {
        ending: "beside",
        longest: "/a",
        steps: &[
            ("written beside", "/a.dwz-tmp", Write(b"another's")),
            ("in the way", "/a", Puts(b"new", false)),
            ("not put", "/a", Exists(false)),
            ("stays", "/a.dwz-tmp", Got(Some(b"another's"))),
        ],
    },
    Folder {
        ending: "modes",
        longest: "/common",
        steps: &[
            ("written", "/old", Write(b"program")),
            ("its mode", "/old", SetMode(0o751)),
            ("got", "/old", Got(Some(b"program"))),
            ("put elsewhere", "/new", Puts(b"elsewhere", true)),
            ("has the mode of what was got", "/new", HasMode(0o751)),
            ("its own mode", "/new", SetMode(0o710)),
            ("put again", "/new", Puts(b"again", true)),
            ("keeps its own mode", "/new", HasMode(0o710)),
            ("put in place", "/old", Puts(b"in place", true)),
            ("keeps its mode", "/old", HasMode(0o751)),
            ("got as well", "/new", Got(Some(b"again"))),
            ("put after two gets", "/common", Puts(b"common", true)),
            ("any new file", "/common-any", Write(b"any")),
            ("is made as it is", "/common", HasModeOf("-any")),
        ],
    },
];

/// Whether a get of this name gives these bytes, or fails, other than for want of memory, where there are none.
fn gives<R: rt::Files>(
    alloc: Global,
    files: &mut DiskFiles<'_, R>,
    name: &[u8],
    expected: Option<&[u8]>,
) -> bool {
    match files.get(alloc, name) {
        Ok(content) => expected == Some(content.as_slice()),
        Err(GetErr::Failed) => expected.is_none(),
        Err(GetErr::NoMemory) => false,
    }
}

/// Whether a put of this name is done.
fn is_put<R: rt::Files + Abort>(
    rt: &R,
    alloc: Global,
    files: &mut DiskFiles<'_, R>,
    name: &[u8],
    bytes: &[u8],
) -> bool {
    let name = Vec::from_slice(alloc, name).expect(rt, "memory");
    files.put(name, bytes).is_ok()
}

/// The permission bits of a file.
fn mode_of<R: rt::Files + Abort>(rt: &R, path: &str) -> u32 {
    let metadata = fs::metadata(rt, path).expect(rt, "a file");
    metadata.permissions().mode() & 0o777
}

/// Whether a step with this path goes as it says.
fn goes<R: rt::Files + Abort>(
    rt: &R,
    alloc: Global,
    files: &mut DiskFiles<'_, R>,
    path: &str,
    step: OnDisk,
) -> bool {
    match step {
        OnDisk::Write(bytes) => fs::write(rt, path, bytes).is_ok(),
        OnDisk::SetMode(mode) => {
            fs::set_permissions(rt, path, Permissions::from_mode(mode)).is_ok()
        }
        OnDisk::Got(content) => gives(alloc, files, path.as_bytes(), content),
        OnDisk::Puts(bytes, done) => is_put(rt, alloc, files, path.as_bytes(), bytes) == done,
        OnDisk::Exists(exists) => fs::exists(rt, path).expect(rt, "an answer") == exists,
        OnDisk::HasMode(mode) => mode_of(rt, path) == mode,
        OnDisk::HasModeOf(ending) => {
            let other = format!(in alloc; "{path}{ending}").expect(rt, "memory");
            mode_of(rt, path) == mode_of(rt, other.as_str())
        }
        OnDisk::Link(ending) => {
            let link = format!(in alloc; "{path}{ending}").expect(rt, "memory");
            fs::hard_link(rt, path, link.as_str()).is_ok()
        }
        OnDisk::NoText => {
            !is_put(rt, alloc, files, b"\xff", b"not text") && gives(alloc, files, b"\xff", None)
        }
    }
}

/// Goes through the steps of a folder, which is new and goes again.
fn go_through<R: rt::Files + Abort + AllocGlobal>(rt: &R, alloc: Global, id: u32, folder: &Folder) {
    let name = format!(in alloc; "/tmp/dwz_outside_{}_{id}", folder.ending).expect(rt, "memory");
    fs::create_dir(rt, name.as_str()).expect(rt, "a folder");
    let longest = name.len().saturating_add(folder.longest.len());
    let mut files = DiskFiles::new(rt, alloc, longest).expect(rt, "memory");
    for &(shows, end, step) in folder.steps {
        let path = format!(in alloc; "{name}{end}").expect(rt, "memory");
        holds(rt, shows, goes(rt, alloc, &mut files, path.as_str(), step));
    }
    fs::remove_dir_all(rt, name.as_str()).expect(rt, "the folder");
}

#[test]
fn files_on_a_disk_are_got_and_replaced(rt: HostRuntime) {
    let id = process::id(rt.process());
    for folder in FOLDERS {
        go_through(&rt, rt.alloc(), id, folder);
    }
}

#[test]
fn a_text_is_printed(rt: HostRuntime) {
    let is_done = StdConsole::new(&rt).put(b"written by a test\n").is_ok();
    holds(&rt, "written", is_done);
}
