//! Texts that no row of `dwz_test_rows` asks for, written by hand from the documentation of the program.

use crate::expect::holds;
use dwz_model::{DEBUG_LOCLISTS, DEBUG_SUP, Reason, Refusal};
use dwz_report::{memory_text, read_text, refusal_text, usage_text, write_text};

const FAR: Refusal = Refusal {
    file: 3,
    section: DEBUG_LOCLISTS,
    at: u64::MAX,
    reason: Reason::UnsupportedOp { op: 0x0a },
};

const LARGE: Refusal = Refusal {
    file: 3,
    section: DEBUG_SUP,
    at: 0,
    reason: Reason::TooLarge,
};

#[test]
fn texts_read_as_documented(rt: HostRuntime) {
    let text = refusal_text(rt.alloc(), b"bad", &FAR).expect(&rt, "memory");
    let told = b"dwz: bad: .debug_loclists+0xffffffffffffffff: unsupported operator 0xa\n";
    holds(&rt, "an operator", text.as_slice() == told.as_slice());
    let text = refusal_text(rt.alloc(), b"bad", &LARGE).expect(&rt, "memory");
    let told = b"dwz: bad: .debug_sup+0x0: output too large\n";
    holds(&rt, "an output", text.as_slice() == told.as_slice());
    let text = read_text(rt.alloc(), b"a b").expect(&rt, "memory");
    let told = b"dwz: cannot read a b\n";
    holds(&rt, "a blank in a name", text.as_slice() == told.as_slice());
    let text = write_text(rt.alloc(), b"").expect(&rt, "memory");
    let told = b"dwz: cannot write \n";
    holds(&rt, "an empty name", text.as_slice() == told.as_slice());
    let told =
        b"usage: dwz [-q] [--dwarf-5] [-m COMMON [-M NAME]] [-o OUT] [-j N] FILE... | --demo N | --reuse COMMON [-M NAME] [-o OUT] [-j N] FILE... | --batch COMMON [-M NAME] [-j N] FILE... | --explain FILE OFFSET FILE OFFSET | --expand FILE [--sup COMMON] -o OUT | --check OLD NEW [--sup COMMON]\n";
    holds(&rt, "the usage", usage_text() == told.as_slice());
    let told = b"dwz: out of memory\n";
    holds(&rt, "no memory", memory_text() == told.as_slice());
}
