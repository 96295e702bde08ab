use crate::answers::ANSWERS;
use crate::expect::holds;
use dwz_model::Blob;
use dwz_words::{Options, WordsErr, names_got, parse, places_asked};
use std::alloc::Global;
use std::process::Abort;
use std::str;

/// In a line lawful words, and what they ask for: the names of the files that are got, and then two places, each by the number of a file
/// and an offset.
const ASKED: &str = r"--explain a 0x0 b 0x1f => a b: 0+0 1+31
--explain a 0xffffffff a 0x00000010 => a: 0+4294967295 0+16
--explain b 0x89abcdef a 0x1234567 => b a: 0+2309737967 1+19088743
b a 0x1 c d => b a 0x1 c d: 0+0 0+0
-m c a b => a b: 0+0 0+0
--check b a => b a: 0+0 0+0
--check b a --sup c => c b a: 0+0 0+0
--expand a -o b => a: 0+0 0+0
--expand a --sup c -o b => c a: 0+0 0+0
--reuse c a b => c a b: 0+0 0+0
--batch c b a => c b a: 0+0 0+0
--demo 2 => : 0+0 0+0";

/// The words between the blanks.
fn words_of(rt: &impl Abort, alloc: Global, line: &str) -> Vec<Vec<u8>> {
    let mut words = Vec::new(alloc);
    if line.is_empty() {
        return words;
    }
    for text in line.split(' ') {
        let mut word = Vec::new(alloc);
        for &byte in text.as_bytes() {
            let byte = match byte {
                b'!' => 0,
                b'?' => 0xff,
                _ => byte,
            };
            word.push(byte).expect(rt, "memory");
        }
        words.push(word).expect(rt, "memory");
    }
    words
}

fn put(rt: &impl Abort, text: &mut String, part: &str) {
    text.push_str(part).expect(rt, "memory");
}

fn put_option(rt: &impl Abort, text: &mut String, letter: &str, value: &Option<Blob>) {
    if let Some(value) = value {
        put(rt, text, letter);
        put(
            rt,
            text,
            str::from_utf8(value.as_slice()).unwrap_or("no text"),
        );
        put(rt, text, " ");
    }
}

/// The options as plain words, always in this order, with FILEs after `--`.
fn plain(rt: &impl Abort, alloc: Global, options: &Options) -> String {
    let mut text = String::new(alloc);
    if options.quiet {
        put(rt, &mut text, "-q ");
    }
    put_option(rt, &mut text, "-m ", &options.common);
    put_option(rt, &mut text, "-M ", &options.name);
    put_option(rt, &mut text, "-o ", &options.out);
    put_option(rt, &mut text, "--sup ", &options.sup);
    put_option(rt, &mut text, "--reuse ", &options.reuse);
    put_option(rt, &mut text, "--batch ", &options.batch);
    write!(text, "-j {}", options.workers).expect(rt, "memory");
    if let Some(number) = options.demo {
        write!(text, " --demo {number}").expect(rt, "memory");
    }
    if options.explain {
        put(rt, &mut text, " --explain");
    }
    if options.check {
        put(rt, &mut text, " --check");
    }
    if options.expand {
        put(rt, &mut text, " --expand");
    }
    put(rt, &mut text, " --");
    for file in options.files.as_slice() {
        put(rt, &mut text, " ");
        put(
            rt,
            &mut text,
            str::from_utf8(file.as_slice()).unwrap_or("no text"),
        );
    }
    text
}

// Whether that is the answer to words.
fn is_answer(rt: &impl Abort, alloc: Global, words: &[Vec<u8>], want: &str) -> bool {
    match parse(alloc, words) {
        Ok(options) => plain(rt, alloc, &options).as_str() == want,
        Err(WordsErr::Usage) => want == "usage",
        Err(WordsErr::NoMemory) => false,
    }
}

#[test]
fn words_have_their_answers(rt: HostRuntime) {
    for line in ANSWERS.lines() {
        if !line.starts_with('#') {
            let (told, want) = line.split_once(" => ").expect(&rt, "a line");
            let words = words_of(&rt, rt.alloc(), told);
            let is = is_answer(&rt, rt.alloc(), words.as_slice(), want);
            holds(&rt, line, is);
        }
    }
}

/// What is asked for: the names with blanks between them, and the places.
fn asked(rt: &impl Abort, alloc: Global, options: &Options) -> String {
    let mut text = String::new(alloc);
    let names = names_got(alloc, options).expect(rt, "memory");
    for (i, name) in names.iter().enumerate() {
        if i > 0 {
            put(rt, &mut text, " ");
        }
        put(rt, &mut text, str::from_utf8(name).unwrap_or("no text"));
    }
    let (p, q) = places_asked(options);
    write!(text, ": {}+{} {}+{}", p.file, p.offset, q.file, q.offset).expect(rt, "memory");
    text
}

#[test]
fn words_ask_for_files_and_places(rt: HostRuntime) {
    for line in ASKED.lines() {
        let (told, want) = line.split_once(" => ").expect(&rt, "a line");
        let words = words_of(&rt, rt.alloc(), told);
        let is = match parse(rt.alloc(), words.as_slice()) {
            Ok(options) => asked(&rt, rt.alloc(), &options).as_str() == want,
            Err(_) => false,
        };
        holds(&rt, line, is);
    }
}

/// How many FILEs are taken where there are so many, `f0`, `f1` and so on; none where the words aren't lawful.
fn taken(rt: &impl Abort, alloc: Global, count: u32) -> usize {
    let mut words = Vec::new(alloc);
    for i in 0..count {
        let word = format!(in alloc; "f{i}").expect(rt, "memory");
        words.push(word.into_bytes()).expect(rt, "memory");
    }
    match parse(alloc, words.as_slice()) {
        Ok(options) => options.files.len(),
        Err(_) => 0,
    }
}

#[test]
fn takes_256_files_and_no_more(rt: HostRuntime) {
    holds(&rt, "256", taken(&rt, rt.alloc(), 256) == 256);
    holds(&rt, "257", taken(&rt, rt.alloc(), 257) == 0);
}
