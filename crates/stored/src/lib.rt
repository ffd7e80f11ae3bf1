// Internal: files of stored answers, read case by case (oracle/README.md says how they are laid out).
#![tactic(auto)]

mod cases;
mod digests;
mod lent;
mod names;
mod sizes;

ghost use Rattle.std.specs.Prelude.{◌≡◌, ◌≤◌, ◌<◌, ◌*◌, length, take, true, IfOk, IfSome};
ghost use Rattle.stored.specs.Given.{own_length, ConsumesSome, GivesNext};
ghost use Rattle.std.specs.Io.KnownBytes.{Consumes};

pub use cases::{
    OneWord, RECORD_BYTES, beam, behind, byte, copy_bytes, copy_words, filled_up, filled_with,
    real, same, same_parts, same_vector, vector, wide, word,
};
pub use digests::{digest_of, digest_of_bytes, digest_with};
pub use lent::{
    BYTE, COST, Lent, TOTAL, WORD, all_are, cleared_words, digested_words, untouched, written,
    written_bytes, written_words,
};
pub use sizes::{cleared, record_size, side_size, tree_size};
use std::env::Env;
use std::fs::Files;
use std::io::{ErrorKind, Read};
use std::{env, fs, io};

// The most cases and groups of a file, together.
const MOST_TURNS: u32 = 999_999;

// The most groups of a file.
const MOST_GROUPS: u32 = 100;

// Room for the bytes of any stored case.
const CASE_BYTES: usize = 65536;

// A group of cases: what they are about, how many they are, and the words of each; 0 where each tells its own.
#[derive(Clone, Copy)]
pub struct Group {
    pub kind: u32,
    pub count: u32,
    pub words: u32,
}

// How a group's cases went: whether all agreed, and how many more cases and groups are looked at.
#[derive(Clone, Copy)]
struct Replayed {
    all: bool,
    turns: u32,
}

// Fills a buffer with a file's next bytes, or says that the file ends before it is full.
fn filled<F: Read>(file: &mut F, buffer: &mut [u8]) -> io::Result<bool>
    ensures { IfOk result (λ full. full ≡ true → Consumes (F.remaining file.old) (F.remaining file.new) buffer.new) }
{
    match file.read_exact(buffer) {
        Ok(()) => Ok(true),
        Err(e) if e.kind() == ErrorKind::UnexpectedEof => Ok(false),
        Err(e) => Err(e),
    }
}

// Opens the file that argument i names.
fn open<R: Files + Env + AllocGlobal>(rt: &R, i: usize) -> io::Result<R::File> {
    let Some(path) = env::args(rt)?.nth(i) else {
        return Err(io::Error::new(ErrorKind::InvalidInput, "an argument is missing"));
    };
    fs::open(rt, path.as_str())
}

// The next group; none where the file ends before. One of kind 0 is the last, and counts those before it.
fn next_group<F: Read>(file: &mut F) -> io::Result<Option<Group>> {
    let mut head = [0u8; 12];
    if !filled(file, &mut head)? {
        return Ok(None);
    }
    let kind = word(&head, 0);
    let count = word(&head, 1);
    let words = word(&head, 2);
    Ok(Some(Group { kind, count, words }))
}

// The words of the next case: those of the group, or where these are 0 its own; none where the file ends before.
fn case_words<F: Read>(file: &mut F, group: Group) -> io::Result<Option<u32>>
    ensures words { IfOk result (λ read. IfSome read (λ words. 0 < group.words → words ≡ group.words)) }
    ensures bytes { IfOk result (λ read. IfSome read (λ _. ConsumesSome (own_length group.words) (F.remaining file.old) (F.remaining file.new))) }
{
    if group.words > 0 {
        return Ok(Some(group.words));
    }
    let mut head = [0u8; 4];
    if filled(file, &mut head)? {
        return Ok(Some(word(&head, 0)));
    }
    Ok(None)
}

// Reads the next case to the start of the buffer, and answers its bytes; none where it has no words or too many, or the file ends before.
pub fn read_case<F: Read>(
    file: &mut F,
    group: Group,
    buffer: &mut [u8],
) -> io::Result<Option<usize>>
    ensures bound { IfOk result (λ read. IfSome read (λ long. long ≤ length buffer.new)) }
    ensures words { IfOk result (λ read. IfSome read (λ long. 0 < group.words → long ≡ group.words * 4)) }
    ensures bytes { IfOk result (λ read. IfSome read (λ long.
        GivesNext (own_length group.words) (F.remaining file.old) (F.remaining file.new) (take long buffer.new))) }
{
    let Some(words) = case_words(file, group)? else {
        return Ok(None);
    };
    let length = words as usize * 4;
    if length == 0 || length > buffer.len() {
        return Ok(None);
    }
    if filled(file, &mut buffer[..length])? {
        return Ok(Some(length));
    }
    Ok(None)
}

// Runs the cases of a group, prints which was the first to differ, and the group's line. A case is a turn, and so is the group's end; none where
// there are fewer turns than that, so that no file has a replay go on without end.
fn replay_group<R: Print, G: Read, F: FnMut(u32, &[u8]) -> io::Result<bool>>(
    rt: &R,
    file: &mut G,
    group: Group,
    turns: u32,
    buffer: &mut [u8],
    agrees: &mut F,
) -> io::Result<Option<Replayed>>
    requires { (state : F) (kind case : _) → F.pre state kind case }
    ensures { IfOk result (λ read. IfSome read (λ next. next.turns < turns)) }
{
    let mut agreed = 0;
    for i in 0..group.count.min(turns) {
        let same = match read_case(file, group, buffer)? {
            Some(length) => agrees(group.kind, &buffer[..length])?,
            None => false,
        };
        if same {
            agreed += 1;
        } else if agreed == i {
            println!(rt; "differs: case {i}")?;
        }
    }
    let count = group.count;
    if count >= turns {
        return Ok(None);
    }
    names::print_name(rt, group.kind)?;
    println!(rt; ": compared {count}, agreed {agreed}")?;
    Ok(Some(Replayed {
        all: agreed == count,
        turns: turns - count - 1,
    }))
}

// Runs each case of the file that argument i names by a test, which takes the kind and the bytes: whether all agreed and the file is whole. A file of
// more turns does not agree.
pub fn replay<R: Files + Env + Print + AllocGlobal, F: FnMut(u32, &[u8]) -> io::Result<bool>>(
    rt: &R,
    i: usize,
    mut agrees: F,
) -> io::Result<bool>
    requires { (state : F) (kind case : _) → F.pre state kind case }
{
    let mut buffer = [0u8; CASE_BYTES];
    let mut file = open(rt, i)?;
    let mut all = true;
    let mut turns = MOST_TURNS;
    for groups in 0..=MOST_GROUPS {
        match next_group(&mut file)? {
            Some(group) if group.kind > 0 && groups < MOST_GROUPS => {
                let Some(next) = replay_group(
                    rt,
                    &mut file,
                    group,
                    turns,
                    &mut buffer,
                    &mut agrees,
                )?
                else {
                    return Ok(false);
                };
                all = all && next.all;
                turns = next.turns;
            }
            Some(last) => return Ok(all && last.kind == 0 && last.count == groups),
            None => return Ok(false),
        }
    }
    Ok(false)
}

// Prints the last line. Apart from `replay`, since a program may replay two files: so the programs' `main` are alike.
pub fn print_verdict(rt: &impl Print, all: bool) -> io::Result<()> {
    if all {
        println!(rt; "all agreed")
    } else {
        println!(rt; "not all agreed")
    }
}
