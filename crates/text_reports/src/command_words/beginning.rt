//! What a program begins with: its words, and a stack that has grown. Of these no contract speaks, since they are the system's.

use std::alloc::AllocError;
use std::env;
use std::io::ErrorKind;

/// How many pages of the stack are taken before the work begins: the deepest programs need fewer.
const PAGES: u32 = 224;

/// How many bytes are taken as a page. No page is smaller.
const PAGE: usize = 4096;

/// Takes so many pages of the stack and one more, writes to each, and answers the byte that was written to all of them. The room of
/// each page is asked for after those behind it are given back, so that no compiler leaves one out.
fn byte_of_pages(pages: u32, byte: u8) -> u8 {
    let room = [byte; PAGE];
    if pages == 0 {
        return room[0];
    }
    room[byte_of_pages(pages - 1, byte) as usize]
}

/// Lets the stack grow as far as it has to. The system ends a program whose stack cannot grow by a signal, so it grows here, while
/// there is memory: as much of it is got first, and given back.
pub fn grow_stack(rt: &HostRuntime) -> Result<(), AllocError> {
    let room: Vec<u8> = Vec::with_capacity(rt.alloc(), (PAGES as usize + 2) * PAGE)?;
    drop(room);
    if byte_of_pages(PAGES, 1) == 0 {
        return Err(AllocError);
    }
    Ok(())
}

/// The words after the program's name. Where one of them is not UTF-8 there are none, which are as faulty.
pub fn given_words(rt: &HostRuntime) -> Result<Vec<String>, AllocError> {
    let mut words = Vec::new(rt.alloc());
    match env::args(rt) {
        Ok(all) => {
            for word in all.skip(1) {
                words.push(word)?;
            }
        }
        Err(error) => {
            if error.kind() == ErrorKind::OutOfMemory {
                return Err(AllocError);
            }
        }
    }
    Ok(words)
}
