//! The objects in memory, and whole pieces over them. The rows of runs say more of each.
use crate::{Failed, FetchFault, MemShelf, MemSink, MemSource, Shelf, fill, write_whole};
use std::alloc::AllocError;
use std::test::Fail;

const TEXT: &[u8] = b"hello world";

#[test]
fn objects_in_memory(rt: HostRuntime) -> Result<(), Fail> {
    let alloc = rt.alloc();
    // The calls that fail, how much of a buffer of 12 bytes is filled, what a write of the whole text answers, and what is
    // taken, with at most 4 bytes a call.
    let table: [(&[u32], Result<usize, Failed>, Result<(), Failed>, &[u8]); 3] = [
        (&[4], Ok(11), Ok(()), b"hello world"),
        (&[3], Err(Failed), Ok(()), b"hello world"),
        (&[2], Err(Failed), Err(Failed), b"hello wo"),
    ];
    for (fails, filled, written, taken) in table {
        let mut source = MemSource::new(alloc, TEXT.to_vec(alloc)?, 4, fails.to_vec(alloc)?);
        let mut buf = [0u8; 12];
        assert_eq!(rt; fill(&mut source, &mut buf), filled);
        let Ok(mut sink) = MemSink::new(alloc, 40, 4, fails.to_vec(alloc)?) else {
            return Err(AllocError.into());
        };
        assert_eq!(rt; write_whole(&mut sink, TEXT), written);
        assert_eq!(rt; sink.taken(), taken);
    }
    let mut docs = Vec::new(alloc);
    docs.push((String::from_str(alloc, "i")?, TEXT.to_vec(alloc)?))?;
    let mut shelf = MemShelf::new(alloc, docs, Vec::new(alloc));
    match shelf.fetch(alloc, "i", 11) {
        Ok(bytes) => assert_eq!(rt; bytes.as_slice(), TEXT),
        Err(_) => assert!(rt; false),
    }
    match shelf.fetch(alloc, "f", 11) {
        Err(FetchFault::Failed) => {}
        _ => assert!(rt; false),
    }
    Ok(())
}
