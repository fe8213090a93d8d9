//! A row is played over objects in memory.
use crate::came::Came;
use crate::watched::Watched;
use mrs_io::{MemShelf, MemSink, MemSource};
use mrs_query::run;
use row_tables::{Book, Object, Row, Stop, Target};
use std::alloc::Global;
use std::rt::Files;
use std::thread::Threads;

/// A call of an object that fails beside those that the row names.
#[derive(Clone, Copy)]
pub(crate) struct Failing {
    pub(crate) target: Target,
    pub(crate) call: u32,
}

/// Plays the row once.
pub(crate) fn play<R: Files + AllocGlobal + Threads + Sync>(
    rt: &R,
    book: &Book,
    row: &Row,
    failing: Option<Failing>,
) -> Result<Came, Stop> {
    let alloc = rt.alloc();
    let documents = row.documents(rt, book)?;
    let fails = calls_of(alloc, &row.shelf, Target::Shelf, failing)?;
    let mut shelf = Watched::new(MemShelf::new(alloc, documents, fails));
    let mut input = Watched::new(source(alloc, row, failing)?);
    let mut out = Watched::new(sink(alloc, &row.out, Target::Out, failing)?);
    let mut err = Watched::new(sink(alloc, &row.err, Target::Err, failing)?);
    let status = run(
        rt, alloc, &row.words, &mut shelf, &mut input, &mut out, &mut err,
    );
    Ok(Came {
        status: status.exit_number(),
        answer: format!(in alloc; "{status:?}")?,
        out: out.inner.taken().to_vec(alloc)?,
        err: err.inner.taken().to_vec(alloc)?,
        shelf: shelf.counts(),
        input: input.counts(),
        out_counts: out.counts(),
        err_counts: err.counts(),
    })
}

/// What `proof` prints of a log.
pub(crate) fn proved<R: Files + AllocGlobal + Threads + Sync>(
    rt: &R,
    log: &[u8],
) -> Result<Vec<u8>, Stop> {
    let alloc = rt.alloc();
    let mut words = Vec::new(alloc);
    words.push(String::from_str(alloc, "proof")?)?;
    words.push(String::from_str(alloc, "log=refutation")?)?;
    let mut documents = Vec::new(alloc);
    documents.push((String::from_str(alloc, "refutation")?, log.to_vec(alloc)?))?;
    let mut shelf = MemShelf::new(alloc, documents, Vec::new(alloc));
    let mut input = MemSource::new(alloc, Vec::new(alloc), 1, Vec::new(alloc));
    let sound = Object::sound(alloc);
    let mut out = sink(alloc, &sound, Target::Out, None)?;
    let mut err = sink(alloc, &sound, Target::Err, None)?;
    run(
        rt, alloc, &words, &mut shelf, &mut input, &mut out, &mut err,
    );
    Ok(out.taken().to_vec(alloc)?)
}

/// The calls of an object that fail.
fn calls_of(
    alloc: Global,
    object: &Object,
    target: Target,
    failing: Option<Failing>,
) -> Result<Vec<u32>, Stop> {
    let mut fails = object.fails.as_slice().to_vec(alloc)?;
    match failing {
        Some(more) if more.target == target => fails.push(more.call)?,
        _ => {}
    }
    Ok(fails)
}

fn source(alloc: Global, row: &Row, failing: Option<Failing>) -> Result<MemSource, Stop> {
    let fails = calls_of(alloc, &row.input, Target::Input, failing)?;
    let stream = row.stream.as_slice().to_vec(alloc)?;
    Ok(MemSource::new(alloc, stream, row.input.most.max(1), fails))
}

fn sink(
    alloc: Global,
    object: &Object,
    target: Target,
    failing: Option<Failing>,
) -> Result<MemSink, Stop> {
    let fails = calls_of(alloc, object, target, failing)?;
    match MemSink::new(alloc, object.room, object.most.max(1), fails) {
        Ok(sink) => Ok(sink),
        Err(_) => Err(Stop::Broken),
    }
}
