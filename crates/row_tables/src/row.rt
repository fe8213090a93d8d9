//! A row: the words of a command line, its stream, how the outside behaves, and how the run has to end.
use crate::book::Book;
use crate::bytes::{counted, hex_bytes, push_times, split_key, unquoted, word_bytes};
use crate::object::Object;
use crate::stop::Stop;
use crate::target::Target;
use crate::wanted::Wanted;
use std::alloc::Global;
use std::rt::Files;

#[derive(Drop)]
pub struct Row {
    pub title: String,
    pub words: Vec<String>,
    pub stream: Vec<u8>,
    pub shelf: Object,
    pub input: Object,
    pub out: Object,
    pub err: Object,
    /// The objects of which each call is to fail in turn.
    pub sweeps: Vec<Target>,
    pub wanted: Wanted,
}

impl Row {
    /// A row without words, over sound objects.
    pub fn new(alloc: Global, title: &str) -> Result<Row, Stop> {
        Ok(Row {
            title: String::from_str(alloc, title)?,
            words: Vec::new(alloc),
            stream: Vec::new(alloc),
            shelf: Object::sound(alloc),
            input: Object::sound(alloc),
            out: Object::sound(alloc),
            err: Object::sound(alloc),
            sweeps: Vec::new(alloc),
            wanted: Wanted::nothing(alloc),
        })
    }

    /// Reads a line of the row.
    pub fn take(&mut self, alloc: Global, line: &str) -> Result<(), Stop> {
        let (key, rest) = split_key(line);
        match key {
            "words" => push_words(alloc, &mut self.words, rest),
            "word" => Ok(self.words.push(String::from_str(alloc, rest)?)?),
            "stream" => push_stream(&mut self.stream, &hex_bytes(alloc, rest)?),
            "code" => push_stream(&mut self.stream, &word_bytes(alloc, rest)?),
            "code-times" => {
                let (count, words) = counted(rest)?;
                push_times(&mut self.stream, count, &word_bytes(alloc, words)?)
            }
            "typed" => push_typed(&mut self.stream, rest),
            "typed-part" => push_stream(&mut self.stream, unquoted(rest).as_bytes()),
            "typed-times" => {
                let (count, text) = counted(rest)?;
                push_times(&mut self.stream, count, unquoted(text).as_bytes())
            }
            "shelf" | "input" | "out" | "err" => {
                let (detail, value) = split_key(rest);
                self.take_object(alloc, Target::read(key)?, detail, value)
            }
            "sweep" => push_targets(&mut self.sweeps, rest),
            _ => self.wanted.take(alloc, key, rest),
        }
    }

    /// Reads what a line says of an object.
    fn take_object(
        &mut self,
        alloc: Global,
        target: Target,
        key: &str,
        value: &str,
    ) -> Result<(), Stop> {
        match target {
            Target::Shelf => self.shelf.take(alloc, key, value),
            Target::Input => self.input.take(alloc, key, value),
            Target::Out => self.out.take(alloc, key, value),
            Target::Err => self.err.take(alloc, key, value),
        }
    }

    /// The documents that the words name, each with its bytes.
    pub fn documents<R: Files + AllocGlobal>(
        &self,
        rt: &R,
        book: &Book,
    ) -> Result<Vec<(String, Vec<u8>)>, Stop> {
        let mut documents = Vec::new(rt.alloc());
        for word in &self.words {
            let (_, name) = word.as_str().split_once('=').unwrap_or(("", ""));
            if let Some(bytes) = book.bytes_of(rt, name)? {
                push_document(rt.alloc(), &mut documents, name, bytes)?;
            }
        }
        Ok(documents)
    }
}

fn push_document(
    alloc: Global,
    documents: &mut Vec<(String, Vec<u8>)>,
    name: &str,
    bytes: Vec<u8>,
) -> Result<(), Stop> {
    let name = String::from_str(alloc, name)?;
    documents.push((name, bytes))?;
    Ok(())
}

fn push_words(alloc: Global, words: &mut Vec<String>, text: &str) -> Result<(), Stop> {
    for word in text.split_whitespace() {
        words.push(String::from_str(alloc, word)?)?;
    }
    Ok(())
}

fn push_stream(stream: &mut Vec<u8>, bytes: &[u8]) -> Result<(), Stop> {
    Ok(stream.extend_from_slice(bytes)?)
}

/// Appends a line of text.
fn push_typed(stream: &mut Vec<u8>, text: &str) -> Result<(), Stop> {
    push_stream(stream, unquoted(text).as_bytes())?;
    push_stream(stream, b"\n")
}

fn push_targets(targets: &mut Vec<Target>, text: &str) -> Result<(), Stop> {
    for name in text.split_whitespace() {
        targets.push(Target::read(name)?)?;
    }
    Ok(())
}
