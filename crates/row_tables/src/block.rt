//! What the lines of a table are collected in, until the next block begins.
use crate::book::{Book, Document, Frame};
use crate::bytes::split_key;
use crate::row::Row;
use crate::stop::Stop;
use std::alloc::Global;
use std::rt::Files;

#[derive(Drop)]
pub enum Block {
    Nothing,
    Document(Document),
    Frame(Frame),
    Row(Row),
}

impl Block {
    /// Whether a line begins a block.
    pub fn is_begun_by(line: &str) -> bool {
        matches!(split_key(line).0, "row" | "document" | "frame")
    }

    /// The block that a line begins.
    pub fn begun_by(alloc: Global, book: &Book, line: &str) -> Result<Block, Stop> {
        let (key, rest) = split_key(line);
        if key == "row" {
            return Ok(Block::Row(Row::new(alloc, rest)?));
        }
        let (name, frame) = named_in(rest);
        if key == "document" {
            Ok(Block::Document(book.new_document(alloc, name, frame)?))
        } else {
            Ok(Block::Frame(book.new_frame(alloc, name, frame)?))
        }
    }

    /// Reads a line of the block.
    pub fn take<R: Files + AllocGlobal>(&mut self, rt: &R, line: &str) -> Result<(), Stop> {
        match self {
            Block::Nothing => Err(Stop::Line(
                "a table has blocks that begin with document, frame or row",
            )),
            Block::Document(document) => document.take(rt.alloc(), line),
            Block::Frame(frame) => frame.take(rt, line),
            Block::Row(row) => row.take(rt.alloc(), line),
        }
    }
}

/// A name and, behind ` in `, that of a frame.
fn named_in(text: &str) -> (&str, &str) {
    text.split_once(" in ").unwrap_or((text, ""))
}
