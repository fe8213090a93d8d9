//! The documents and frames that a table has declared so far.
use crate::piece::Piece;
use crate::stop::Stop;
use std::alloc::Global;
use std::rt::Files;

/// A document: what its frame has before it, its own pieces, and what the frame has behind it.
#[derive(Drop)]
pub struct Document {
    name: String,
    before: Vec<u8>,
    pieces: Vec<Piece>,
    after: Vec<u8>,
}

/// A text with a hole, which documents and other frames fill.
#[derive(Drop)]
pub struct Frame {
    name: String,
    before: Vec<u8>,
    has_hole: bool,
    after: Vec<u8>,
    outer_after: Vec<u8>,
}

/// What the tables have declared. The last one of a name counts.
#[derive(Drop)]
pub struct Book {
    documents: Vec<Document>,
    frames: Vec<Frame>,
}

impl Document {
    /// Reads a line of the document.
    pub fn take(&mut self, alloc: Global, line: &str) -> Result<(), Stop> {
        self.pieces.push(Piece::read(alloc, line)?)?;
        Ok(())
    }

    /// The bytes of the document.
    fn to_bytes<R: Files + AllocGlobal>(&self, rt: &R) -> Result<Vec<u8>, Stop> {
        let mut bytes = self.before.as_slice().to_vec(rt.alloc())?;
        for piece in &self.pieces {
            piece.push(rt, &mut bytes)?;
        }
        bytes.extend_from_slice(&self.after)?;
        Ok(bytes)
    }
}

impl Frame {
    /// Reads a line of the frame.
    pub fn take<R: Files + AllocGlobal>(&mut self, rt: &R, line: &str) -> Result<(), Stop> {
        if line == "hole" {
            if self.has_hole {
                return Err(Stop::Line("a frame has one hole"));
            }
            self.has_hole = true;
            return Ok(());
        }
        let piece = Piece::read(rt.alloc(), line)?;
        if self.has_hole {
            piece.push(rt, &mut self.after)
        } else {
            piece.push(rt, &mut self.before)
        }
    }

    /// What stands behind the hole, in all frames about it.
    fn behind(&self, alloc: Global) -> Result<Vec<u8>, Stop> {
        let mut bytes = self.after.as_slice().to_vec(alloc)?;
        bytes.extend_from_slice(&self.outer_after)?;
        Ok(bytes)
    }
}

impl Book {
    pub fn new(alloc: Global) -> Book {
        Book {
            documents: Vec::new(alloc),
            frames: Vec::new(alloc),
        }
    }

    /// What stands about the hole of the frame of that name. No name is a frame of nothing.
    fn around(&self, alloc: Global, frame: &str) -> Result<(Vec<u8>, Vec<u8>), Stop> {
        if frame.is_empty() {
            return Ok((Vec::new(alloc), Vec::new(alloc)));
        }
        for declared in self.frames.iter().rev() {
            if declared.name.as_str() == frame {
                let before = declared.before.as_slice().to_vec(alloc)?;
                return Ok((before, declared.behind(alloc)?));
            }
        }
        Err(Stop::Line("no frame of that name stands above"))
    }

    /// A document of that name in a frame, with no piece yet.
    pub fn new_document(&self, alloc: Global, name: &str, frame: &str) -> Result<Document, Stop> {
        let (before, after) = self.around(alloc, frame)?;
        Ok(Document {
            name: String::from_str(alloc, name)?,
            before,
            pieces: Vec::new(alloc),
            after,
        })
    }

    /// A frame of that name in another, with no piece yet.
    pub fn new_frame(&self, alloc: Global, name: &str, outer: &str) -> Result<Frame, Stop> {
        let (before, outer_after) = self.around(alloc, outer)?;
        Ok(Frame {
            name: String::from_str(alloc, name)?,
            before,
            has_hole: false,
            after: Vec::new(alloc),
            outer_after,
        })
    }

    pub fn put_document(&mut self, document: Document) -> Result<(), Stop> {
        self.documents.push(document)?;
        Ok(())
    }

    pub fn put_frame(&mut self, frame: Frame) -> Result<(), Stop> {
        if !frame.has_hole {
            return Err(Stop::Line("the frame above has no hole"));
        }
        self.frames.push(frame)?;
        Ok(())
    }

    /// The bytes of the document of that name, if one is declared.
    pub fn bytes_of<R: Files + AllocGlobal>(
        &self,
        rt: &R,
        name: &str,
    ) -> Result<Option<Vec<u8>>, Stop> {
        for document in self.documents.iter().rev() {
            if document.name.as_str() == name {
                return Ok(Some(document.to_bytes(rt)?));
            }
        }
        Ok(None)
    }
}
