//! Tables are read line by line, and each row is played where its block ends.
use crate::judge::judge;
use row_tables::{Block, Book, Row, Stop};
use std::alloc::Global;
use std::rt::Files;
use std::thread::Threads;
use std::{fs, mem};

/// What has been declared, the block that is being read, and what came so far.
#[derive(Drop)]
pub(crate) struct Player {
    book: Book,
    block: Block,
    /// The line that began the block.
    begun: usize,
    rows: u64,
    differing: u64,
    bad_lines: u64,
}

impl Player {
    pub(crate) fn new(alloc: Global) -> Player {
        Player {
            book: Book::new(alloc),
            block: Block::Nothing,
            begun: 0,
            rows: 0,
            differing: 0,
            bad_lines: 0,
        }
    }

    /// Plays the rows of a table, which is the file of that name.
    pub(crate) fn play_table<R: Files + Print + AllocGlobal + Threads + Sync>(
        &mut self,
        rt: &R,
        table: &str,
    ) -> Result<(), Stop> {
        let Ok(text) = fs::read_to_string(rt, table) else {
            return self.tell_bad(rt, table, 0, "the table is not there, or is no text");
        };
        for (index, line) in text.as_str().lines().enumerate() {
            let number = index.saturating_add(1);
            match self.take_line(rt, table, number, line) {
                Ok(()) => {}
                Err(Stop::Line(why)) => self.tell_bad(rt, table, number, why)?,
                Err(Stop::Broken) => return Err(Stop::Broken),
            }
        }
        self.end_block(rt, table)
    }

    fn take_line<R: Files + Print + AllocGlobal + Threads + Sync>(
        &mut self,
        rt: &R,
        table: &str,
        number: usize,
        line: &str,
    ) -> Result<(), Stop> {
        if line.is_empty() || line.starts_with('#') {
            return Ok(());
        }
        if !Block::is_begun_by(line) {
            return self.block.take(rt, line);
        }
        self.end_block(rt, table)?;
        self.begun = number;
        self.block = Block::begun_by(rt.alloc(), &self.book, line)?;
        Ok(())
    }

    /// Ends the block that is being read: a row is played, and what else it is goes into the book.
    fn end_block<R: Files + Print + AllocGlobal + Threads + Sync>(
        &mut self,
        rt: &R,
        table: &str,
    ) -> Result<(), Stop> {
        let block = mem::replace(&mut self.block, Block::Nothing);
        let ended = match block {
            Block::Nothing => Ok(()),
            Block::Document(document) => self.book.put_document(document),
            Block::Frame(frame) => self.book.put_frame(frame),
            Block::Row(row) => self.play_row(rt, table, &row),
        };
        match ended {
            Err(Stop::Line(why)) => self.tell_bad(rt, table, self.begun, why),
            ended => ended,
        }
    }

    fn play_row<R: Files + Print + AllocGlobal + Threads + Sync>(
        &mut self,
        rt: &R,
        table: &str,
        row: &Row,
    ) -> Result<(), Stop> {
        self.rows = self.rows.saturating_add(1);
        let report = judge(rt, &self.book, row)?;
        if report.is_empty() {
            return Ok(());
        }
        self.differing = self.differing.saturating_add(1);
        let begun = self.begun;
        let title = row.title.as_str();
        println!(rt; "{table}:{begun}: {title}")?;
        print!(rt; "{report}")?;
        Ok(())
    }

    fn tell_bad<R: Print>(
        &mut self,
        rt: &R,
        table: &str,
        line: usize,
        why: &str,
    ) -> Result<(), Stop> {
        self.bad_lines = self.bad_lines.saturating_add(1);
        println!(rt; "{table}:{line}: bad line: {why}")?;
        Ok(())
    }

    /// Prints how many rows were played and how many differ, and answers whether all is as it is wanted.
    pub(crate) fn tell_counts<R: Print>(&self, rt: &R) -> Result<bool, Stop> {
        let rows = self.rows;
        let differing = self.differing;
        println!(rt; "{rows} rows, {differing} differ")?;
        Ok(self.differing == 0 && self.bad_lines == 0)
    }
}
