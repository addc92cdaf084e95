// A line that shows bytes or functions: graphic characters in quotes, all else as words beside them.
use crate::shown::FunctionShown;
use reader::function::Function;
use reader::reader::Reader;
use std::alloc::{AllocError, Global};
use std::fmt::Display;

#[derive(Drop)]
pub struct Line {
    text: String,
    quoted: bool,
    heap: Global,
}

impl Line {
    fn new(heap: Global) -> Line {
        Line {
            text: String::new(heap),
            quoted: false,
            heap,
        }
    }

    // What the bytes are. What character a code from A0 on stands for is not known here, so it is
    // shown by its code, as all that is not graphic.
    pub(crate) fn of_bytes(heap: Global, bytes: &[u8]) -> Result<String, AllocError> {
        let mut line = Line::new(heap);
        for byte in bytes {
            line.put_code(*byte)?;
        }
        line.end()
    }

    // What the bytes perform, from rest.
    pub(crate) fn of_functions(heap: Global, bytes: &[u8]) -> Result<String, AllocError> {
        let mut line = Line::new(heap);
        let mut reader = Reader::new();
        for byte in bytes {
            match reader.step(*byte).function {
                Some(Function::Graphic(code)) => line.put_code(code)?,
                Some(function) => line.put_word(FunctionShown(function))?,
                None => {}
            }
        }
        line.end()
    }

    // The quotation mark itself is shown by its code.
    fn put_code(&mut self, code: u8) -> Result<(), AllocError> {
        match code {
            0x20 | 0x21 | 0x23..=0x7E => self.put_character(char::from(code)),
            _ => self.put_word(format_args!("{code:02X}")),
        }
    }

    fn put_character(&mut self, character: char) -> Result<(), AllocError> {
        if !self.quoted {
            self.part()?;
            self.text.push('"')?;
            self.quoted = true;
        }
        self.text.push(character)
    }

    fn put_word<D: Display + Drop>(&mut self, word: D) -> Result<(), AllocError> {
        self.close()?;
        self.part()?;
        let word = word.to_string(self.heap)?;
        self.text.push_str(&word)
    }

    fn part(&mut self) -> Result<(), AllocError> {
        if self.text.is_empty() {
            return Ok(());
        }
        self.text.push(' ')
    }

    fn close(&mut self) -> Result<(), AllocError> {
        if self.quoted {
            self.quoted = false;
            self.text.push('"')?;
        }
        Ok(())
    }

    fn end(mut self) -> Result<String, AllocError> {
        self.close()?;
        if self.text.is_empty() {
            self.text.push_str("nothing")?;
        }
        let Line { text, .. } = self;
        Ok(text)
    }
}
