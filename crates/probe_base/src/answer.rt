use crate::fault::Fault;
use eb_bytes::Memory;
use shell_marks::Mark;
use std::alloc::Global;

/// How an answer writes texts.
#[derive(Clone, Copy)]
pub enum Style {
    /// In hexadecimal.
    Hexadecimal,
    /// In double quotes.
    Readable,
}

/// The answer to a request, whose fields are put one after another. A blank stands between two.
///
/// It remembers a fault itself, so what puts a field has nothing to return; `finished` tells it at the end.
#[derive(Drop)]
pub struct Answer {
    alloc: Global,
    style: Style,
    line: String,
    fault: Option<Fault>,
}

impl Answer {
    /// An answer without fields.
    pub fn new(alloc: Global, style: Style) -> Answer {
        Answer {
            alloc,
            style,
            line: String::new(alloc),
            fault: None,
        }
    }

    /// What texts that are made for the answer stand in.
    pub fn alloc(&self) -> Global {
        self.alloc
    }

    /// Whether no field was put yet.
    pub fn is_empty(&self) -> bool {
        self.line.is_empty()
    }

    /// The answer's line: `what` where the line was no request.
    pub fn finished(&self) -> Result<&str, Memory> {
        match self.fault {
            None => Ok(self.line.as_str()),
            Some(Fault::Memory) => Err(Memory),
            Some(_) => Ok("what"),
        }
    }

    /// Puts the word of a refusal. Of other faults the first is remembered.
    pub fn fail(&mut self, fault: Fault) {
        match fault {
            Fault::Refused(word) => self.word(word),
            fault => self.remember(fault),
        }
    }

    fn remember(&mut self, fault: Fault) {
        self.fault = self.fault.or(Some(fault));
    }

    /// Puts a word.
    pub fn word(&mut self, word: &str) {
        if !self.line.is_empty() {
            self.push_word(" ");
        }
        self.push_word(word);
    }

    /// Puts `yes` or `no`.
    pub fn yes_or_no(&mut self, holds: bool) {
        self.word(if holds { "yes" } else { "no" });
    }

    /// Puts a number.
    pub fn number(&mut self, number: u64) {
        self.word("");
        self.push_number(number);
    }

    /// Puts a text.
    pub fn text(&mut self, text: &[u8]) {
        self.word("");
        self.push_text(text);
    }

    /// Puts a list of marks.
    pub fn marks(&mut self, marks: &[Mark]) {
        self.word("");
        self.push_marks(marks);
    }

    /// Writes a word at the end of the last field.
    pub fn push_word(&mut self, word: &str) {
        if self.line.push_str(word).is_err() {
            self.remember(Fault::Memory);
        }
    }

    /// Writes bytes that are characters at the end of the last field.
    pub fn push_name(&mut self, name: &[u8]) {
        for byte in name {
            if self.line.push(char::from(*byte)).is_err() {
                self.remember(Fault::Memory);
            }
        }
    }

    /// Writes a number at the end of the last field.
    pub fn push_number(&mut self, number: u64) {
        if write!(self.line, "{number}").is_err() {
            self.remember(Fault::Memory);
        }
    }

    /// Writes a number with its sign at the end of the last field.
    pub fn push_signed(&mut self, number: i64) {
        if write!(self.line, "{number}").is_err() {
            self.remember(Fault::Memory);
        }
    }

    /// Writes a text at the end of the last field.
    pub fn push_text(&mut self, text: &[u8]) {
        match self.style {
            Style::Hexadecimal => self.push_hexadecimal(text),
            Style::Readable => self.push_quoted(text),
        }
    }

    fn push_hexadecimal(&mut self, text: &[u8]) {
        if text.is_empty() {
            self.push_word("-");
        }
        match hex::encode(self.alloc, text) {
            Ok(digits) => self.push_word(digits.as_str()),
            Err(_) => self.remember(Fault::Memory),
        }
    }

    fn push_quoted(&mut self, text: &[u8]) {
        self.push_word("\"");
        for byte in text {
            match *byte {
                b'"' => self.push_word("\\\""),
                b'\\' => self.push_word("\\\\"),
                b'\n' => self.push_word("\\n"),
                b'\t' => self.push_word("\\t"),
                b' '..=b'~' => self.push_name(&[*byte]),
                byte => self.push_byte("\\x", byte),
            }
        }
        self.push_word("\"");
    }

    // Writes the two digits of a byte after a word.
    fn push_byte(&mut self, word: &str, byte: u8) {
        if write!(self.line, "{word}{byte:02x}").is_err() {
            self.remember(Fault::Memory);
        }
    }

    /// Writes marks at the end of the last field.
    pub fn push_marks(&mut self, marks: &[Mark]) {
        if marks.is_empty() {
            self.push_word("-");
        }
        for (place, mark) in marks.iter().enumerate() {
            if place > 0 {
                self.push_word(",");
            }
            self.push_mark(*mark);
        }
    }

    fn push_mark(&mut self, mark: Mark) {
        match mark {
            Mark::Literal(byte) => self.push_byte("L", byte),
            Mark::Result(byte) => self.push_byte("R", byte),
            Mark::Quoted(byte) => self.push_byte("Q", byte),
            Mark::Empty => self.push_word("E"),
            Mark::Break => self.push_word("B"),
        }
    }
}
