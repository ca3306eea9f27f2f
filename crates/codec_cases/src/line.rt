//! The line of an answer.

use context_codec::{Context, PairError};
use edk_codec::DataKeyEntry;
use esdk_fields::{Blob, Fault, FieldError, Refusal};
use esdk_report::{fault_text, refusal_text};
use sha2::{Digest, Sha512};
use std::alloc::{AllocError, Global};
use std::str;

/// The most bytes that are printed as they are.
const MOST_SHOWN: usize = 64;

/// The words of an answer, with a space behind each. Where memory runs out for a word, there is no
/// text.
#[derive(Drop)]
pub(crate) struct Line {
    alloc: Global,
    text: String,
    is_cut: bool,
}

impl Line {
    /// No words yet.
    pub(crate) fn new(alloc: Global) -> Line {
        Line {
            alloc,
            text: String::new(alloc),
            is_cut: false,
        }
    }

    /// All of the words. None where memory ran out for one.
    pub(crate) fn into_text(self) -> Option<String> {
        let mut text = self.text;
        let _ = text.pop();
        if self.is_cut { None } else { Some(text) }
    }

    /// Memory ran out for a word.
    pub(crate) fn cut(&mut self) {
        self.is_cut = true;
    }

    /// Looks whether memory ran out for what was made.
    pub(crate) fn check(&mut self, made: Result<(), AllocError>) {
        if made.is_err() {
            self.is_cut = true;
        }
    }

    /// Puts a word, or words that are spelled so.
    pub(crate) fn word(&mut self, word: &str) {
        let put = self.text.push_str(word);
        self.check(put);
        let spaced = self.text.push(' ');
        self.check(spaced);
    }

    /// Puts a number.
    pub(crate) fn number(&mut self, number: u64) {
        let put = write!(self.text, "{number} ");
        self.check(put);
    }

    /// Puts bytes: `-` for none, hexadecimal digits for up to 64, else their number and their
    /// digest by SHA-512.
    pub(crate) fn bytes(&mut self, bytes: &[u8]) {
        let count = bytes.len();
        if count == 0 {
            self.word("-");
        } else if count <= MOST_SHOWN {
            self.digits(bytes);
        } else {
            let put = write!(self.text, "{count}:");
            self.check(put);
            self.digits(&Sha512::digest(bytes));
        }
    }

    /// Puts the hexadecimal digits of bytes.
    fn digits(&mut self, bytes: &[u8]) {
        match hex::encode(self.alloc, bytes) {
            Ok(digits) => self.word(digits.as_str()),
            Err(AllocError) => self.is_cut = true,
        }
    }

    /// Puts bytes that were made.
    pub(crate) fn blob(&mut self, blob: Result<Blob, AllocError>) {
        match blob {
            Ok(blob) => self.bytes(blob.bytes()),
            Err(AllocError) => self.is_cut = true,
        }
    }

    /// Puts a text that was made.
    pub(crate) fn text(&mut self, text: Result<Blob, AllocError>) {
        match text {
            Ok(text) => self.word(text_of(&text)),
            Err(AllocError) => self.is_cut = true,
        }
    }

    /// Puts the line of a fault.
    pub(crate) fn fault(&mut self, fault: &Fault) {
        self.text(fault_text(self.alloc, fault));
    }

    /// Puts the line of a refusal.
    pub(crate) fn refusal(&mut self, refusal: &Refusal) {
        self.text(refusal_text(self.alloc, refusal));
    }

    /// Puts why a reader of fields answers no value.
    pub(crate) fn field_error(&mut self, error: &FieldError) {
        match error {
            FieldError::Fault(fault) => self.fault(fault),
            FieldError::Stopped => self.word("stopped"),
            FieldError::Memory => self.is_cut = true,
        }
    }

    /// Puts why a pair isn't taken.
    pub(crate) fn pair_error(&mut self, error: &PairError) {
        match error {
            PairError::Refusal(refusal) => self.refusal(refusal),
            PairError::Memory => self.is_cut = true,
        }
    }

    /// Puts how many pairs a context has, each key and its value, and the length of its text.
    pub(crate) fn context(&mut self, context: &Context) {
        self.number(context.pairs().len() as u64);
        for pair in context.pairs() {
            self.bytes(pair.key().as_bytes());
            self.bytes(pair.value().as_bytes());
        }
        self.number(context.length() as u64);
    }

    /// Puts the three parts of an entry.
    pub(crate) fn entry(&mut self, entry: &DataKeyEntry) {
        self.bytes(entry.provider());
        self.bytes(entry.info());
        self.bytes(entry.cipher());
    }
}

/// The text that the bytes are, or no text.
pub(crate) fn text_of(bytes: &Blob) -> &str {
    str::from_utf8(bytes.bytes()).unwrap_or("")
}
