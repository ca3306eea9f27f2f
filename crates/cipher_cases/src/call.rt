//! A call: the words of its line, and the line that answers it.

ghost use Rattle.std.specs.Prelude.{◌≤◌, length};

use sha2::{Digest, Sha512};
use std::alloc::Global;

/// The call has not so many words.
const COUNT: &str = "not a call";

/// The most bytes that are printed as they are: eight blocks of a cipher.
const MOST_SHOWN: usize = 128;

/// A call that is being answered: the words that weren't read yet, and the words of the answer,
/// with a space behind each. Where a word can't be read, something stands for it, and what was
/// wrong first comes at the end.
#[derive(Drop)]
pub struct Call<'a> {
    alloc: Global,
    left: Option<&'a str>,
    answer: String,
    wrong: Option<&'static str>,
}

impl<'a> Call<'a> {
    /// The call of this line, without an answer.
    pub fn new(alloc: Global, line: &'a str) -> Call<'a> {
        Call {
            alloc,
            left: Some(line),
            answer: String::new(alloc),
            wrong: None,
        }
    }

    /// Says what is wrong, where nothing was before.
    pub fn refuse(&mut self, what: &'static str) {
        if self.wrong.is_none() {
            self.wrong = Some(what);
        }
    }

    /// The next word, or no text.
    pub fn word(&mut self) -> &'a str {
        let Some(left) = self.left else {
            self.refuse(COUNT);
            return "";
        };
        match left.split_once(' ') {
            Some((word, rest)) => {
                self.left = Some(rest);
                word
            }
            None => {
                self.left = None;
                left
            }
        }
    }

    /// The bytes that the next word stands for: none for `-`, made ones for `@SEED:LENGTH`, else
    /// those of its hexadecimal digits. None where it can't be read.
    pub fn bytes(&mut self) -> Vec<u8> {
        let word = self.word();
        match word.strip_prefix('@') {
            Some(made) => self.made(made),
            None => self.decoded(if word == "-" { "" } else { word }),
        }
    }

    /// The bytes of hexadecimal digits, or none.
    fn decoded(&mut self, digits: &str) -> Vec<u8> {
        match hex::decode(self.alloc, digits) {
            Ok(bytes) => bytes,
            Err(_) => {
                self.refuse("not bytes");
                Vec::new(self.alloc)
            }
        }
    }

    /// The bytes of `SEED:LENGTH`: the top eight bits of each state of a linear congruential
    /// generator.
    fn made(&mut self, word: &str) -> Vec<u8> {
        let (seed, length) = word.split_once(':').unwrap_or((word, ""));
        let mut bytes = Vec::new(self.alloc);
        match (seed.parse::<u64>(), length.parse::<usize>()) {
            (Ok(seed), Ok(length)) => self.push_states(seed, length, &mut bytes),
            _ => self.refuse("not a number"),
        }
        bytes
    }

    fn push_states(&mut self, seed: u64, length: usize, bytes: &mut Vec<u8>) {
        let mut state = seed;
        for _ in 0..length {
            state = state
                .wrapping_mul(6364136223846793005)
                .wrapping_add(1442695040888963407);
            let pushed = bytes.push((state >> 56) as u8);
            self.check(pushed.is_ok());
        }
    }

    /// The same of up to so many bytes.
    pub fn few_bytes(&mut self, most: usize) -> Vec<u8>
        ensures { length result.items ≤ most }
    {
        let bytes = self.bytes();
        if bytes.len() <= most {
            return bytes;
        }
        self.refuse("too many bytes");
        Vec::new(self.alloc)
    }

    /// The same of just so many bytes, or zeros.
    pub fn array<const N: usize>(&mut self) -> [u8; N] {
        let bytes = self.bytes();
        match bytes.as_slice().as_array() {
            Some(array) => *array,
            None => {
                self.refuse("not so many bytes");
                [0; N]
            }
        }
    }

    /// Looks whether memory ran out for what was done.
    fn check(&mut self, is_done: bool) {
        if !is_done {
            self.refuse("no memory");
        }
    }

    /// Puts a word.
    pub fn put_word(&mut self, word: &str) {
        let put = self.answer.push_str(word);
        self.check(put.is_ok());
        let spaced = self.answer.push(' ');
        self.check(spaced.is_ok());
    }

    /// Puts bytes: `-` where there are none, their hexadecimal digits for up to 128, and longer
    /// ones as their number and their SHA-512.
    pub fn put(&mut self, bytes: &[u8]) {
        let count = bytes.len();
        if count == 0 {
            self.put_word("-");
        } else if count <= MOST_SHOWN {
            self.put_digits(bytes);
        } else {
            let put = write!(self.answer, "{count}:");
            self.check(put.is_ok());
            self.put_digits(&Sha512::digest(bytes));
        }
    }

    fn put_digits(&mut self, bytes: &[u8]) {
        match hex::encode(self.alloc, bytes) {
            Ok(digits) => self.put_word(digits.as_str()),
            Err(_) => self.check(false),
        }
    }

    /// The answer, or what was wrong; a word that is left, too.
    pub fn into_answer(self) -> Result<String, &'static str> {
        let mut answer = self.answer;
        let _ = answer.pop();
        match (self.wrong, self.left) {
            (Some(what), _) => Err(what),
            (None, Some(_)) => Err(COUNT),
            (None, None) => Ok(answer),
        }
    }
}
