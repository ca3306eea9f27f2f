//! The words of a call. Where a list may be empty, the word `-` stands for no item.

ghost use Rattle.std.specs.Prelude.{◌≤◌, length};

use crate::line::text_of;
use crate::wrong::Wrong;
use context_codec::{Context, KeySet};
use edk_codec::DataKeyEntry;
use esdk_fields::{Blob, Content};
use header_codec::Settings;
use std::alloc::Global;
use std::str::{self, Split};

/// Bytes that have a name.
#[derive(Drop)]
pub(crate) struct Value {
    pub(crate) name: String,
    pub(crate) bytes: Blob,
}

/// How bytes are cut into pieces: how long the first is, and each other.
#[derive(Clone, Copy)]
pub(crate) struct Cut {
    pub(crate) first: usize,
    pub(crate) rest: usize,
}

/// The words of a call that weren't read yet, and the bytes that have names. Where a word can't be
/// read, something stands for it, and what was wrong first comes at the end.
#[derive(Drop)]
pub(crate) struct Words<'a> {
    pub(crate) alloc: Global,
    values: &'a [Value],
    left: Split<'a, char>,
    wrong: Option<Wrong>,
}

impl<'a> Words<'a> {
    /// The words of this line.
    pub(crate) fn new(alloc: Global, values: &'a [Value], line: &'a str) -> Words<'a> {
        Words {
            alloc,
            values,
            left: line.split(' '),
            wrong: None,
        }
    }

    /// Says what is wrong, where nothing was before.
    pub(crate) fn refuse(&mut self, wrong: Wrong) {
        if self.wrong.is_none() {
            self.wrong = Some(wrong);
        }
    }

    /// What was wrong first. A word that is left is wrong, too.
    pub(crate) fn end(&mut self) -> Option<Wrong> {
        if self.left.next().is_some() {
            self.refuse(Wrong::Count);
        }
        self.wrong
    }

    /// The next word, or no text.
    pub(crate) fn word(&mut self) -> &'a str {
        match self.left.next() {
            Some(word) => word,
            None => {
                self.refuse(Wrong::Count);
                ""
            }
        }
    }

    /// The place of the next word among these, or how many they are.
    pub(crate) fn choice(&mut self, names: &str) -> usize {
        place_of(names, self.word())
    }

    /// `yes` or `no`.
    pub(crate) fn flag(&mut self) -> bool {
        let place = self.choice("yes no");
        if 1 < place {
            self.refuse(Wrong::Word);
        }
        place == 0
    }

    /// The number that a word spells, or 0.
    fn spelled_number(&mut self, word: &str) -> usize {
        match word.parse::<usize>() {
            Ok(number) => number,
            Err(_) => {
                self.refuse(Wrong::Word);
                0
            }
        }
    }

    /// A number up to this one, or 0.
    pub(crate) fn number(&mut self, most: usize) -> usize
        ensures { result ≤ most }
    {
        let word = self.word();
        let number = self.spelled_number(word);
        if number <= most {
            return number;
        }
        self.refuse(Wrong::Word);
        0
    }

    /// A number of four bytes, or 0.
    pub(crate) fn number32(&mut self) -> u32 {
        self.number(0xffff_ffff) as u32
    }

    /// The limit that a word spells: `-` is none.
    fn spelled_limit(&mut self, word: &str) -> Option<u64> {
        if word == "-" {
            None
        } else {
            Some(self.spelled_number(word) as u64)
        }
    }

    /// A limit, or `-` for none.
    pub(crate) fn limit(&mut self) -> Option<u64> {
        let word = self.word();
        self.spelled_limit(word)
    }

    /// The greatest number of encrypted data keys.
    pub(crate) fn max_keys(&mut self) -> Option<u16> {
        match self.limit() {
            Some(most) => Some(most.min(65_535) as u16),
            None => None,
        }
    }

    /// Whether messages of version 1 are read, the greatest number of encrypted data keys, and the
    /// greatest length of a unit.
    pub(crate) fn settings(&mut self) -> Settings {
        let uncommitted = self.flag();
        let max_keys = self.max_keys();
        let max_unit = self.limit();
        Settings {
            max_keys,
            max_unit,
            uncommitted,
        }
    }

    /// `-` for one piece, `N` for pieces of so many bytes, `<N` for the first N bytes and the
    /// others.
    pub(crate) fn cut(&mut self) -> Cut {
        let word = self.word();
        match word.strip_prefix('<') {
            Some(first) => Cut {
                first: self.spelled_number(first),
                rest: usize::MAX,
            },
            None => Cut {
                first: 0,
                rest: self.spelled_limit(word).unwrap_or(u64::MAX) as usize,
            },
        }
    }

    /// `single`, or a frame length.
    pub(crate) fn content(&mut self) -> Content {
        let word = self.word();
        if word == "single" {
            return Content::Single;
        }
        let frame = self.spelled_number(word);
        if 0xffff_ffff < frame {
            self.refuse(Wrong::Word);
            return Content::Single;
        }
        Content::Framed(frame as u32)
    }

    /// Bytes, or none.
    pub(crate) fn bytes(&mut self) -> Blob {
        let word = self.word();
        self.spelled_bytes(word)
    }

    /// Bytes, of which there are at most so many, or none.
    pub(crate) fn few_bytes(&mut self, most: usize) -> Blob
        ensures { length result ≤ most }
    {
        let word = self.word();
        self.few_spelled_bytes(word, most)
    }

    /// Bytes, of which there are `N`, or zeros.
    pub(crate) fn array<const N: usize>(&mut self) -> [u8; N] {
        let bytes = self.bytes();
        match bytes.bytes().as_array() {
            Some(array) => *array,
            None => {
                self.refuse(Wrong::Word);
                [0; N]
            }
        }
    }

    /// A text as bytes, or none.
    pub(crate) fn text(&mut self) -> Blob {
        let word = self.word();
        self.spelled_text(word)
    }

    /// The text that a word spells as bytes, or none.
    fn spelled_text(&mut self, word: &str) -> Blob {
        let bytes = self.spelled_bytes(word);
        if str::from_utf8(bytes.bytes()).is_err() {
            self.refuse(Wrong::Word);
        }
        bytes
    }

    /// The bytes that a word spells, of which there are at most so many, or none.
    fn few_spelled_bytes(&mut self, word: &str, most: usize) -> Blob
        ensures { length result ≤ most }
    {
        let bytes = self.spelled_bytes(word);
        if bytes.bytes().len() <= most {
            return bytes;
        }
        self.refuse(Wrong::Word);
        Blob::new(self.alloc)
    }

    /// The bytes that a word spells: pieces joined by `+`.
    fn spelled_bytes(&mut self, word: &str) -> Blob {
        let mut out = Blob::new(self.alloc);
        for piece in word.split('+') {
            self.put_piece(piece, &mut out);
        }
        out
    }

    /// Puts a piece: `'TEXT`, or parts.
    fn put_piece(&mut self, piece: &str, out: &mut Blob) {
        match piece.strip_prefix('\'') {
            Some(text) => self.put(text.as_bytes(), out),
            None => self.put_parts(piece, out),
        }
    }

    /// Puts `PART*N`, which is that part N times, or a part.
    fn put_parts(&mut self, piece: &str, out: &mut Blob) {
        let Some((part, times)) = piece.split_once('*') else {
            return self.put_part(piece, out);
        };
        for _ in 0..self.spelled_number(times) {
            if self.wrong.is_some() {
                return;
            }
            self.put_part(part, out);
        }
    }

    /// Puts a part: `-`, which is no bytes, `@NAME`, or hexadecimal digits.
    fn put_part(&mut self, part: &str, out: &mut Blob) {
        match part.strip_prefix('@') {
            Some(named) => self.put_named(named, out),
            None if part == "-" => {}
            None => self.put_digits(part, out),
        }
    }

    /// Puts the bytes of hexadecimal digits.
    fn put_digits(&mut self, digits: &str, out: &mut Blob) {
        match hex::decode(self.alloc, digits) {
            Ok(bytes) => self.put(bytes.as_slice(), out),
            Err(_) => self.refuse(Wrong::Word),
        }
    }

    /// Puts named bytes: `NAME`, `NAME<N`, which is the first N of them, or `NAME^N`, where the
    /// lowest bit of the byte at N is turned.
    fn put_named(&mut self, word: &str, out: &mut Blob) {
        if let Some((name, end)) = word.split_once('<') {
            return self.put_front(name, end, out);
        }
        match word.split_once('^') {
            Some((name, at)) => self.put_turned(name, at, out),
            None => self.put_whole(word, out),
        }
    }

    /// Puts all of named bytes.
    fn put_whole(&mut self, name: &str, out: &mut Blob) {
        let bytes = self.named(name);
        self.put(bytes, out);
    }

    /// Puts the first of named bytes.
    fn put_front(&mut self, name: &str, end: &str, out: &mut Blob) {
        let end = self.spelled_number(end);
        match self.named(name).get(..end) {
            Some(front) => self.put(front, out),
            None => self.refuse(Wrong::Word),
        }
    }

    /// Puts named bytes, the lowest bit of one of them turned.
    fn put_turned(&mut self, name: &str, at: &str, out: &mut Blob) {
        let at = self.spelled_number(at);
        let bytes = self.named(name);
        match bytes.get(at) {
            Some(byte) => {
                self.put(bytes.get(..at).unwrap_or(&[]), out);
                self.put(&[*byte ^ 1], out);
                self.put(bytes.get(at.saturating_add(1)..).unwrap_or(&[]), out);
            }
            None => self.refuse(Wrong::Word),
        }
    }

    /// The bytes of this name, or none.
    fn named(&mut self, name: &str) -> &'a [u8] {
        for value in self.values {
            if value.name.as_str() == name {
                return value.bytes.bytes();
            }
        }
        self.refuse(Wrong::NoName);
        &[]
    }

    /// Puts bytes.
    fn put(&mut self, bytes: &[u8], out: &mut Blob) {
        if out.push_all(bytes).is_err() {
            self.refuse(Wrong::Memory);
        }
    }

    /// Pairs `KEY=VALUE`, joined by commas.
    pub(crate) fn context(&mut self) -> Context {
        let mut context = Context::new(self.alloc);
        for item in self.word().split(',') {
            match item.split_once('=') {
                Some((key, value)) => self.insert_pair(key, value, &mut context),
                None => self.refuse_but_none(item),
            }
        }
        context
    }

    /// Refuses an item, unless it stands for none.
    fn refuse_but_none(&mut self, item: &str) {
        if item != "-" {
            self.refuse(Wrong::Word);
        }
    }

    /// Inserts the pair of these words.
    fn insert_pair(&mut self, key: &str, value: &str, context: &mut Context) {
        let key = self.spelled_text(key);
        let value = self.spelled_text(value);
        if context
            .insert(self.alloc, text_of(&key), text_of(&value))
            .is_err()
        {
            self.refuse(Wrong::Word);
        }
    }

    /// Keys, joined by commas.
    pub(crate) fn keys(&mut self) -> KeySet {
        let mut keys = KeySet::new(self.alloc);
        for item in self.word().split(',') {
            if item != "-" {
                self.insert_key(item, &mut keys);
            }
        }
        keys
    }

    /// Inserts a key.
    fn insert_key(&mut self, item: &str, keys: &mut KeySet) {
        let key = self.spelled_text(item);
        if keys.insert(self.alloc, text_of(&key)).is_err() {
            self.refuse(Wrong::Memory);
        }
    }

    /// Entries, joined by commas: the three parts of each joined by colons.
    pub(crate) fn entries(&mut self) -> Vec<DataKeyEntry> {
        let mut entries = Vec::new(self.alloc);
        for item in self.word().split(',') {
            self.push_entry(item, &mut entries);
        }
        entries
    }

    /// Pushes an entry. What can't be read stands for a part that is missing.
    fn push_entry(&mut self, item: &str, entries: &mut Vec<DataKeyEntry>) {
        let (provider, rest) = item.split_once(':').unwrap_or((item, "?"));
        let (info, cipher) = rest.split_once(':').unwrap_or((rest, "?"));
        let provider = self.few_spelled_bytes(provider, 65_535);
        let info = self.few_spelled_bytes(info, 65_535);
        let cipher = self.few_spelled_bytes(cipher, 65_535);
        let made = DataKeyEntry::new(self.alloc, provider.bytes(), info.bytes(), cipher.bytes());
        let pushed = match made {
            Ok(entry) => entries.push(entry).is_ok(),
            Err(_) => false,
        };
        if !pushed {
            self.refuse(Wrong::Memory);
        }
    }
}

/// The place of a word among names with a space between each two, or how many they are.
fn place_of(names: &str, word: &str) -> usize {
    let mut place = 0usize;
    for name in names.split(' ') {
        if name == word {
            return place;
        }
        place = place.saturating_add(1);
    }
    place
}
