//! Reading an input piece by piece.
ghost use Rattle.std.specs.Prelude.{◌≡◌, ◌≤◌, [], length, IfOk, OnErr};
ghost use Rattle.whole_input.specs.Pieces.{NextPiece, ReadsInto};

use crate::buffer::{PIECE, buffer_of};
use esdk_base::Source;
use std::alloc::{AllocError, Global};
use std::marker::Model;

/// How many bytes of one input are taken at the most.
const MOST_INPUT: usize = 1 << 62;

/// Why no more bytes of an input are taken.
#[derive(Debug, Clone, Copy, PartialEq, Eq)]
pub enum End {
    /// The end of the input was seen.
    Seen,
    /// A read failed.
    Failed,
    /// 2^62 bytes were taken, and the end wasn't seen.
    TooLong,
}

/// An input's bytes, taken piece by piece: at most 65,536 bytes at once, and at most 2^62 in all. A
/// contract sees a `PiecesValue`: how many bytes were taken so far, and the last piece.
pub struct Pieces {
    buffer: Vec<u8>,
    count: usize,
    taken: usize,
}

impl Model for Pieces {
    ghost use Rattle.std.specs.Prelude.{take};
    ghost use Rattle.whole_input.specs.Pieces.{FitsPieces, PiecesValue};

    ghost Value = { PiecesValue };

    ghost view = { λ p. record { taken = p.taken; piece = take p.count p.buffer.items } };

    ghost invariant = { λ p. FitsPieces p.buffer.items p.count p.taken };
}

/// Zeros are written over the last piece before its memory is given back.
impl Drop for Pieces {
    fn drop(self) {
        let Pieces {
            mut buffer,
            count: _,
            taken: _,
        } = self;
        buffer.fill(0);
    }
}

impl Pieces {
    /// No byte is taken yet. The buffer of 65,536 bytes is taken now, and no other call takes
    /// memory. Fails only where memory runs out.
    pub fn new(alloc: Global) -> Result<Pieces, AllocError>
        ensures { IfOk result (λ pieces. pieces ≡ record { taken = 0; piece = [] }) }
    {
        let buffer = buffer_of(alloc, PIECE)?;
        Ok(Pieces {
            buffer,
            count: 0,
            taken: 0,
        })
    }

    /// Takes the next piece of the input, by one read.
    ///
    /// `Seen`, where the end was seen; `Failed`, where the read failed; `TooLong`, where 2^62 bytes
    /// were taken before, and then nothing is read. After each of them the piece is empty, and what
    /// is left of the input is as before.
    pub fn next<S: Source>(&mut self, input: &mut S) -> Result<(), End>
        ensures next { NextPiece self.old.taken (S.state input.old)
            (S.state input.new) self.new result }
        ensures empty { OnErr result (self.new.piece ≡ []) }
        ensures lasts { S.lasts input.old input.new }
    {
        self.count = 0;
        let room = PIECE.min(MOST_INPUT - self.taken);
        if room == 0 {
            return Err(End::TooLong);
        }
        let count = read_into(input, room, &mut self.buffer)?;
        self.count = count;
        self.taken += count;
        Ok(())
    }

    /// The piece that `next` took last. It is empty before the first call of `next`, and after one
    /// that took none.
    pub fn piece(&self) -> &[u8]
        ensures { result.now ≡ self.now.piece }
    {
        &self.buffer[..self.count]
    }
}

/// Reads at most so many bytes into the front of the buffer, and answers how many, at least one, or
/// why there are none.
fn read_into<S: Source>(input: &mut S, room: usize, buffer: &mut [u8]) -> Result<usize, End>
    requires some { 1 ≤ room }
    requires room { room ≤ length buffer.old }
    ensures reads { ReadsInto room (S.state input.old) (S.state input.new) buffer.new result }
    ensures lasts { S.lasts input.old input.new }
{
    let Ok(count) = input.read(&mut buffer[..room]) else {
        return Err(End::Failed);
    };
    if count == 0 {
        return Err(End::Seen);
    }
    Ok(count)
}
