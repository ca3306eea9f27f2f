//! Laws about encryption. A law is a function that does nothing: its contract is what is proved.

ghost use Rattle.esdk_encrypt.specs.Gaining.{GainsAs, KeepsFronts, as_bytes, gained_as, gaining};
ghost use Rattle.esdk_encrypt.specs.Gaining.{sink_fails};
ghost use Rattle.esdk_encrypt.specs.Laws.{EncryptsInputsThatFit, GainsTheMessage};
ghost use Rattle.esdk_encrypt.specs.Laws.{EncryptLeavesAFront, SealsAllThatCame};
ghost use Rattle.esdk_encrypt.specs.Laws.{WritesAllButTheLast};
ghost use Rattle.esdk_base.specs.Receiver.{PutsAll};

use esdk_base::Sink;

/// An input that fits into a message is encrypted, unless memory runs out or a count of faults
/// rises.
pub fn what_fits_is_encrypted()
    ensures { EncryptsInputsThatFit }
{}

/// An output that tells its bytes has gained the message of all bytes of an input that tells them.
pub fn the_output_gains_the_message()
    ensures { GainsTheMessage }
{}

/// An encryption that is done has put out the message of just the bytes that came from the input,
/// whose end was seen, made with just the bytes that were drawn. It is said of what went through
/// the objects, which each of them tells.
pub fn what_came_is_sealed()
    ensures { SealsAllThatCame }
{}

/// Where the writing of a message ends early, whatever the reason, the output has gained a front of
/// the message of the bytes taken, as far as a message has room for them: as they are, or in any
/// form in which fronts stay fronts.
pub fn an_early_end_leaves_a_front()
    ensures front { EncryptLeavesAFront }
    ensures bytes { KeepsFronts as_bytes }
{}

/// While the input goes on, all frames are written but the last: so many that with one more they
/// have room for the text, and no fewer have.
pub fn all_frames_but_the_last_are_written()
    ensures { WritesAllButTheLast }
{}

/// What `encrypt` says of a sink as a receiver, it says of what that tells and counts: it gained
/// the bytes; or a put failed, and it gained all of the first and a front of what comes behind.
pub fn a_sink_gains_what_it_takes<O: Sink>()
    ensures { (old new : O) → GainsAs (gaining (PutsAll O.state) (sink_fails O.state) old new)
        (gained_as as_bytes (O.state old) (O.state new)) }
{}
