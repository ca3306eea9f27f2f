//! What the errors of the calls below are called in the program.
ghost use Rattle.std.specs.Prelude.{◌≡◌};
ghost use Rattle.esdk_run.specs.Failures.{decryption_failure, encryption_failure};
ghost use Rattle.esdk_run.specs.Failures.{extraction_failure, file_failure, pairs_failure};
ghost use Rattle.esdk_run.specs.Failures.{resealing_failure, tree_failure, words_failure};

use context_codec::PairError;
use esdk_args::WordsFault;
use esdk_decrypt::DecryptError;
use esdk_encrypt::EncryptError;
use esdk_fields::{FileRefusal, Outside};
use esdk_report::Failure;
use extract_core::ExtractError;
use keyring_file::TreeError;
use reseal_core::InputError;
use whole_input::FileError;

/// The failure of refused words.
pub fn words_failure(fault: WordsFault) -> Failure
    ensures { result ≡ words_failure fault }
{
    match fault {
        WordsFault::NotRead => Failure::NotRead,
        WordsFault::BadNumber(name) => Failure::BadNumber(name),
        WordsFault::BadPair(number) => Failure::BadPair(number),
        WordsFault::Memory => Failure::Memory,
    }
}

/// The failure of refused pairs.
pub fn pairs_failure(error: PairError) -> Failure
    ensures { result ≡ pairs_failure error }
{
    match error {
        PairError::Refusal(refusal) => Failure::Refusal(refusal),
        PairError::Memory => Failure::Memory,
    }
}

/// The failure of a file that wasn't taken.
pub fn file_failure(error: FileError) -> Failure
    ensures { result ≡ file_failure error }
{
    match error {
        FileError::Shelf => Failure::Outside(Outside::ShelfFault),
        FileError::TooLong => Failure::File(FileRefusal::FileTooLong),
        FileError::Memory => Failure::Memory,
    }
}

/// The failure of a file that was taken and is refused: a keyring file, a job file, or the file of
/// an audit.
pub fn tree_failure(error: TreeError) -> Failure
    ensures { result ≡ tree_failure error }
{
    match error {
        TreeError::File(refusal) => Failure::File(refusal),
        TreeError::Memory => Failure::Memory,
    }
}

/// The failure of an encryption.
pub fn encryption_failure(error: EncryptError) -> Failure
    ensures { result ≡ encryption_failure error }
{
    match error {
        EncryptError::Refusal(refusal) => Failure::Refusal(refusal),
        EncryptError::Outside(outside) => Failure::Outside(outside),
        EncryptError::Memory => Failure::Memory,
    }
}

/// The failure of a decryption.
pub fn decryption_failure(error: DecryptError) -> Failure
    ensures { result ≡ decryption_failure error }
{
    match error {
        DecryptError::Fault(fault) => Failure::Fault(fault),
        DecryptError::Outside(outside) => Failure::Outside(outside),
        DecryptError::Memory => Failure::Memory,
    }
}

/// The failure of an extraction.
pub fn extraction_failure(error: ExtractError) -> Failure
    ensures { result ≡ extraction_failure error }
{
    match error {
        ExtractError::Fault(fault) => Failure::Fault(fault),
        ExtractError::Outside(outside) => Failure::Outside(outside),
        ExtractError::Memory => Failure::Memory,
    }
}

/// The failure of a resealing.
pub fn resealing_failure(error: InputError) -> Failure
    ensures { result ≡ resealing_failure error }
{
    match error {
        InputError::Fault(fault) => Failure::Fault(fault),
        InputError::Refusal(refusal) => Failure::Refusal(refusal),
        InputError::Outside(outside) => Failure::Outside(outside),
        InputError::Memory => Failure::Memory,
    }
}
