//! Limits, which a caller gives as numbers.

ghost use Rattle.std.specs.Prelude.{◌≡◌};
ghost use Rattle.session_parts.specs.Limits.{reader_settings, some_unless};

use header_codec::Settings;

/// The limits of a reader, of which 0 sets none.
pub fn settings(max_keys: u16, max_unit: u64, uncommitted: bool) -> Settings
    ensures { result ≡ reader_settings max_keys max_unit uncommitted }
{
    Settings {
        max_keys: keys_limit(max_keys),
        max_unit: unit_limit(max_unit),
        uncommitted,
    }
}

/// The most encrypted data keys, of which 0 sets no limit.
pub fn keys_limit(limit: u16) -> Option<u16>
    ensures { result ≡ some_unless 0 limit }
{
    if limit == 0 { None } else { Some(limit) }
}

/// The most bytes of a unit, of which 0 sets no limit.
fn unit_limit(limit: u64) -> Option<u64>
    ensures { result ≡ some_unless 0 limit }
{
    if limit == 0 { None } else { Some(limit) }
}
