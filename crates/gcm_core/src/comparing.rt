//! The comparison of what is secret until it is known to be right.

ghost use Rattle.std.specs.Prelude.{◌≡◌, length};
ghost use Rattle.std.specs.Str.{bytes_eq};

/// Whether the bytes are equal. Every byte is looked at, whichever differ; nothing is claimed of
/// the time.
pub fn same(first: &[u8], second: &[u8]) -> bool
    requires { length first.now ≡ length second.now }
    ensures { result ≡ bytes_eq first.now second.now }
{
    let mut differences = 0;
    'each: for i in 0..first.len() {
        differences |= first[i] ^ second[i];
    }
    differences == 0
}
