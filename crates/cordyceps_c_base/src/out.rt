//! Results that go out through a pointer of C's.
ghost use Rattle.std.specs.Prelude.{◌≡◌, true, false, MatchOption};

/// Writes a value that was found to `*out` and returns `true`, or leaves `*out` as it is and returns `false`.
pub fn write_found<T: Drop>(out: &mut T, found: Option<T>) -> bool
    ensures { MatchOption found ((result ≡ false) × (out.new ≡ out.old)) (λ it. (result ≡ true) × (out.new ≡ it)) }
{
    let Some(it) = found else {
        return false;
    };
    *out = it;
    true
}
