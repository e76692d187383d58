// Rules 1 to 5, by the front of a file.
// The module is private: its function is a helper of `header::read` and `header::judge`, which meet what it requires.
ghost use Rattle.std.specs.Prelude.{◌≡◌};
ghost use Rattle.header.specs.Answers.{Front};
ghost use Rattle.header.specs.Steps.{limits_answer};

use crate::stored::Stored;
use crate::{Refusal, rules, stored};

// The stored numbers of a front that keeps rules 1 to 5, or the first of them that it breaks.
pub fn limits(front: &[u8], long: usize) -> Result<Stored, Refusal>
    requires { Front front.now long }
    ensures { result ≡ limits_answer front.now long }
{
    if long < rules::LEAST_LENGTH {
        return Err(Refusal::TooShort);
    }
    let s = stored::read_stored(front);
    if !rules::is_table(s) {
        return Err(Refusal::NotATable);
    }
    if !rules::known_version(s.version) {
        return Err(Refusal::UnknownVersion);
    }
    if !rules::is_unencrypted(front, stored::encryption_at(s.version)) {
        return Err(Refusal::Encrypted);
    }
    if !rules::limits_kept(s) {
        return Err(Refusal::HeaderLimit);
    }
    Ok(s)
}
