//! Words.

ghost use Rattle.std.specs.Prelude.{◌≡◌};
ghost use Rattle.lensmodel.specs.Files.Records.{same_word};

/// Whether the units of a word are the bytes of a text.
pub fn is_word(word: &[u16], text: &[u8]) -> bool
    ensures { result ≡ same_word word.now text.now }
{
    if word.len() != text.len() {
        return false;
    }
    for i in 0..word.len() {
        if word[i] != u16::from(text[i]) {
            return false;
        }
    }
    true
}

#[cfg(test)]
mod tests {
    use super::*;

    #[test]
    fn words(rt: HostRuntime) {
        assert!(rt; is_word(&[78, 83, 67], b"NSC"));
        assert!(rt; !is_word(&[78, 83], b"NSC"));
        assert!(rt; !is_word(&[78, 83, 67, 67], b"NSC"));
        assert!(rt; !is_word(&[78, 83, 323], b"NSC"));
    }
}
