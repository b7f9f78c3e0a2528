ghost use Rattle.std.specs.Prelude.{◌≡◌, ◌≢◌, ◌<◌, ◌≤◌, ℕ, length, slice_index, IfSome, IfNone};
ghost use Rattle.reg_top.specs.SavedHistories.{IsSavedHistory, HasNoHistory};

// The line with which a history begins.
const HEAD: &[u8] = b"iscc-history 1";

/// The history that is saved in a file: all from the first line on that begins one.
pub(crate) fn history_in(file: &[u8]) -> Option<&[u8]>
    ensures saved { IfSome result (λ text. IsSavedHistory file.now text.now) }
    ensures none { IfNone result (HasNoHistory file.now) }
{
    let mut rest = file;
    while !rest.is_empty() {
        let at = line_feed(rest);
        if &rest[..at] == HEAD {
            return Some(rest);
        }
        if at == rest.len() {
            return None;
        }
        rest = &rest[at + 1..];
    }
    None
}

// The place of the first line feed, or the length.
fn line_feed(bytes: &[u8]) -> usize
    ensures within { result ≤ length bytes.now }
    ensures before { (k : ℕ) → k < result → slice_index bytes.now k ≢ 10 }
    ensures found { result < length bytes.now → slice_index bytes.now result ≡ 10 }
{
    bytes
        .iter()
        .position(|byte| *byte == b'\n')
        .unwrap_or(bytes.len())
}
