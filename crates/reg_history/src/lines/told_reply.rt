ghost use Rattle.std.specs.Prelude.{◌≡◌, ◌<◌, ◌≤◌, ◌++◌, ◌∷◌, [], ℕ, List, length, All, IfOk, IfSome, IsSomeAnd};
ghost use Rattle.std.specs.List.{flat_map};
ghost use Rattle.reg_model.specs.declared.reply.FullCause.{FullCause as ACause};
ghost use Rattle.reg_model.specs.declared.reply.Reply.{Reply as AReply};
ghost use Rattle.reg_model.specs.declared.reply.Reply.TheVariants.{Full as AFull};
ghost use Rattle.reg_requests.specs.Lines.{reply_text};
ghost use Rattle.reg_history.specs.declared.lines.told.ToldReply.{ToldReply as AToldReply};
ghost use Rattle.reg_history.specs.declared.lines.told.ToldReply.TheVariants.{Plain as APlain};
ghost use Rattle.reg_history.specs.declared.lines.told.ToldHit.{ToldHit as AHit};
ghost use Rattle.reg_history.specs.inner.Bytes.{first};
ghost use Rattle.reg_history.specs.lines.HistoryLines.{told_reply_text, told_hit_text, IsToldReplyValue, IsToldHitValue};
ghost use Rattle.reg_history.specs.lines.Values.{IsReplyValue};

use crate::lines::told::{ToldHit, ToldHits, ToldReply};
use crate::lines::values::{behind, first_byte, number_behind, unit_behind, value_behind};
use iscc_header::{Items, NoMemory};
use iscc_text::read_printed;
use reg_model::{FullCause, Reply};
use std::alloc::Global;

/// Which reply has this text before its line feed, if one has it. Whether it has is seen by printing it.
pub(crate) fn reply_of(alloc: Global, text: &[u8]) -> Result<ToldReply, NoMemory>
    ensures reads { (reply : AToldReply) → IsToldReplyValue reply → text.now ≡ told_reply_text reply ++ 10 ∷ [] → IfOk result (λ found. found ≡ reply) }
    ensures value { IfOk result IsToldReplyValue }
{
    if first_byte(text) == b'h' {
        let (_, words) = value_behind(b"hits ", text);
        Ok(ToldReply::Hits(hits_of(alloc, words)?))
    } else {
        Ok(ToldReply::Plain(plain_reply_of(text)))
    }
}

// The hits of these words, with a space before each, up to the first that is none. How many there are is told twice, so the
// number isn't read.
fn hits_of(alloc: Global, words: &[u8]) -> Result<ToldHits, NoMemory>
    ensures reads { (hits : List AHit) → All IsToldHitValue hits → words.now ≡ flat_map (λ (hit : AHit). 32 ∷ told_hit_text hit) hits ++ 10 ∷ [] → IfOk result (λ found. found ≡ hits) }
    ensures value { IfOk result (λ found. All IsToldHitValue found) }
{
    let mut hits = Items::new(alloc);
    let mut rest = words;
    while first_byte(rest) == b' ' {
        let Some((hit, more)) = hit_in_front(behind(b" ", rest)) else {
            return Ok(hits);
        };
        hits.push(hit)?;
        rest = more;
    }
    Ok(hits)
}

fn hit_in_front(text: &[u8]) -> Option<(ToldHit, &[u8])>
    ensures reads { (hit : AHit) (rest : List ℕ) → IsToldHitValue hit → first rest < 48 → text.now ≡ told_hit_text hit ++ rest
        → IsSomeAnd result (λ pair. (pair.0 ≡ hit) × (pair.1.now ≡ rest)) }
    ensures value { IfSome result (λ pair. IsToldHitValue pair.0) }
    ensures within { IfSome result (λ pair. length pair.1.now ≤ length text.now) }
{
    let (id, rest) = number_behind(b"", text);
    let (distance, rest) = number_behind(b",", rest);
    let (letters, rest) = value_behind(b",", rest);
    let unit = read_printed(letters)?;
    Some((ToldHit { id, distance, unit }, rest))
}

fn plain_reply_of(text: &[u8]) -> Reply
    ensures reads { (reply : AReply) → IsToldReplyValue (APlain reply) → text.now ≡ reply_text 0 reply ++ 10 ∷ [] → result ≡ reply }
    ensures value { IsToldReplyValue (APlain result) }
{
    match first_byte(text) {
        b'i' => Reply::Id(number_behind(b"id ", text).0),
        b'w' => Reply::Withdrawn(number_behind(b"withdrawn ", text).0),
        b'n' => Reply::Absent(number_behind(b"none ", text).0),
        b'l' => Reply::Live(unit_behind(b"live ", text).0),
        b'c' => Reply::Count(number_behind(b"count ", text).0),
        b'r' => Reply::Reached,
        b'a' => Reply::Ahead,
        _ => Reply::Full(full_of(text)),
    }
}

fn full_of(text: &[u8]) -> FullCause
    ensures reads { (cause : ACause) → IsReplyValue (AFull cause) → text.now ≡ reply_text 0 (AFull cause) ++ 10 ∷ [] → result ≡ cause }
    ensures value { IsReplyValue (AFull result) }
{
    if first_byte(behind(b"full ", text)) == b'l' {
        FullCause::Log
    } else {
        FullCause::Entries {
            given: number_behind(b"full entries ", text).0,
        }
    }
}
