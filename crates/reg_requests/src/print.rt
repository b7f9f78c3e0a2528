ghost use Rattle.std.specs.Prelude.{◌≡◌, ◌∷◌, ◌++◌, take, OnOk, OnErr};
ghost use Rattle.std.specs.Fmt.{decimal};
ghost use Rattle.iscc_text.specs.UnitText.{unit_text};
ghost use Rattle.reg_model.specs.declared.reply.Reply.TheVariants.{Hits as AHits};
ghost use Rattle.reg_requests.specs.Lines.{call_text, reply_text, hit_text, bad_text, kind_of as kind_asked};
ghost use Rattle.reg_requests.specs.inner.Printing.{Grows};

use crate::items::BadLine;
use iscc_header::{Kind, NoMemory, Unit64};
use iscc_text::print_unit;
use itoa::Buffer;
use reg_model::{Call, FullCause, Hit, Reply};

/// Appends the text of a call. Without memory nothing is appended.
pub fn print_call(call: &Call, out: &mut Vec<u8>) -> Result<(), NoMemory>
    ensures ok { OnOk result (out.new.items ≡ out.old.items ++ call_text call.now) }
    ensures err { OnErr result (out.new.items ≡ out.old.items) }
{
    let before = out.len();
    let done = append_call(call, out);
    or_nothing(done, before, out)
}

/// Appends the text of a reply. The kind is that of the hits, and is used by them alone.
/// Without memory nothing is appended.
pub fn print_reply(reply: &Reply, kind: Kind, out: &mut Vec<u8>) -> Result<(), NoMemory>
    ensures ok { OnOk result (out.new.items ≡ out.old.items ++ reply_text kind reply.now) }
    ensures err { OnErr result (out.new.items ≡ out.old.items) }
{
    let before = out.len();
    let done = append_reply(reply, kind, out);
    or_nothing(done, before, out)
}

/// Appends the text that tells why a line is refused. Without memory nothing is appended.
pub fn print_bad(bad: BadLine, out: &mut Vec<u8>) -> Result<(), NoMemory>
    ensures ok { OnOk result (out.new.items ≡ out.old.items ++ bad_text bad) }
    ensures err { OnErr result (out.new.items ≡ out.old.items) }
{
    match bad {
        BadLine::Line => print_word(b"bad line", out),
        BadLine::Text => print_word(b"bad text", out),
        BadLine::Short => print_word(b"bad short", out),
        BadLine::Number => print_word(b"bad number", out),
        BadLine::Radius => print_word(b"bad radius", out),
        BadLine::Hex => print_word(b"bad hex", out),
    }
}

/// Appends a word, which the lines of histories are made of too. Without memory nothing is appended.
pub fn print_word(word: &[u8], out: &mut Vec<u8>) -> Result<(), NoMemory>
    ensures ok { OnOk result (out.new.items ≡ out.old.items ++ word.now) }
    ensures err { OnErr result (out.new.items ≡ out.old.items) }
{
    Ok(out.extend_from_slice(word)?)
}

/// Appends a word and a number in decimal, without leading zeros. Without memory nothing is appended.
pub fn print_word_number(word: &[u8], number: u64, out: &mut Vec<u8>) -> Result<(), NoMemory>
    ensures ok { OnOk result (out.new.items ≡ out.old.items ++ (word.now ++ decimal number)) }
    ensures err { OnErr result (out.new.items ≡ out.old.items) }
{
    let before = out.len();
    let done = append_number(word, number, out);
    or_nothing(done, before, out)
}

/// The kind of the hits that a call may get: that of the unit that a query names.
pub fn kind_of(call: &Call) -> Kind
    ensures { result ≡ kind_asked call.now }
{
    match call {
        Call::Near(unit, _) => unit.kind,
        _ => Kind::default(),
    }
}

// Takes back what stands behind the first bytes, where memory was wanting.
fn or_nothing(done: Result<(), NoMemory>, before: usize, out: &mut Vec<u8>) -> Result<(), NoMemory>
    ensures same { result ≡ done }
    ensures ok { OnOk done (out.new.items ≡ out.old.items) }
    ensures err { OnErr done (out.new.items ≡ take before out.old.items) }
{
    if done.is_err() {
        out.truncate(before);
    }
    done
}

// The functions below leave pieces behind where memory is wanting.

fn append_call(call: &Call, out: &mut Vec<u8>) -> Result<(), NoMemory>
    ensures ok { OnOk result (out.new.items ≡ out.old.items ++ call_text call.now) }
    ensures err { OnErr result (Grows out.old.items out.new.items) }
{
    match call {
        Call::Declare(unit) => append_unit(b"declare ", unit, out),
        Call::Withdraw(id) => append_number(b"withdraw ", *id, out),
        Call::Near(unit, radius) => {
            append_unit(b"near ", unit, out)?;
            append_number(b" ", *radius as u64, out)
        }
        Call::Show(id) => append_number(b"show ", *id, out),
        Call::Count => append_word(b"count", out),
        Call::After(point) => append_number(b"after ", *point, out),
    }
}

fn append_reply(reply: &Reply, kind: Kind, out: &mut Vec<u8>) -> Result<(), NoMemory>
    ensures ok { OnOk result (out.new.items ≡ out.old.items ++ reply_text kind reply.now) }
    ensures err { OnErr result (Grows out.old.items out.new.items) }
{
    match reply {
        Reply::Id(id) => append_number(b"id ", *id, out),
        Reply::Withdrawn(id) => append_number(b"withdrawn ", *id, out),
        Reply::Absent(id) => append_number(b"none ", *id, out),
        Reply::Hits(hits) => append_hits(hits.as_slice(), kind, out),
        Reply::Live(unit) => append_unit(b"live ", unit, out),
        Reply::Count(count) => append_number(b"count ", *count, out),
        Reply::Reached => append_word(b"reached", out),
        Reply::Ahead => append_word(b"ahead", out),
        Reply::Full(FullCause::Log) => append_word(b"full log", out),
        Reply::Full(FullCause::Entries { given }) => append_number(b"full entries ", *given, out),
    }
}

fn append_hits(hits: &[Hit], kind: Kind, out: &mut Vec<u8>) -> Result<(), NoMemory>
    ensures ok { OnOk result (out.new.items ≡ out.old.items ++ reply_text kind (AHits hits.now)) }
    ensures err { OnErr result (Grows out.old.items out.new.items) }
{
    append_number(b"hits ", hits.len() as u64, out)?;
    for hit in hits {
        append_hit(hit, kind, out)?;
    }
    Ok(())
}

// A space, and the text of a hit.
fn append_hit(hit: &Hit, kind: Kind, out: &mut Vec<u8>) -> Result<(), NoMemory>
    ensures ok { OnOk result (out.new.items ≡ out.old.items ++ 32 ∷ hit_text kind hit.now) }
    ensures err { OnErr result (Grows out.old.items out.new.items) }
{
    let unit = Unit64 {
        kind,
        body: hit.body,
    };
    append_number(b" ", hit.id, out)?;
    append_number(b",", hit.distance as u64, out)?;
    append_unit(b",", &unit, out)
}

fn append_number(word: &[u8], number: u64, out: &mut Vec<u8>) -> Result<(), NoMemory>
    ensures ok { OnOk result (out.new.items ≡ out.old.items ++ (word.now ++ decimal number)) }
    ensures err { OnErr result (Grows out.old.items out.new.items) }
{
    append_word(word, out)?;
    append_word(Buffer::new().format(number).as_bytes(), out)
}

fn append_unit(word: &[u8], unit: &Unit64, out: &mut Vec<u8>) -> Result<(), NoMemory>
    ensures ok { OnOk result (out.new.items ≡ out.old.items ++ (word.now ++ unit_text unit.now)) }
    ensures err { OnErr result (Grows out.old.items out.new.items) }
{
    append_word(word, out)?;
    append_word(print_unit(unit).as_str().as_bytes(), out)
}

fn append_word(word: &[u8], out: &mut Vec<u8>) -> Result<(), NoMemory>
    ensures ok { OnOk result (out.new.items ≡ out.old.items ++ word.now) }
    ensures err { OnErr result (Grows out.old.items out.new.items) }
{
    print_word(word, out)
}
