ghost use Rattle.std.specs.Prelude.{◌≡◌, [], ◌∷◌, ◌++◌, codes, IsErr, MatchResult};
ghost use Rattle.std.specs.Fmt.{decimal};
ghost use Rattle.reg_requests.specs.Lines.{line, spaced};
ghost use Rattle.reg_session.specs.Faults.{HasCause};
ghost use Rattle.reg_session.specs.Outside.{TakesWhole, TakesPart, Tells, sink_view};
ghost use Rattle.reg_top.specs.FaultLines.{words_line, unsaved_line, refusal_line, text_why, word_why, iscc_why, compose_why, line_why, image_why};
ghost use Rattle.reg_top.specs.inner.Endings.{unread_line, declined_line, declined_ending};

use crate::ending::{Declined, Ending, WORDS};
use crate::refusal::{Refusal, WordFault};
use crate::write::{write_all, write_two};
use iscc_code::{ComposeFault, IsccFault};
use iscc_text::TextFault;
use itoa::Buffer;
use reg_history::{CheckFault, CheckWhy};
use reg_image::{ImageFault, ImageWhy};
use reg_session::{Failed, FetchFault, Sink};

/// Tells that the words are of no form, and answers that status. Takes no memory, as no function here does.
///
/// A line is written as far as the sink takes it: a fault of the sink changes no status.
pub(crate) fn no_form<K: Sink>(sink: &mut K) -> u8
    ensures status { result ≡ 2 }
    ensures told { Tells (sink_view (K.taken sink.old) (K.faults sink.old)) (sink_view (K.taken sink.new) (K.faults sink.new)) words_line }
{
    tell(sink, b"fault 2 words", b"");
    WORDS
}

/// Tells why the file with this name gave no bytes.
pub(crate) fn unread<K: Sink>(sink: &mut K, fault: FetchFault, name: &str) -> Ending
    ensures ending { result ≡ Ending.Unread fault }
    ensures told { Tells (sink_view (K.taken sink.old) (K.faults sink.old)) (sink_view (K.taken sink.new) (K.faults sink.new)) (unread_line fault name.now) }
{
    match fault {
        FetchFault::Missing => tell(sink, b"fault 3 missing ", name.as_bytes()),
        FetchFault::Failed => tell(sink, b"fault 4 read ", name.as_bytes()),
        FetchFault::TooLong => tell(sink, b"fault 7 too long ", name.as_bytes()),
        FetchFault::NoMemory => tell(sink, b"fault 6 memory", b""),
    }
    Ending::Unread(fault)
}

/// Tells that an image couldn't be put under this name.
pub(crate) fn unsaved<K: Sink>(sink: &mut K, name: &str) -> Ending
    ensures ending { result ≡ Ending.Unsaved }
    ensures told { Tells (sink_view (K.taken sink.old) (K.faults sink.old)) (sink_view (K.taken sink.new) (K.faults sink.new)) (unsaved_line name.now) }
{
    tell(sink, b"fault 5 write ", name.as_bytes());
    Ending::Unsaved
}

/// Tells why what a command is given makes no output.
pub(crate) fn declined<K: Sink>(sink: &mut K, why: Declined) -> Ending
    ensures ending { result ≡ declined_ending why }
    ensures told { Tells (sink_view (K.taken sink.old) (K.faults sink.old)) (sink_view (K.taken sink.new) (K.faults sink.new)) (declined_line why) }
{
    match why {
        Declined::Refused(refusal) => {
            tell_refusal(sink, refusal);
            Ending::Refused(refusal)
        }
        Declined::NoMemory => {
            tell(sink, b"fault 6 memory", b"");
            Ending::NoMemory
        }
    }
}

fn tell_refusal<K: Sink>(sink: &mut K, why: Refusal)
    ensures { Tells (sink_view (K.taken sink.old) (K.faults sink.old)) (sink_view (K.taken sink.new) (K.faults sink.new)) (refusal_line why) }
{
    match why {
        Refusal::Text(fault) => tell_text(sink, fault),
        Refusal::Word { at, why } => tell_word(sink, at, why),
        Refusal::Units(fault) => tell(sink, b"fault 10 compose ", compose_fault(fault)),
        Refusal::NoHistory => tell(sink, b"fault 10 line 0 none", b""),
        Refusal::Line(fault) => tell_line(sink, fault),
        Refusal::Image(fault) => tell_image(sink, fault),
        Refusal::TooSmall {
            round,
            live,
            entries,
        } => tell_small(sink, round, live, entries),
        Refusal::IdsSpent { round, base, log } => tell_spent(sink, round, base, log),
    }
}

fn tell_text<K: Sink>(sink: &mut K, fault: TextFault)
    ensures { Tells (sink_view (K.taken sink.old) (K.faults sink.old)) (sink_view (K.taken sink.new) (K.faults sink.new)) (line (codes "fault 10 " ++ spaced (codes "text" ∷ text_why fault ∷ []))) }
{
    if let Err(Failed) = write_all(sink, b"fault 10 text") {
        return;
    }
    tell_text_fault(sink, fault);
}

fn tell_word<K: Sink>(sink: &mut K, at: usize, why: WordFault)
    ensures { Tells (sink_view (K.taken sink.old) (K.faults sink.old)) (sink_view (K.taken sink.new) (K.faults sink.new))
        (line (codes "fault 10 " ++ spaced (codes "word" ∷ decimal at ∷ word_why why ∷ []))) }
{
    let mut buffer = Buffer::new();
    if let Err(Failed) = write_two(sink, b"fault 10 word ", buffer.format(at).as_bytes()) {
        return;
    }
    tell_word_fault(sink, why);
}

fn tell_line<K: Sink>(sink: &mut K, fault: CheckFault)
    ensures { Tells (sink_view (K.taken sink.old) (K.faults sink.old)) (sink_view (K.taken sink.new) (K.faults sink.new))
        (line (codes "fault 10 " ++ spaced (codes "line" ∷ decimal fault.line ∷ line_why fault.why ∷ []))) }
{
    let mut buffer = Buffer::new();
    if let Err(Failed) = write_two(
        sink,
        b"fault 10 line ",
        buffer.format(fault.line).as_bytes(),
    ) {
        return;
    }
    tell(sink, b" ", line_fault(fault.why));
}

fn tell_image<K: Sink>(sink: &mut K, fault: ImageFault)
    ensures { Tells (sink_view (K.taken sink.old) (K.faults sink.old)) (sink_view (K.taken sink.new) (K.faults sink.new))
        (line (codes "fault 9 " ++ spaced (codes "image" ∷ image_why fault.why ∷ codes "at" ∷ decimal fault.at ∷ []))) }
{
    if let Err(Failed) = write_two(sink, b"fault 9 image ", image_fault(fault.why)) {
        return;
    }
    let mut buffer = Buffer::new();
    tell(sink, b" at ", buffer.format(fault.at).as_bytes());
}

fn tell_small<K: Sink>(sink: &mut K, round: u64, live: u64, entries: u32)
    ensures { Tells (sink_view (K.taken sink.old) (K.faults sink.old)) (sink_view (K.taken sink.new) (K.faults sink.new))
        (line (codes "fault 8 " ++ spaced (codes "round" ∷ decimal round ∷ codes "live" ∷ decimal live ∷ codes "entries" ∷ decimal entries ∷ []))) }
{
    if let Err(Failed) = write_number(sink, b"fault 8 round ", round) {
        return;
    }
    if let Err(Failed) = write_number(sink, b" live ", live) {
        return;
    }
    let mut buffer = Buffer::new();
    tell(sink, b" entries ", buffer.format(entries).as_bytes());
}

fn tell_spent<K: Sink>(sink: &mut K, round: u64, base: u64, log: u32)
    ensures { Tells (sink_view (K.taken sink.old) (K.faults sink.old)) (sink_view (K.taken sink.new) (K.faults sink.new))
        (line (codes "fault 11 " ++ spaced (codes "round" ∷ decimal round ∷ codes "base" ∷ decimal base ∷ codes "log" ∷ decimal log ∷ []))) }
{
    if let Err(Failed) = write_number(sink, b"fault 11 round ", round) {
        return;
    }
    if let Err(Failed) = write_number(sink, b" base ", base) {
        return;
    }
    let mut buffer = Buffer::new();
    tell(sink, b" log ", buffer.format(log).as_bytes());
}

// The end of a line, with a space and the fault of a word.
fn tell_word_fault<K: Sink>(sink: &mut K, why: WordFault)
    ensures { Tells (sink_view (K.taken sink.old) (K.faults sink.old)) (sink_view (K.taken sink.new) (K.faults sink.new)) (line (codes " " ++ word_why why)) }
{
    match why {
        WordFault::Text(fault) => tell_text_fault(sink, fault),
        WordFault::NotUnit => tell(sink, b" not a unit", b""),
    }
}

// The end of a line, with a space and the fault of a text.
fn tell_text_fault<K: Sink>(sink: &mut K, fault: TextFault)
    ensures { Tells (sink_view (K.taken sink.old) (K.faults sink.old)) (sink_view (K.taken sink.new) (K.faults sink.new)) (line (codes " " ++ text_why fault)) }
{
    match fault {
        TextFault::Scheme => tell(sink, b" scheme", b""),
        TextFault::Letter { at } => {
            let mut buffer = Buffer::new();
            tell(sink, b" letter ", buffer.format(at).as_bytes());
        }
        TextFault::Bits => tell(sink, b" bits", b""),
        TextFault::Iscc(fault) => tell(sink, b" ", iscc_fault(fault)),
    }
}

fn iscc_fault(fault: IsccFault) -> &'static [u8]
    ensures { result.now ≡ iscc_why fault }
{
    match fault {
        IsccFault::Header(_) => b"header",
        IsccFault::MainType => b"main type",
        IsccFault::Version => b"version",
        IsccFault::Length => b"length",
        IsccFault::SubType => b"sub type",
        IsccFault::Short => b"short",
        IsccFault::Long => b"long",
    }
}

fn compose_fault(fault: ComposeFault) -> &'static [u8]
    ensures { result.now ≡ compose_why fault }
{
    match fault {
        ComposeFault::Twice => b"twice",
        ComposeFault::NoData => b"no data",
        ComposeFault::NoInstance => b"no instance",
        ComposeFault::Narrow => b"narrow",
        ComposeFault::SubTypes => b"sub types",
    }
}

fn line_fault(why: CheckWhy) -> &'static [u8]
    ensures { result.now ≡ line_why why }
{
    match why {
        CheckWhy::Form => b"form",
        CheckWhy::Round => b"round",
        CheckWhy::Session => b"session",
        CheckWhy::Order => b"order",
        CheckWhy::Point => b"point",
        CheckWhy::Reply => b"reply",
        CheckWhy::End => b"end",
    }
}

fn image_fault(why: ImageWhy) -> &'static [u8]
    ensures { result.now ≡ image_why why }
{
    match why {
        ImageWhy::Short => b"short",
        ImageWhy::Magic => b"magic",
        ImageWhy::Version => b"version",
        ImageWhy::Kind => b"kind",
        ImageWhy::Order => b"order",
        ImageWhy::Range => b"range",
        ImageWhy::Sum => b"sum",
        ImageWhy::Trailing => b"trailing",
    }
}

// Writes a text, and a number behind it.
fn write_number<K: Sink>(sink: &mut K, front: &[u8], number: u64) -> Result<(), Failed>
    ensures takes { MatchResult result
        (λ _. TakesWhole (K.taken sink.old) (K.taken sink.new) (front.now ++ decimal number))
        (λ _. TakesPart (K.taken sink.old) (K.taken sink.new) (front.now ++ decimal number)) }
    ensures cause { HasCause (K.faults sink.old) (K.faults sink.new) (IsErr result) }
{
    let mut buffer = Buffer::new();
    write_two(sink, front, buffer.format(number).as_bytes())
}

// Writes the rest of a line in two parts, as far as the sink takes it.
fn tell<K: Sink>(sink: &mut K, front: &[u8], rest: &[u8])
    ensures { Tells (sink_view (K.taken sink.old) (K.faults sink.old)) (sink_view (K.taken sink.new) (K.faults sink.new)) (line (front.now ++ rest.now)) }
{
    if let Err(Failed) = write_all(sink, front) {
        return;
    }
    tell_rest(sink, rest);
}

fn tell_rest<K: Sink>(sink: &mut K, rest: &[u8])
    ensures { Tells (sink_view (K.taken sink.old) (K.faults sink.old)) (sink_view (K.taken sink.new) (K.faults sink.new)) (line rest.now) }
{
    let _ = write_two(sink, rest, b"\n");
}
