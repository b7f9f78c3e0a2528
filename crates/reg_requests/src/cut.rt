ghost use Rattle.std.specs.Prelude.{◌≡◌, ◌≢◌, [], ◌∷◌, ◌++◌, ◌+◌, ◌<◌, ◌≤◌, ℕ, length, map, All, slice_index, IfOk, OnOk};
ghost use Rattle.reg_requests.specs.declared.items.Item.TheVariants.{Call as ACallItem};
ghost use Rattle.reg_requests.specs.Words.{lines_of};
ghost use Rattle.reg_requests.specs.Requests.{AreItems, calls_of};
ghost use Rattle.reg_model.specs.Calls.{IsRequest};
ghost use Rattle.reg_requests.specs.inner.Reading.{AddsLine};

use crate::items::{Item, Line, Requests};
use crate::line::read_line;
use iscc_header::{Items, NoMemory};
use reg_model::Call;
use std::alloc::Global;

/// The calls and refused lines of a request file, in order.
pub fn read_requests(alloc: Global, file: &[u8]) -> Result<Requests, NoMemory>
    ensures items { IfOk result (λ items. AreItems file.now items) }
    ensures requests { IfOk result (λ items. All IsRequest (calls_of items)) }
    ensures few { IfOk result (λ items. length (calls_of items) ≤ length file.now) }
{
    let mut items = Items::new(alloc);
    let mut rest = file;
    while !rest.is_empty() {
        let (line, behind) = cut(rest);
        add_line(&mut items, line)?;
        rest = behind;
    }
    Ok(items)
}

// Adds what a line asks for.
fn add_line(items: &mut Requests, line: &[u8]) -> Result<(), NoMemory>
    ensures { OnOk result (AddsLine line.now items.old items.new) }
{
    match read_line(line) {
        Line::Skip => Ok(()),
        Line::Bad(why) => items.push(Item::Bad(why)),
        Line::Calls(calls) => add_calls(items, calls.as_slice()),
    }
}

fn add_calls(items: &mut Requests, calls: &[Call]) -> Result<(), NoMemory>
    ensures { OnOk result (items.new ≡ items.old ++ map ACallItem calls.now) }
{
    for call in calls {
        items.push(Item::Call(*call))?;
    }
    Ok(())
}

// The first line, and what stands behind its line feed.
fn cut(file: &[u8]) -> (&[u8], &[u8])
    requires { 0 < length file.now }
    ensures lines { lines_of file.now ≡ result.0.now ∷ lines_of result.1.now }
    ensures shorter { length result.1.now < length file.now }
    ensures parts { length result.0.now + length result.1.now ≤ length file.now }
{
    let at = line_feed(file);
    if at < file.len() {
        (&file[..at], &file[at + 1..])
    } else {
        (file, &file[at..])
    }
}

// The place of the first line feed, or the length.
fn line_feed(bytes: &[u8]) -> usize
    ensures within { result ≤ length bytes.now }
    ensures before { (k : ℕ) → k < result → slice_index bytes.now k ≢ 10 }
    ensures found { result < length bytes.now → slice_index bytes.now result ≡ 10 }
{
    for (i, byte) in bytes.iter().enumerate() {
        if *byte == b'\n' {
            return i;
        }
    }
    bytes.len()
}
