ghost use Rattle.std.specs.Prelude.{◌≡◌, ◌≤◌, ◌↔◌, [], ◌∷◌, List, length, map, All, true, false, Some, None, IfSome, IfNone, IfOk};
ghost use Rattle.arrayvec.specs.ArrayVec.{ArrayVec as AList};
ghost use Rattle.iscc_header.specs.Unit64s.{IsUnit64};
ghost use Rattle.reg_model.specs.declared.call.Call.{Call as ACall};
ghost use Rattle.reg_model.specs.declared.call.Call.TheVariants as calls;
ghost use Rattle.reg_requests.specs.declared.items.BadLine.{BadLine as ABadLine};
ghost use Rattle.reg_requests.specs.Words.{words_of, line_words};
ghost use Rattle.reg_requests.specs.inner.Reading.{AreRequests, OnlyNumberMeans};
ghost use Rattle.reg_requests.specs.Requests.{Withdraw, Show, After, Instance, request_of, declare_request, near_request, number_request, count_request, instance_request, is_skipped, RequestMeans, NumberMeans, RadiusMeans, ReadsWords, ReadsLine};
ghost use Rattle.reg_model.specs.Calls.{IsRequest};

use crate::code::read_units;
use crate::digits::read_digits;
use crate::items::{BadLine, Calls, Line};
use crate::number::read_number;
use crate::words::{next_word, only_word, two_words, without_return};
use arrayvec::ArrayVec;
use iscc_header::Unit64;
use reg_model::{Call, RADIUS_MOST};

/// What a line of a request file asks for, without its line feed: its calls, or the first reason to refuse it.
///
/// Takes no memory, for any length.
pub fn read_line(line: &[u8]) -> Line
    ensures skip { (result ≡ Line.Skip) ↔ (is_skipped (line_words line.now) ≡ true) }
    ensures bad { (why : ABadLine) → (result ≡ Line.Bad why) ↔ ReadsLine line.now (Line.Bad why) }
    ensures calls { (list : AList ACall) → (result ≡ Line.Calls list) ↔ ReadsLine line.now (Line.Calls list) }
    ensures requests { (list : AList ACall) → result ≡ Line.Calls list → All IsRequest list.items }
    ensures few { (list : AList ACall) → result ≡ Line.Calls list → length list.items ≤ 5 }
{
    read_words(without_return(line))
}

// What the words of a text ask for.
fn read_words(text: &[u8]) -> Line
    ensures reads { ReadsWords (words_of text.now) result }
    ensures requests { (list : AList ACall) → result ≡ Line.Calls list → AreRequests list }
{
    let Some((word, rest)) = next_word(text) else {
        return Line::Skip;
    };
    if is_comment(word) {
        return Line::Skip;
    }
    match read_command(word, rest) {
        Ok(calls) => Line::Calls(calls),
        Err(why) => Line::Bad(why),
    }
}

// A word that begins with `#`.
fn is_comment(word: &[u8]) -> bool
    ensures { result ≡ is_skipped (word.now ∷ []) }
{
    match word {
        [] => false,
        [first, ..] => *first == b'#',
    }
}

// The calls of a command, with the text behind it.
fn read_command(command: &[u8], rest: &[u8]) -> Result<Calls, BadLine>
    ensures means { RequestMeans (request_of (command.now ∷ words_of rest.now)) result }
    ensures requests { IfOk result AreRequests }
{
    if command == b"declare".as_slice() {
        return read_declare(rest);
    }
    if command == b"withdraw".as_slice() {
        return read_withdraw(rest);
    }
    if command == b"near".as_slice() {
        return read_near(rest);
    }
    if command == b"show".as_slice() {
        return read_show(rest);
    }
    if command == b"count".as_slice() {
        return read_count(rest);
    }
    if command == b"after".as_slice() {
        return read_after(rest);
    }
    if command == b"instance".as_slice() {
        return read_instance(rest);
    }
    Err(BadLine::Line)
}

fn read_declare(rest: &[u8]) -> Result<Calls, BadLine>
    ensures means { RequestMeans (declare_request (words_of rest.now)) result }
    ensures requests { IfOk result AreRequests }
{
    let Some(text) = only_word(rest) else {
        return Err(BadLine::Line);
    };
    Ok(declare_calls(read_units(text)?.as_slice()))
}

fn read_withdraw(rest: &[u8]) -> Result<Calls, BadLine>
    ensures means { RequestMeans (number_request Withdraw (words_of rest.now)) result }
    ensures requests { IfOk result AreRequests }
{
    Ok(one_call(Call::Withdraw(only_number(rest)?)))
}

fn read_near(rest: &[u8]) -> Result<Calls, BadLine>
    ensures means { RequestMeans (near_request (words_of rest.now)) result }
    ensures requests { IfOk result AreRequests }
{
    let Some((text, number)) = two_words(rest) else {
        return Err(BadLine::Line);
    };
    let units = read_units(text)?;
    let radius = read_radius(number)?;
    Ok(near_calls(units.as_slice(), radius))
}

fn read_show(rest: &[u8]) -> Result<Calls, BadLine>
    ensures means { RequestMeans (number_request Show (words_of rest.now)) result }
    ensures requests { IfOk result AreRequests }
{
    Ok(one_call(Call::Show(only_number(rest)?)))
}

fn read_count(rest: &[u8]) -> Result<Calls, BadLine>
    ensures means { RequestMeans (count_request (words_of rest.now)) result }
    ensures requests { IfOk result AreRequests }
{
    if next_word(rest).is_some() {
        return Err(BadLine::Line);
    }
    Ok(one_call(Call::Count))
}

fn read_after(rest: &[u8]) -> Result<Calls, BadLine>
    ensures means { RequestMeans (number_request After (words_of rest.now)) result }
    ensures requests { IfOk result AreRequests }
{
    Ok(one_call(Call::After(only_number(rest)?)))
}

fn read_instance(rest: &[u8]) -> Result<Calls, BadLine>
    ensures means { RequestMeans (instance_request (words_of rest.now)) result }
    ensures requests { IfOk result AreRequests }
{
    let Some(digits) = word_or_none(rest) else {
        return Err(BadLine::Line);
    };
    Ok(one_call(Call::Declare(read_digits(digits)?)))
}

// The only word of a text, or an empty one where it has none.
fn word_or_none(text: &[u8]) -> Option<&[u8]>
    ensures found { IfSome result (λ word. instance_request (words_of text.now) ≡ Some (Instance word.now)) }
    ensures none { IfNone result (instance_request (words_of text.now) ≡ None) }
{
    match next_word(text) {
        None => Some(b""),
        Some(_) => only_word(text),
    }
}

// The number that the only word of a text stands for.
fn only_number(text: &[u8]) -> Result<u64, BadLine>
    ensures { OnlyNumberMeans (words_of text.now) result }
{
    match only_word(text) {
        None => Err(BadLine::Line),
        Some(word) => number_of(word),
    }
}

fn number_of(word: &[u8]) -> Result<u64, BadLine>
    ensures { NumberMeans word.now result }
{
    read_number(word).ok_or(BadLine::Number)
}

fn read_radius(number: &[u8]) -> Result<u32, BadLine>
    ensures { RadiusMeans number.now result }
{
    let radius = number_of(number)?;
    if radius > RADIUS_MOST as u64 {
        return Err(BadLine::Radius);
    }
    Ok(radius as u32)
}

fn one_call(call: Call) -> Calls
    ensures call { result.items ≡ call ∷ [] }
    ensures request { IsRequest call → AreRequests result }
{
    let mut calls = ArrayVec::new();
    calls.push(call);
    calls
}

fn declare_calls(units: &[Unit64]) -> Calls
    requires { length units.now ≤ 5 }
    ensures calls { result.items ≡ map calls.Declare units.now }
    ensures few { length result.items ≤ 5 }
    ensures requests { All IsUnit64 units.now → All IsRequest result.items }
{
    let mut calls = ArrayVec::new();
    for unit in units {
        calls.push(Call::Declare(*unit));
    }
    calls
}

fn near_calls(units: &[Unit64], radius: u32) -> Calls
    requires few { length units.now ≤ 5 }
    ensures calls { result.items ≡ map (λ unit. calls.Near unit radius) units.now }
    ensures few { length result.items ≤ 5 }
    ensures requests { All IsUnit64 units.now → radius ≤ RADIUS_MOST → All IsRequest result.items }
{
    let mut calls = ArrayVec::new();
    for unit in units {
        calls.push(Call::Near(*unit, radius));
    }
    calls
}
